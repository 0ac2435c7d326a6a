// The values of the planner and what they mean: jobs, profiles, and the verdict that every operation gives.
//
// specs/Model.antt says what a plan is and when it is right; every public contract of the planner is stated with it.
// Nothing is assumed, and but for `allowed` no function here has a `requires`.
#![tactic(auto)]

ghost use Rattle.std.specs.Prelude.{◌≡◌, ◌≤◌};
ghost use Rattle.model.specs.Model.{count_verdict};
ghost use Rattle.model.specs.Testing.{allows};

// Whole seconds: a period, or an end of a job's interval.
#[derive(Clone, Copy, Debug, Default, PartialEq, Eq, PartialOrd, Ord)]
pub struct Seconds(pub u32);

// A period among numbers of 64 bits.
impl From<Seconds> for u64 {
    ghost from_gives = { λ t wide. wide ≡ t.0 };

    fn from(t: Seconds) -> u64 {
        t.0 as u64
    }
}

// Flash pages per hour: a budget, a need or a rate. A small budget passes every range check of a period, so the two
// are never the same type.
#[derive(Clone, Copy, Debug, PartialEq, Eq, PartialOrd, Ord)]
pub struct PagesPerHour(pub u32);

// What a need has beyond its whole pages, in parts of a page per hour, of which the last period Tn makes one: a number below Tn,
// and no page rate.
#[derive(Clone, Copy, Debug, PartialEq, Eq, PartialOrd, Ord)]
pub struct Remainder(pub u32);

// A need without rounding: whole pages per hour, and the remainder over the last period.
#[derive(Clone, Copy, Debug, PartialEq, Eq)]
pub struct ExactNeed {
    pub whole: PagesPerHour,
    pub remainder: Remainder,
}

// One write job. Every number that can be judged can be given.
#[derive(Clone, Copy, Debug, Default, PartialEq, Eq)]
pub struct Job {
    // The shortest and the longest period.
    pub lo: Seconds,
    pub hi: Seconds,
    // The pages that one run writes.
    pub data: u32,
    pub metadata: u32,
    pub stiffness: u32,
}

// A profile as values: the first n of the eight jobs, in their fixed order. Jobs beyond n are ignored.
#[derive(Clone, Copy, Debug, PartialEq, Eq)]
pub struct Profile {
    pub n: u32,
    pub jobs: [Job; 8],
}

// Why an operation refuses its input. A refusal's detail is what the variant holds; crate `refusal` tells its number and its
// detail.
#[derive(Clone, Copy, Debug, PartialEq, Eq)]
pub enum Refusal {
    // 1 to 4: the profile as a whole.
    NoBytes,
    Edition,
    JobCount,
    Length,
    // 5 to 8: the first bad job, counted from 1.
    Interval(u32),
    Stiffness(u32),
    Spare(u32),
    Pages(u32),
    // 9: nothing is permitted. 10: nothing fits, and the least budget that would do.
    NoPeriods,
    Budget(PagesPerHour),
    // 11: the rows or bytes needed. 12: the first bad row, from 1, or 0 for the table's length.
    Room(u64),
    Row(u64),
    // 13: the first job whose period is not permitted.
    Periods(u32),
}

// What an operation says of its input alone.
pub type Verdict = Result<(), Refusal>;

// The bytes of a row, be it a table's or a zone's.
pub const ROW_SIZE: usize = 16;

// The verdict on `count` rows for `size` lent bytes, past the profile's own: 9 where there are none, then 11.
#[tactic(auto, unfolding(crate::specs::Model::refuse_if))]
pub fn judge_count(count: u64, size: usize) -> Verdict
    ensures { result ≡ count_verdict count size }
{
    if count == 0 {
        return Err(Refusal::NoPeriods);
    }
    let room = (size / ROW_SIZE) as u64;
    if room < count {
        return Err(Refusal::Room(count));
    }
    Ok(())
}

// Whether a job allows a period after the period `before`; for the crates above, which have one.
#[tactic(auto, unfolding(crate::specs::Testing::allows))]
pub fn allowed(j: Job, before: Seconds, t: Seconds) -> bool
    requires { 1 ≤ before.0 }
    ensures { result ≡ allows j before t }
{
    j.lo <= t && t <= j.hi && t.0 % before.0 == 0
}
