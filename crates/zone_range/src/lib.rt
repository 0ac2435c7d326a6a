// What a multiplier allows: the multipliers to try for a job, and the range of first periods that one of them leaves.
//
// The methods serve the walk over the zones, which meets what they require. Nothing is assumed.
#![tactic(auto)]

ghost use Rattle.std.specs.Prelude.{◌≡◌, ◌*◌, ◌/◌, ◌^◌, ◌≤◌, min, max, ltb};
ghost use Rattle.model.specs.Rounding.{round_up};

use model::{Job, Seconds};

// A job's interval: its shortest and its longest period.
#[derive(Clone, Copy)]
pub struct Interval {
    pub lo: Seconds,
    pub hi: Seconds,
}

// A range of first periods: the least and the greatest.
#[derive(Clone, Copy)]
pub struct Range {
    pub least: Seconds,
    pub greatest: Seconds,
}

impl From<Job> for Interval {
    ghost from_gives = { λ job interval. (interval.lo ≡ job.lo) × (interval.hi ≡ job.hi) };

    fn from(job: Job) -> Interval {
        Interval {
            lo: job.lo,
            hi: job.hi,
        }
    }
}

impl Interval {
    // The smallest multiple of `a` that brings the greatest first period up to the shortest period.
    pub fn first_multiplier(self, greatest: Seconds, a: u32) -> u32
        requires some { 1 ≤ a * greatest.0 }
        requires small { (a * greatest.0 ≤ 2 ^ 24) × (self.lo.0 ≤ 3600) }
        requires fits { round_up self.lo.0 (a * greatest.0) * a ≤ 2 ^ 24 }
        ensures { result ≡ round_up self.lo.0 (a * greatest.0) * a }
    {
        let b = a * greatest.0;
        (self.lo.0 + (b - 1)) / b * a
    }

    // Whether m is past the last multiplier, the largest number of times that the least first period goes into the
    // longest period. A product tells, and takes less time than the quotient.
    pub fn past_last(self, least: Seconds, m: u32) -> bool
        requires some { 1 ≤ least.0 }
        requires small { (least.0 ≤ 3600) × (m ≤ 2 ^ 24) }
        ensures { result ≡ ltb (self.hi.0 / least.0) m }
    {
        u64::from(self.hi) < u64::from(m) * u64::from(least)
    }

    // The first periods of a range that m keeps in the interval, if there are any.
    pub fn narrow(self, range: Range, m: u32) -> Range
        requires some { 1 ≤ m }
        requires small { (m ≤ 2 ^ 24) × (self.lo.0 ≤ 3600) }
        ensures least { result.least.0 ≡ max range.least.0 (round_up self.lo.0 m) }
        ensures greatest { result.greatest.0 ≡ min range.greatest.0 (self.hi.0 / m) }
    {
        Range {
            least: range.least.max(Seconds((self.lo.0 + (m - 1)) / m)),
            greatest: range.greatest.min(Seconds(self.hi.0 / m)),
        }
    }
}
