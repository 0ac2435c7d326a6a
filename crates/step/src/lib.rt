// What each job adds to the pages and to the loss of a plan: the only place where data and metadata are added, pages carried
// from one period on to the next, and rates taken.
//
// specs/Step.antt says what is reckoned, and proofs/ that so carried along it is the model's need, counted moment by moment, and
// its loss. These functions serve other crates of the planner, and their callers meet what they require. Nothing is assumed.
#![tactic(auto)]

ghost use Rattle.std.specs.Prelude.{◌≡◌, ◌≤◌};
ghost use Rattle.model.specs.Model.{cost, per_hour, rounded_up, rate, job_loss};
ghost use Rattle.model.specs.Most.{most_pages, most_need};
ghost use Rattle.model.specs.Valid.{Valid, ValidJob};
ghost use Rattle.step.specs.Step.{load, LoadsTo, carried, NeedFits, hourly, loss_at, LossFits};

use model::{ExactNeed, Job, PagesPerHour, Profile, Remainder, Seconds};

// The pages of a run of each job, as need counts them: from the first job on, since a job's count depends on those before it. That
// the profile is valid stays a clause: callers of a function that docs/CONTRACTS.md names are asked for no other type.
#[tactic(auto, using(model::proofs::Validity::job_valid_at), unfolding(crate::specs::Step::greatest_before))]
pub fn loads_of(p: Profile) -> [u32; 8]
    requires { Valid p }
    ensures { LoadsTo p p.n result }
{
    let mut loads = [0; 8];
    let mut greatest = 0;
    for k in 0..p.n as usize {
        let j = p.jobs[k];
        loads[k] = need_pages(j, greatest);
        greatest = greatest.max(j.metadata);
    }
    loads
}

// The pages of a run, as need counts them: its data, and what its metadata exceeds the `greatest` of the jobs before it by. So
// much does the one commit grow.
#[tactic(auto, unfolding(crate::specs::Step::load))]
fn need_pages(j: Job, greatest: u32) -> u32
    requires { ValidJob j }
    ensures { result ≡ load greatest j }
{
    let excess = j.metadata.saturating_sub(greatest);
    j.data + excess
}

// The pages of a run, as loss counts them. Jobs come out of profiles that callers give as plain values, so that one is valid is said
// here and no type of its own.
#[tactic(auto, unfolding(model::specs::Model::cost))]
pub fn loss_pages(j: Job) -> u32
    requires { ValidJob j }
    ensures { result ≡ cost j }
{
    j.data + j.metadata
}

// The pages that jobs write in t seconds, where those before this one have `written` so many in `before`, and a run of this one
// adds its `own`. That pages fit is said of two numbers that several structs hold, so it stays a clause.
pub fn carry(written: u64, before: Seconds, t: Seconds, own: u32) -> u64
    requires { NeedFits written before × (t.0 ≤ 3600) × (own ≤ most_pages) }
    ensures { result ≡ carried written before t own }
{
    written * u64::from(t.0 / before.0) + u64::from(own)
}

// The need of a plan that writes so many pages in t seconds, without rounding.
pub fn exact_need(written: u64, t: Seconds) -> ExactNeed
    requires { NeedFits written t }
    ensures { result ≡ per_hour written t }
{
    let cycle = u64::from(t);
    let hourly = 3600 * written;
    ExactNeed {
        whole: PagesPerHour((hourly / cycle) as u32),
        remainder: Remainder((hourly % cycle) as u32),
    }
}

// A need rounded up to whole pages. This is called where a need meets a budget, settles a tie, becomes a start or the detail of 10,
// or is held against a start, and nowhere else.
#[tactic(auto, unfolding(model::specs::Model::rounded_up))]
pub fn rounded_up(need: ExactNeed) -> PagesPerHour
    requires { need.whole.0 ≤ most_need }
    ensures { result ≡ rounded_up need }
{
    if need.remainder == Remainder(0) {
        return need.whole;
    }
    PagesPerHour(need.whole.0 + 1)
}

// The hourly rate of so many pages in every t seconds.
pub fn hourly_rate(pages: u32, t: Seconds) -> PagesPerHour
    requires { (pages ≤ most_pages) × (1 ≤ t.0) }
    ensures { result ≡ hourly pages t }
{
    PagesPerHour(3600 * pages / t.0)
}

// A job's rate at its shortest period.
#[tactic(auto, using(model::proofs::Bounds::cost_bound), unfolding(model::specs::Model::rate))]
pub fn fastest_rate(j: Job) -> PagesPerHour
    requires { ValidJob j }
    ensures { result ≡ rate j j.lo }
{
    hourly_rate(loss_pages(j), j.lo)
}

// What a job loses at a period, against its rate at the shortest.
#[tactic(auto, using(crate::proofs::Fits::loss_by_numbers))]
pub fn loss_with(j: Job, fastest: PagesPerHour, t: Seconds) -> u64
    requires { ValidJob j × (j.lo.0 ≤ t.0) × (fastest ≡ rate j j.lo) }
    ensures { result ≡ job_loss j t }
{
    job_loss(j.stiffness, fastest, loss_pages(j), t)
}

// The same where the job's numbers are at hand.
#[tactic(auto, using(crate::proofs::Fits::loss_is))]
pub fn job_loss(stiffness: u32, fastest: PagesPerHour, pages: u32, t: Seconds) -> u64
    requires { LossFits stiffness fastest pages t }
    ensures { result ≡ loss_at stiffness fastest pages t }
{
    let slower = u64::from(fastest.0 - hourly_rate(pages, t).0);
    u64::from(stiffness) * (slower * slower)
}
