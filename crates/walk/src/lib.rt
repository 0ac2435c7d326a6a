// What every walk through the permitted lists shares: the numbers of the jobs, the periods that a job may try, the
// floors by which a walk is cut, and the walk itself, whatever it keeps of the plans that it visits.
//
// specs/Chains.antt and specs/Walk.antt say what the walk is without its cuts, and proofs/ hold its laws.
// specs/Numbers.antt says how a profile's numbers are lent, specs/Laws.antt what a walk may ask of what it keeps, and
// specs/Steps.antt what these functions ask and promise; they serve other crates of the planner, and their callers meet
// what they require. Nothing is assumed.
#![tactic(auto)]

ghost use Rattle.std.specs.Prelude.{◌≡◌, refl, true, false, List, ℕ, ◌+◌, ◌*◌, ◌/◌, ◌≤◌, ◌<◌, All, leb, length, take};
ghost use Rattle.model.specs.declared.Seconds.{Seconds};
ghost use Rattle.model.specs.declared.PagesPerHour.{PagesPerHour};
ghost use Rattle.model.specs.Model.{pages_per_hour, rounded_up};
ghost use Rattle.model.specs.Most.{most_need};
ghost use Rattle.step.specs.Step.{need_at, NeedFits};
ghost use Rattle.walk.specs.Laws.{no_loss, IsPeriod, WithinHour, Keeps, Absorbs};
ghost use Rattle.walk.specs.Lent.{in_place, absorbs_in_place, absorbs_wrapped};
ghost use Rattle.walk.specs.Steps.{loss_held, LossHeldFits, tries_held, MayTry, Ends, Unreached, PassedOver, Repeats, Later, IsLossFloor, Ready, Walked};

use model::{ExactNeed, PagesPerHour, Seconds};

// The periods that a job may try after one of `step` seconds: from `first` to `last`, each a step above the one before;
// none where `last` is below `first`.
#[derive(Clone, Copy)]
pub struct Tries {
    pub first: Seconds,
    pub last: Seconds,
}

// What the walks take of one job, made once of a profile.
#[derive(Clone, Copy)]
pub struct JobNumbers {
    // The shortest and the longest period.
    pub lo: Seconds,
    pub hi: Seconds,
    // The pages of a run, as need counts them and as loss does.
    pub load: u32,
    pub cost: u32,
    // The rate at the shortest period.
    pub fastest: PagesPerHour,
    // What the jobs after this one need at least.
    pub later: PagesPerHour,
    pub stiffness: u32,
}

// Zeros stand for a job that there is not.
pub const NO_NUMBERS: JobNumbers = JobNumbers {
    lo: Seconds(0),
    hi: Seconds(0),
    load: 0,
    cost: 0,
    fastest: PagesPerHour(0),
    later: PagesPerHour(0),
    stiffness: 0,
};

impl JobNumbers {
    // The periods that the job may try: the multiples of `step` in its interval.
    pub fn to_try(&self, step: Seconds) -> Tries
        requires { MayTry self.now step }
        ensures { result ≡ tries_held self.now step }
    {
        Tries {
            first: Seconds((self.lo.0 + (step.0 - 1)) / step.0 * step.0),
            last: Seconds(self.hi.0 / step.0 * step.0),
        }
    }

    // What the job loses at period t.
    pub fn loss_at(&self, t: Seconds) -> u64
        requires { LossHeldFits self.now t }
        ensures { result ≡ loss_held self.now t }
    {
        step::job_loss(self.stiffness, self.fastest, self.cost, t)
    }

    // The least need of plans whose jobs as far as this one write so many pages in t seconds.
    #[tactic(auto, unfolding(step::specs::Step::need_at))]
    pub fn need_floor(&self, t: Seconds, written: u64) -> PagesPerHour
        requires need_fits { NeedFits written t }
        requires need_bound { need_at written t + self.now.later.0 ≤ most_need }
        ensures { result ≡ pages_per_hour (need_at written t + self.now.later.0) }
    {
        let so_far = step::rounded_up(step::exact_need(written, t));
        PagesPerHour(so_far.0 + self.later.0)
    }

    // Whether the job's interval holds a multiple of t.
    fn has_multiple(&self, t: Seconds) -> bool
        requires { 1 ≤ t.0 }
        ensures { result ≡ leb self.now.lo.0 (self.now.hi.0 / t.0 * t.0) }
    {
        self.lo.0 <= self.hi.0 / t.0 * t.0
    }

    // Whether the job, which may try the multiples of `step` from `first` on, can be passed over at t: it has no pages,
    // neither for need nor for loss, so a smaller one of these that divides t takes every completion at the same need
    // and loss.
    pub fn repeats(&self, step: Seconds, first: Seconds, t: Seconds) -> bool
        requires step_bound { 1 ≤ step.0 }
        requires first_bound { 1 ≤ first.0 / step.0 }
        ensures { result ≡ true → Repeats self.now step first t }
    {
        self.load == 0 && self.cost == 0 && passed_over(t.0 / step.0, first.0 / step.0)
    }
}

// Whether some number from `first` on, below a, divides a: the largest that divides a is a by its smallest factor.
#[tactic(auto, using(crate::proofs::Pageless::one_passes, crate::proofs::Pageless::factor_passes))]
fn passed_over(a: u32, first: u32) -> bool
    requires { 1 ≤ first }
    ensures { result ≡ true → PassedOver a first }
{
    if first == 1 {
        return 1 < a;
    }
    for p in 2..=a / first {
        if a % p == 0 {
            return true;
        }
    }
    false
}

// The first n of eight places hold the numbers of a profile's jobs, in their order.
#[derive(Clone, Copy)]
pub struct Numbers {
    pub n: usize,
    pub jobs: [JobNumbers; 8],
}

impl Numbers {
    // The lowest loss that the jobs from place `from` on can come to when no period is shorter than t.
    pub fn loss_floor(&self, from: usize, t: Seconds) -> u64
        requires { Later self.now from t }
        ensures { IsLossFloor self.now from t result }
    {
        let mut floor: u64 = 0;
        for j in &self.jobs[from..self.n] {
            floor += j.loss_at(j.lo.max(t));
        }
        floor
    }

    // Whether each of the jobs from place `from` on has a multiple of t in its interval.
    pub fn reaches(&self, from: usize, t: Seconds) -> bool
        requires { Ends self.now from t }
        ensures { result ≡ false → Unreached self.now from t }
    {
        self.jobs[from.min(self.n)..self.n]
            .iter()
            .all(|j| j.has_multiple(t))
    }
}

// A plan as far as it is made: its first `jobs` jobs have periods, the last of which is `last`; in that time they have
// `written` so many pages, and they have `lost` so much.
#[derive(Clone, Copy)]
pub struct Begun {
    pub jobs: usize,
    pub last: Seconds,
    pub written: u64,
    pub lost: u64,
}

// No job has a period yet.
pub const NONE_BEGUN: Begun = Begun {
    jobs: 0,
    last: Seconds(1),
    written: 0,
    lost: 0,
};

// What a walk keeps of the plans that it visits.
pub trait Keep {
    // What a walk may count on of what is kept.
    ghost Good: { Self → Type 0 };

    // What is kept after one plan more, by the budget, the plan's need and loss, and its periods.
    ghost update: { PagesPerHour → ℕ → ℕ → List Seconds → Self → Self };

    // Whether no plan that loses at least `floor` changes what is kept.
    fn is_done(&self, floor: u64) -> bool
        requires good { Good self.now }
        requires floor_bound { floor < no_loss }
        ensures { result ≡ true → (budget : PagesPerHour) → Keeps (update budget) self.now 0 floor };

    // Whether a plan of at least this need and this loss could change it.
    fn could_take(&self, budget: PagesPerHour, need_floor: PagesPerHour, floor: u64) -> bool
        requires good { Good self.now }
        requires floor_bound { floor < no_loss }
        ensures { result ≡ false → Keeps (update budget) self.now need_floor.0 floor };

    // One whole plan.
    fn offer(&mut self, budget: PagesPerHour, need: ExactNeed, loss: u64, periods: &[Seconds])
        requires good { Good self.old }
        requires need_bound { need.whole.0 ≤ most_need }
        requires loss_bound { loss < no_loss }
        requires few { length periods.now ≤ 8 }
        requires within_hour { WithinHour periods.now }
        ensures good { Good self.new }
        ensures taken { self.new ≡ update budget (rounded_up need).0 loss periods.now self.old };

    // A plan once visited takes no more part, whatever else is visited.
    ghost absorbs: { (budget : PagesPerHour) → Absorbs Good (update budget) };
}

// The same, where what is kept says itself what it asks of a plan's periods.
pub trait KeepWhere {
    // What a walk may count on of what is kept.
    ghost Good: { Self → Type 0 };

    // What each period of a plan must be for the plan to be kept.
    ghost Keepable: { Seconds → Type 0 };

    // What is kept after one plan more, by the budget, the plan's need and loss, and its periods.
    ghost update: { PagesPerHour → ℕ → ℕ → List Seconds → Self → Self };

    // Whether no plan that loses at least `floor` changes what is kept.
    fn is_done(&self, floor: u64) -> bool
        requires good { Good self.now }
        requires floor_bound { floor < no_loss }
        ensures { result ≡ true → (budget : PagesPerHour) → Keeps (update budget) self.now 0 floor };

    // Whether a plan of at least this need and this loss could change it.
    fn could_take(&self, budget: PagesPerHour, need_floor: PagesPerHour, floor: u64) -> bool
        requires good { Good self.now }
        requires floor_bound { floor < no_loss }
        ensures { result ≡ false → Keeps (update budget) self.now need_floor.0 floor };

    // One whole plan.
    fn offer(&mut self, budget: PagesPerHour, need: ExactNeed, loss: u64, periods: &[Seconds])
        requires good { Good self.old }
        requires need_bound { need.whole.0 ≤ most_need }
        requires loss_bound { loss < no_loss }
        requires few { length periods.now ≤ 8 }
        requires keepable { All Keepable periods.now }
        ensures good { Good self.new }
        ensures taken { self.new ≡ update budget (rounded_up need).0 loss periods.now self.old };

    // A plan once visited takes no more part, whatever else is visited.
    ghost absorbs: { (budget : PagesPerHour) → Absorbs Good (update budget) };

    // A second at least, and within the hour: that is always enough.
    ghost keeps_periods: { (t : Seconds) → IsPeriod t → Keepable t };
}

// What is kept where it is lent, and asks that each period lies within the hour.
#[derive(Drop)]
struct AtPlace<'a, K> {
    kept: &'a mut K,
}

impl<'a, K: Keep> KeepWhere for AtPlace<'a, K> {
    ghost Good = { λ r. K.Good r.kept.now };

    ghost Keepable = { IsPeriod };

    ghost update = { λ budget q l ts r. record { kept = in_place (K.update budget) q l ts r.kept } };

    ghost absorbs = { λ budget. absorbs_wrapped (λ k. record { kept = k }) (λ r. r.kept) (λ r. refl) (absorbs_in_place (K.absorbs budget)) };

    ghost keeps_periods = { λ t is. is };

    fn is_done(&self, floor: u64) -> bool {
        self.kept.is_done(floor)
    }

    fn could_take(&self, budget: PagesPerHour, need_floor: PagesPerHour, floor: u64) -> bool {
        self.kept.could_take(budget, need_floor, floor)
    }

    fn offer(&mut self, budget: PagesPerHour, need: ExactNeed, loss: u64, periods: &[Seconds]) {
        self.kept.offer(budget, need, loss, periods);
    }
}

// Tries all permitted plans that go on from `begun`, whose periods stand in front of `periods`, each job's periods in
// rising order; what is kept takes of them what it will.
pub fn climb<K: Keep>(
    m: &Numbers,
    budget: PagesPerHour,
    begun: Begun,
    periods: &mut [Seconds; 8],
    kept: &mut K,
)
    requires ready { Ready m.now begun }
    requires within_hour { WithinHour (take begun.jobs periods.old) }
    requires good { K.Good kept.old }
    ensures walked { Walked (K.update budget) m.now begun periods.old periods.new kept.old kept.new }
    ensures good { K.Good kept.new }
{
    let mut lent = AtPlace { kept };
    climb_where(m, budget, begun, periods, &mut lent);
}

// The same, whatever is asked of a plan's periods.
pub fn climb_where<K: KeepWhere>(
    m: &Numbers,
    budget: PagesPerHour,
    begun: Begun,
    periods: &mut [Seconds; 8],
    kept: &mut K,
)
    requires ready { Ready m.now begun }
    requires keepable { All K.Keepable (take begun.jobs periods.old) }
    requires good { K.Good kept.old }
    ensures walked { Walked (K.update budget) m.now begun periods.old periods.new kept.old kept.new }
    ensures good { K.Good kept.new }
{
    if begun.jobs == m.n {
        let need = step::exact_need(begun.written, begun.last);
        kept.offer(budget, need, begun.lost, &periods[..m.n]);
        return;
    }
    let job = &m.jobs[begun.jobs];
    let after = begun.jobs + 1;
    let tries = job.to_try(begun.last);
    let mut t = tries.first;
    // By hand: a range would step by a `usize` and yield bare numbers, where each turn wants seconds.
    while t <= tries.last {
        let lost = begun.lost + job.loss_at(t);
        let floor = lost + m.loss_floor(after, t);
        if kept.is_done(floor) {
            return;
        }
        let next = Seconds(t.0 + begun.last.0);
        if job.repeats(begun.last, tries.first, t) {
            t = next;
            continue;
        }
        let written = step::carry(begun.written, begun.last, t, job.load);
        if kept.could_take(budget, job.need_floor(t, written), floor) && m.reaches(after, t) {
            periods[begun.jobs] = t;
            let more = Begun {
                jobs: after,
                last: t,
                written,
                lost,
            };
            climb_where(m, budget, more, periods, kept);
        }
        t = next;
    }
}
