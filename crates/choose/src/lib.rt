// The best periods for a budget: the best plan that a walk through all permitted lists finds, or why there is none.
//
// specs/Choice.antt says what may be answered; specs/Steps.antt serves the private functions alone.
// Nothing is assumed, and no public function has a `requires`.
#![tactic(auto)]

ghost use Rattle.std.specs.Prelude.{◌≡◌};
ghost use Rattle.model.specs.Model.{jobs_of, loss};
ghost use Rattle.model.specs.Valid.{Valid};
ghost use Rattle.choose.specs.Choice.{answered, Outcome, Chosen};
ghost use Rattle.choose.specs.Steps.{PlanHeld};

use choose_offer::{Best, Plan};
use model::{ExactNeed, PagesPerHour, Profile, Refusal, Seconds};
use walk::{NONE_BEGUN, Numbers};

// What `choose` answers: the periods (zeros beyond n), their need without rounding, and their loss.
#[derive(Clone, Copy, Debug, PartialEq, Eq)]
pub struct Choice {
    pub periods: [Seconds; 8],
    pub need: ExactNeed,
    pub loss: u64,
}

// The best periods for a budget; the profile's own refusal, then 9, then 10 with the least budget that would do.
#[tactic(auto, using(model::proofs::Validity::judged_valid, model::proofs::ProfileFirst::own_refused, model::proofs::ProfileFirst::past_profile))]
pub fn choose(p: Profile, budget: PagesPerHour) -> Result<Choice, Refusal>
    ensures { Chosen p budget result }
{
    let Err(refusal) = profile_judge::judge(p) else {
        return choose_sound(p, budget);
    };
    Err(refusal)
}

// The same for a sound profile: its numbers are made once and lent to the walks.
fn choose_sound(p: Profile, budget: PagesPerHour) -> Result<Choice, Refusal>
    requires { Valid p }
    ensures { Outcome (jobs_of p) budget result }
{
    let numbers = walk_arrays::numbers_of(p);
    let mut periods = [Seconds(0); 8];
    let mut best = Best::new();
    walk::climb_where(&numbers, budget, NONE_BEGUN, &mut periods, &mut best);
    match best.plan() {
        Some(plan) => Ok(told(p, &numbers, &plan)),
        None => match choose_walk::least_need(&numbers, NONE_BEGUN, None) {
            Some(least) => Err(Refusal::Budget(least)),
            None => Err(Refusal::NoPeriods),
        },
    }
}

// A best plan as an answer, with zeros beyond its periods. The walk kept its need rounded up, so its pages are carried along once
// more: `before` is the last of the periods so far, and in that time their jobs have `written` so many.
fn told(p: Profile, numbers: &Numbers, plan: &Plan) -> Choice
    requires held { PlanHeld p numbers.now plan.now.periods }
    requires its_loss { plan.now.loss ≡ loss (jobs_of p) plan.now.periods }
    ensures { result ≡ answered (jobs_of p) plan.now.periods }
{
    let periods = plan.periods();
    let mut before = Seconds(1);
    let mut written: u64 = 0;
    for k in 0..periods.len() {
        let t = periods[k];
        written = step::carry(written, before, t, numbers.jobs[k].load);
        before = t;
    }
    Choice {
        periods: plan.padded(),
        need: step::exact_need(written, before),
        loss: plan.loss(),
    }
}
