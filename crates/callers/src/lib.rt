// The walks as a crate calls them that knew them before they came to ask less or to answer otherwise: each function here has a
// contract that one of them had, or rests on it, and takes its answer from what stands today.
//
// They serve no other crate. A walk that comes to ask for more than these clauses give, or to say less than they promise, breaks them.
// Nothing is assumed.
#![tactic(auto)]

ghost use Rattle.std.specs.Prelude.{◌≡◌};
ghost use Rattle.model.specs.Model.{jobs_of};
ghost use Rattle.model.specs.Valid.{Valid};
ghost use Rattle.walk.specs.Walk.{start, walk};
ghost use Rattle.walk.specs.Steps.{Ready};
ghost use Rattle.choose_offer.specs.Found.{nothing, pick};
ghost use Rattle.choose_offer.specs.Plan.{found_in};
ghost use Rattle.choose_walk.specs.Steps.{LessensHeld};
ghost use Rattle.table_stairs.specs.Stairs.{most, no_stairs, enter};
ghost use Rattle.table_climb.specs.Next.{AnswersUnder};

use choose_offer::{Best, Plan};
use model::{PagesPerHour, Profile, Seconds};
use table_enter::Stairs;
use walk::{Begun, Keep, Numbers};

// The least need, asked for with numbers that are ready for any walk, and told of jobs of their stiffness.
pub fn least_need(m: &Numbers, begun: Begun, had: Option<PagesPerHour>) -> Option<PagesPerHour>
    requires { Ready m.now begun }
    ensures { LessensHeld m.now begun had result }
{
    choose_walk::least_need(m, begun, had)
}

// The next answers under a budget, in a staircase that is lent.
pub fn answers_under(p: Profile, budget: PagesPerHour, stairs: &mut Stairs)
    requires { Valid p }
    ensures { AnswersUnder (jobs_of p) budget stairs.new.rows }
{
    *stairs = table_climb::answers_under(p, budget);
}

// What is kept of all permitted plans, by the walk whose periods lie within the hour.
pub fn climb_all<K: Keep>(p: Profile, budget: PagesPerHour, kept: &mut K)
    requires valid { Valid p }
    requires good { K.Good kept.old }
    ensures { kept.new ≡ walk (K.update budget) (jobs_of p) start kept.old }
{
    let numbers = walk_arrays::numbers_of(p);
    let mut periods = [Seconds(0); 8];
    walk::climb(&numbers, budget, walk::NONE_BEGUN, &mut periods, kept);
}

// The best plan that fits a budget.
pub fn best_plan(p: Profile, budget: PagesPerHour) -> Option<Plan>
    requires { Valid p }
    ensures { found_in result ≡ walk (pick budget.0) (jobs_of p) start nothing }
{
    let mut best = Best::new();
    climb_all(p, budget, &mut best);
    best.plan()
}

// The staircase of all permitted plans under a budget.
pub fn whole_stairs(p: Profile, budget: PagesPerHour) -> Stairs
    requires { Valid p }
    ensures { result ≡ walk (enter most budget.0) (jobs_of p) start no_stairs }
{
    let mut stairs = Stairs::new();
    climb_all(p, budget, &mut stairs);
    stairs
}

#[cfg(test)]
mod tests {
    use super::*;
    use model::Job;

    fn job(lo: u32, hi: u32, data: u32, metadata: u32) -> Job {
        Job {
            lo: Seconds(lo),
            hi: Seconds(hi),
            data,
            metadata,
            stiffness: 1,
        }
    }

    // Three intervals: nine answers, the least at 4,176 pages per hour.
    fn profile_a() -> Profile {
        let none = job(0, 0, 0, 0);
        Profile {
            n: 3,
            jobs: [
                job(20, 25, 9, 1),
                job(43, 74, 18, 2),
                job(45, 100, 36, 4),
                none,
                none,
                none,
                none,
                none,
            ],
        }
    }

    #[test]
    #[tactic(auto, using(model::proofs::Validity::judged_valid))]
    fn walks_of_a(rt: HostRuntime) {
        let p = profile_a();
        let Err(_) = profile_judge::judge(p) else {
            for (budget, need, loss) in [
                (4176, 4176, 3_281_956),
                (5219, 4972, 1_127_645),
                (6027, 6027, 72_006),
            ] {
                let best = best_plan(p, PagesPerHour(budget));
                assert_eq!(rt;
                    best.map(|plan| (plan.need().0, plan.loss())),
                    Some((need, loss))
                );
            }
            assert!(rt; best_plan(p, PagesPerHour(4175)).is_none());
            let all = whole_stairs(p, PagesPerHour(0xffff_ffff));
            assert_eq!(rt; all.rows().len(), 9);
            assert_eq!(rt; all.rows()[8].loss(), 3_281_956);
            return;
        };
        assert!(rt; false);
    }
}
