// A profile's numbers, made once and lent to the walks.
//
// specs/Numbers.antt of walk says which they are. The function serves other crates of the planner, and its callers meet
// what it requires. Nothing is assumed.
#![tactic(auto)]

ghost use Rattle.model.specs.Valid.{Valid};
ghost use Rattle.walk.specs.Numbers.{NumbersFrom};

use model::{PagesPerHour, Profile};
use walk::{JobNumbers, NO_NUMBERS, Numbers};

// The numbers of a profile's jobs: from the last one back, since what a job's numbers say of later need rests on the
// jobs after it.
pub fn numbers_of(p: Profile) -> Numbers
    requires { Valid p }
    ensures { NumbersFrom p 0 result }
{
    let n = p.n as usize;
    let loads = step::loads_of(p);
    let mut jobs = [NO_NUMBERS; 8];
    let mut later = PagesPerHour(0);
    for k in (0..n).rev() {
        let j = p.jobs[k];
        jobs[k] = JobNumbers {
            lo: j.lo,
            hi: j.hi,
            load: loads[k],
            cost: step::loss_pages(j),
            fastest: step::fastest_rate(j),
            later,
            stiffness: j.stiffness,
        };
        later = PagesPerHour(step::hourly_rate(loads[k], j.hi).0 + later.0);
    }
    Numbers { n, jobs }
}
