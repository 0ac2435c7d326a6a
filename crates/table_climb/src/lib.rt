// The next answers of a table in one walk: it fills a staircase of plans in rising loss and falling need.
//
// specs/Next.antt says what the next answers are, specs/Collected.antt what a staircase holds once all permitted lists were
// visited. This function serves other crates of the planner, and its callers meet what is required. Nothing is assumed.
#![tactic(auto)]

ghost use Rattle.model.specs.Model.{jobs_of};
ghost use Rattle.model.specs.Valid.{Valid};
ghost use Rattle.table_climb.specs.Next.{AnswersUnder};

use model::{PagesPerHour, Profile, Seconds};
use table_enter::Stairs;

// A staircase of the next answers under a budget, in rising loss and falling need. That the profile is valid stays a clause, as in
// `step::loads_of`.
pub fn answers_under(p: Profile, budget: PagesPerHour) -> Stairs
    requires { Valid p }
    ensures { AnswersUnder (jobs_of p) budget result.rows }
{
    let numbers = walk_arrays::numbers_of(p);
    let mut periods = [Seconds(0); 8];
    let mut stairs = Stairs::new();
    walk::climb_where(
        &numbers,
        budget,
        walk::NONE_BEGUN,
        &mut periods,
        &mut stairs,
    );
    stairs
}
