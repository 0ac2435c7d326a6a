// The walk for the least need of all plans.
//
// specs/Least.antt says what it keeps, specs/Steps.antt what these functions ask and promise. They serve other crates
// of the planner, and their callers meet what is required. proofs/Fold.antt shows that the walk for the best plan that
// fits a budget, `walk::climb_where` with what choose_offer keeps, ends with the best. Nothing is assumed.
#![tactic(auto)]

ghost use Rattle.std.specs.Prelude.{◌≡◌, false, List, ℕ};
ghost use Rattle.model.specs.declared.Seconds.{Seconds};
ghost use Rattle.walk.specs.Laws.{Keeps};
ghost use Rattle.choose_walk.specs.Least.{less_need};
ghost use Rattle.choose_walk.specs.Steps.{least_in, ReadyForNeed, Lessens};

use model::{PagesPerHour, Seconds};
use walk::{Begun, Numbers};

// The least need of all permitted plans that begin so, or `had` if that is less; longest periods first.
pub fn least_need(m: &Numbers, begun: Begun, had: Option<PagesPerHour>) -> Option<PagesPerHour>
    requires { ReadyForNeed m.now begun }
    ensures { Lessens m.now begun had result }
{
    if begun.jobs == m.n {
        let need = step::rounded_up(step::exact_need(begun.written, begun.last));
        return lessened(need, had);
    }
    let job = &m.jobs[begun.jobs];
    let after = begun.jobs + 1;
    let tries = job.to_try(begun.last);
    let mut least = had;
    let mut t = tries.last;
    // By hand: a range would step by a `usize` and yield bare numbers, where each turn wants seconds.
    while tries.first <= t {
        let written = step::carry(begun.written, begun.last, t, job.load);
        if may_lessen(job.need_floor(t, written), least) && m.reaches(after, t) {
            let more = Begun {
                jobs: after,
                last: t,
                written,
                lost: begun.lost,
            };
            least = least_need(m, more, least);
        }
        t = Seconds(t.0 - begun.last.0);
    }
    least
}

// What is had after a plan of this need.
#[tactic(auto, unfolding(crate::specs::Least::less_need, crate::specs::Steps::least_in))]
fn lessened(need: PagesPerHour, had: Option<PagesPerHour>) -> Option<PagesPerHour>
    ensures { (loss : ℕ) (periods : List Seconds) → least_in result ≡ less_need need.0 loss periods (least_in had) }
{
    Some(had.map_or(need, |had| need.min(had)))
}

// Whether a plan of at least this need could need less than `had`.
#[tactic(auto, using(crate::proofs::Lessening::least_kept), unfolding(crate::specs::Least::less_need, crate::specs::Steps::least_in))]
fn may_lessen(floor: PagesPerHour, had: Option<PagesPerHour>) -> bool
    ensures { result ≡ false → Keeps less_need (least_in had) floor.0 0 }
{
    had.is_none_or(|had| floor < had)
}
