// The budget table: one row for each different best answer.
//
// specs/Table.antt says which rows a table has, which bytes, and what building answers; specs/Descent.antt serves the
// private functions alone. Nothing is assumed, and no public function has a `requires`.
//
// The best periods for a budget are also best for every budget from their need on. So the rows are the best periods for the
// greatest budget, then the best below their need, and so on until nothing fits; each walk collects a batch of them.
#![tactic(auto)]

ghost use Rattle.std.specs.Prelude.{List, ◌≤◌, length};
ghost use Rattle.model.specs.Model.{jobs_of};
ghost use Rattle.model.specs.Valid.{Valid};
ghost use Rattle.table_stairs.specs.Stairs.{Stair};
ghost use Rattle.table_climb.specs.Next.{AnswersUnder};
ghost use Rattle.table.specs.Table.{Built};
ghost use Rattle.table.specs.Descent.{rows_below, all_budgets, Wrote, WroteNext};

use model::{PagesPerHour, Profile, Refusal};

const GREATEST_BUDGET: PagesPerHour = PagesPerHour(0xffff_ffff);

// As many as there are budgets.
const MOST_ROWS: usize = 0x1_0000_0000;

// Writes the budget table to the front of `out`, or refuses: the profile's own refusal, 9, then 11 with the rows needed.
#[tactic(auto, using(model::proofs::Validity::judged_valid, crate::proofs::Outcome::refused_built))]
pub fn build_table(p: Profile, out: &mut [u8]) -> Result<u64, Refusal>
    ensures { Built p out.old result out.new }
{
    let Err(refusal) = profile_judge::judge(p) else {
        return build_sound(p, out);
    };
    Err(refusal)
}

// The same for a sound profile. Listing zones has this shape over another walk; a walk handed in as a closure would take as many
// lines here and a promise of the closure besides.
#[tactic(auto, using(crate::proofs::Descent::rows_few, crate::proofs::Outcome::count_built, crate::proofs::Outcome::all_built))]
fn build_sound(p: Profile, out: &mut [u8]) -> Result<u64, Refusal>
    requires { Valid p }
    ensures { Built p out.old result out.new }
{
    let mut nowhere = [0u8; 1];
    let count = write_rows(p, MOST_ROWS, &mut nowhere) as u64;
    model::judge_count(count, out.len())?;
    write_rows(p, count as usize, out);
    Ok(count)
}

// Goes through the rows from the greatest budget down and writes them to the places before `end`, where `out` has these;
// their number. One loop serves counting, in no room, and writing.
fn write_rows(p: Profile, end: usize, out: &mut [u8]) -> usize
    requires valid { Valid p }
    requires all_budgets_len_bound { length (rows_below (jobs_of p) all_budgets) ≤ end }
    ensures { Wrote (jobs_of p) end out.old out.new result }
{
    let mut seen: usize = 0;
    let mut budget = GREATEST_BUDGET;
    // By hand: how many rows a turn sees, only the walk tells.
    while seen < end {
        let Some(batch) = write_next(p, budget, end - seen, out) else {
            return seen;
        };
        seen += batch.rows;
        if batch.need.0 == 0 {
            return seen;
        }
        budget = PagesPerHour(batch.need.0 - 1);
    }
    seen
}

// How many rows a walk wrote, and the need of the last of them.
#[derive(Clone, Copy)]
struct Batch {
    rows: usize,
    need: PagesPerHour,
}

// Writes the next rows under a budget to the places before `end`, where `out` has these; none where nothing fits. Apart from the
// loop, so that a staircase is read where it was made: in the loop's own body each turn would copy it twice.
fn write_next(p: Profile, budget: PagesPerHour, end: usize, out: &mut [u8]) -> Option<Batch>
    requires valid { Valid p }
    requires room { (rows : List Stair) → AnswersUnder (jobs_of p) budget rows → length rows ≤ end }
    ensures { WroteNext (jobs_of p) budget end out.old out.new result }
{
    let stairs = table_climb::answers_under(p, budget);
    let rows = stairs.rows();
    if rows.is_empty() {
        return None;
    }
    table_batch::write_batch(rows, end, out);
    Some(Batch {
        rows: rows.len(),
        need: table_batch::last_need(rows),
    })
}
