// A batch of stairs as rows of a lent buffer, and the need that the next batch stays below.
//
// specs/Batch.antt says where the rows go. These functions serve other crates of the planner, and their callers meet what
// they require. Nothing is assumed.
#![tactic(auto)]

ghost use Rattle.std.specs.Prelude.{◌≡◌, ◌-◌, ◌≤◌, ◌<◌, length};
ghost use Rattle.table_stairs.specs.Ordered.{row_at};
ghost use Rattle.table_batch.specs.Batch.{with_batch};

use model::PagesPerHour;
use table_stairs::Stair;

// A batch to the places before `end`, its first row last: needs fall in a batch and rise in a table.
pub fn write_batch(rows: &[Stair], end: usize, out: &mut [u8])
    requires { length rows.now ≤ end }
    ensures { out.new ≡ with_batch rows.now end out.old }
{
    for (k, row) in rows.iter().enumerate() {
        let place = end - 1 - k;
        table_row::put_row(out, place, row.words());
    }
}

// The need of the last row of a batch: what the next batch stays below.
pub fn last_need(rows: &[Stair]) -> PagesPerHour
    requires { 0 < length rows.now }
    ensures { result.0 ≡ (row_at rows.now (length rows.now - 1)).its_need }
{
    rows[rows.len() - 1].need()
}
