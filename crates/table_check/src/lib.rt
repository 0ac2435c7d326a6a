// A lent table, checked row by row: the first of its rows that is not good.
//
// specs/Formed.antt says when a row is good, specs/Checks.antt what is answered; a table's rows stand in crate table_row. The
// function serves other crates of the planner, and its callers meet what it requires. Nothing is assumed.
#![tactic(auto)]

ghost use Rattle.model.specs.Valid.{Valid};
ghost use Rattle.table_check.specs.Checks.{Checked};

use model::{Profile, ROW_SIZE, Seconds};
use table_row::Standing;

// The first bad row, from 1, where there is one: the label leaves both loops at the first broken rule.
// `before` is the last of the periods so far; in that time their jobs have `written` so many pages, and they have `lost` so
// much. Carried along so, need and loss take two divisions for each job and one for the row.
pub fn first_bad_row(p: Profile, table: &[u8]) -> Option<usize>
    requires { Valid p }
    ensures { Checked p table.now result }
{
    let n = p.n as usize;
    let numbers = walk_arrays::numbers_of(p);
    let mut last: Option<Standing> = None;
    'rows: {
        for k in 0..table.len() / ROW_SIZE {
            let row = table_row::row_at(table, k);
            let mut before = Seconds(1);
            let mut written: u64 = 0;
            let mut lost: u64 = 0;
            for i in 0..8 {
                let t = row.periods[i];
                if n <= i {
                    if t != Seconds(0) {
                        break 'rows Some(k + 1);
                    }
                    continue;
                }
                let job = p.jobs[i];
                if !model::allowed(job, before, t) {
                    break 'rows Some(k + 1);
                }
                written = step::carry(written, before, t, numbers.jobs[i].load);
                lost += step::loss_with(job, numbers.jobs[i].fastest, t);
                before = t;
            }
            if step::rounded_up(step::exact_need(written, before)) != row.start {
                break 'rows Some(k + 1);
            }
            let standing = Standing {
                start: row.start,
                loss: lost,
            };
            if !standing.may_follow(last) {
                break 'rows Some(k + 1);
            }
            last = Some(standing);
        }
        None
    }
}
