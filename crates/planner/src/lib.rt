// The planner: everything that callers use in one place. Rattle's callers get the values and the operations under their own names,
// and the functions that include/charopleth.h declares, which crate `planner_c` exports to C.
//
// Each operation's contract stands where it is made; docs/CONTRACTS.md lists them in reading order. specs/ForC.antt says
// what C's functions may answer, and `exchange` which numbers stand for what. Nothing is assumed, and no public function has
// a `requires`.
#![tactic(auto)]

ghost use Rattle.model.specs.Model.{pages_per_hour};
ghost use Rattle.profile_read.specs.Reading.{Reads};
ghost use Rattle.profile_write.specs.Writing.{Writes};
ghost use Rattle.score.specs.Scoring.{Scores};
ghost use Rattle.choose.specs.Choice.{Chosen};
ghost use Rattle.zones.specs.Zones.{Listed};
ghost use Rattle.table.specs.Table.{Built};
ghost use Rattle.table_lookup.specs.Lookup.{Locates};
ghost use Rattle.exchange.specs.Numbers.{profile_in, numbers_of, eight_periods_in, score_of, answer_of};
ghost use Rattle.planner.specs.ForC.{CountsForC, LeavesForC};

pub use choose::{Choice, choose};
pub use model::{ExactNeed, Job, PagesPerHour, Profile, Refusal, Remainder, Seconds, Verdict};
pub use profile_read::read_profile;
pub use profile_write::write_profile;
pub use refusal::{detail, number};
pub use score::{Scored, score};
pub use table::build_table;
pub use table_lookup::{judge_lookup, lookup};
pub use zones::list_zones;

// The values that a profile's bytes stand for, into 41 numbers.
pub fn charopleth_read(bytes: &[u8], values: &mut [u32; 41]) -> u64
    ensures { LeavesForC (Reads bytes.now) numbers_of values.old result values.new }
{
    match profile_read::read_profile(bytes) {
        Ok(p) => {
            exchange_put::put_values(p, values);
            0
        }
        Err(refusal) => exchange::result(Err(refusal)),
    }
}

// A profile's bytes to the front of a lent room; the count of bytes.
pub fn charopleth_write(n: u32, jobs: &[u32; 40], room: &mut [u8]) -> u64
    ensures { CountsForC (λ a. Writes (profile_in n jobs.now) room.old a room.new) result }
{
    exchange::counted(profile_write::write_profile(exchange::profile(n, jobs), room))
}

// The need of given periods, whole pages and remainder, and their loss, into three numbers.
pub fn charopleth_score(n: u32, jobs: &[u32; 40], periods: &[u32; 8], answer: &mut [u64; 3]) -> u64
    ensures { LeavesForC (Scores (profile_in n jobs.now) (eight_periods_in periods.now)) (λ a. score_of a.need a.loss) answer.old result answer.new }
{
    match score::score(exchange::profile(n, jobs), exchange::as_periods(periods)) {
        Ok(s) => {
            answer[0] = u64::from(s.need.whole.0);
            answer[1] = u64::from(s.need.remainder.0);
            answer[2] = s.loss;
            0
        }
        Err(refusal) => exchange::result(Err(refusal)),
    }
}

// The best periods for a budget.
pub fn charopleth_choose(n: u32, jobs: &[u32; 40], budget: u32, answer: &mut [u64; 11]) -> u64
    ensures { LeavesForC (Chosen (profile_in n jobs.now) (pages_per_hour budget)) (λ a. answer_of a.need a.loss a.periods) answer.old result answer.new }
{
    match choose::choose(exchange::profile(n, jobs), PagesPerHour(budget)) {
        Ok(c) => {
            exchange_put::put_answer(c.need, c.loss, c.periods, answer);
            0
        }
        Err(refusal) => exchange::result(Err(refusal)),
    }
}

// The rows of all zones to the front of a lent room; the count of rows.
pub fn charopleth_zones(n: u32, jobs: &[u32; 40], room: &mut [u8]) -> u64
    ensures { CountsForC (λ a. Listed (profile_in n jobs.now) room.old a room.new) result }
{
    exchange::counted(zones::list_zones(exchange::profile(n, jobs), room))
}

// The rows of the budget table to the front of a lent room; the count of rows.
pub fn charopleth_table(n: u32, jobs: &[u32; 40], room: &mut [u8]) -> u64
    ensures { CountsForC (λ a. Built (profile_in n jobs.now) room.old a room.new) result }
{
    exchange::counted(table::build_table(exchange::profile(n, jobs), room))
}

// The number, counted from 1, of the row of a lent table that answers a budget.
pub fn charopleth_lookup(n: u32, jobs: &[u32; 40], table: &[u8], budget: u32) -> u64
    ensures { CountsForC (Locates (profile_in n jobs.now) table.now (pages_per_hour budget)) result }
{
    exchange::counted(table_lookup::locate(exchange::profile(n, jobs), table, PagesPerHour(budget)))
}
