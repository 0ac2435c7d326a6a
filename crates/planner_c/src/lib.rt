// The planner for C: the functions that include/charopleth.h declares, each a call of the planner's own under the same contract.
//
// A static library gives nothing to other crates, so the functions are made and their contracts read in crate `planner`. Nothing is
// assumed, and no function has a `requires`.
#![tactic(auto)]

ghost use Rattle.model.specs.Model.{pages_per_hour};
ghost use Rattle.profile_read.specs.Reading.{Reads};
ghost use Rattle.profile_write.specs.Writing.{Writes};
ghost use Rattle.score.specs.Scoring.{Scores};
ghost use Rattle.choose.specs.Choice.{Chosen};
ghost use Rattle.zones.specs.Zones.{Listed};
ghost use Rattle.table.specs.Table.{Built};
ghost use Rattle.table_lookup.specs.Lookup.{Locates};
ghost use Rattle.exchange.specs.Numbers.{profile_in, numbers_of, eight_periods_in, score_of, answer_of};
ghost use Rattle.planner.specs.ForC.{CountsForC, LeavesForC};

// The values that a profile's bytes stand for, into 41 numbers.
#[unsafe(no_mangle)]
pub extern "C" fn charopleth_read(bytes: &[u8], values: &mut [u32; 41]) -> u64
    ensures { LeavesForC (Reads bytes.now) numbers_of values.old result values.new }
{
    planner::charopleth_read(bytes, values)
}

// A profile's bytes to the front of a lent room; the count of bytes.
#[unsafe(no_mangle)]
pub extern "C" fn charopleth_write(n: u32, jobs: &[u32; 40], room: &mut [u8]) -> u64
    ensures { CountsForC (λ a. Writes (profile_in n jobs.now) room.old a room.new) result }
{
    planner::charopleth_write(n, jobs, room)
}

// The need of given periods, whole pages and remainder, and their loss, into three numbers.
#[unsafe(no_mangle)]
pub extern "C" fn charopleth_score(
    n: u32,
    jobs: &[u32; 40],
    periods: &[u32; 8],
    answer: &mut [u64; 3],
) -> u64
    ensures { LeavesForC (Scores (profile_in n jobs.now) (eight_periods_in periods.now)) (λ a. score_of a.need a.loss) answer.old result answer.new }
{
    planner::charopleth_score(n, jobs, periods, answer)
}

// The best periods for a budget.
#[unsafe(no_mangle)]
pub extern "C" fn charopleth_choose(
    n: u32,
    jobs: &[u32; 40],
    budget: u32,
    answer: &mut [u64; 11],
) -> u64
    ensures { LeavesForC (Chosen (profile_in n jobs.now) (pages_per_hour budget)) (λ a. answer_of a.need a.loss a.periods) answer.old result answer.new }
{
    planner::charopleth_choose(n, jobs, budget, answer)
}

// The rows of all zones to the front of a lent room; the count of rows.
#[unsafe(no_mangle)]
pub extern "C" fn charopleth_zones(n: u32, jobs: &[u32; 40], room: &mut [u8]) -> u64
    ensures { CountsForC (λ a. Listed (profile_in n jobs.now) room.old a room.new) result }
{
    planner::charopleth_zones(n, jobs, room)
}

// The rows of the budget table to the front of a lent room; the count of rows.
#[unsafe(no_mangle)]
pub extern "C" fn charopleth_table(n: u32, jobs: &[u32; 40], room: &mut [u8]) -> u64
    ensures { CountsForC (λ a. Built (profile_in n jobs.now) room.old a room.new) result }
{
    planner::charopleth_table(n, jobs, room)
}

// The number, counted from 1, of the row of a lent table that answers a budget.
#[unsafe(no_mangle)]
pub extern "C" fn charopleth_lookup(n: u32, jobs: &[u32; 40], table: &[u8], budget: u32) -> u64
    ensures { CountsForC (Locates (profile_in n jobs.now) table.now (pages_per_hour budget)) result }
{
    planner::charopleth_lookup(n, jobs, table, budget)
}
