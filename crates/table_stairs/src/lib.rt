// A stair, which is a plan that answers some budgets, and rows of them in rising loss and falling need: searched, and moved for
// one more.
//
// specs/Stairs.antt says what a staircase keeps and how a plan enters it, specs/Held.antt how a stair is held, specs/Ordered.antt
// how the rows stand. These functions serve other crates of the planner, and their callers meet what is required. Nothing is
// assumed.
#![tactic(auto)]

ghost use Rattle.std.specs.Prelude.{◌≡◌, ◌+◌, ◌-◌, ◌/◌, ◌≤◌, ◌<◌, length, take, drop};
ghost use Rattle.model.specs.Model.{seconds, padded};
ghost use Rattle.walk.specs.Laws.{WithinHour};
ghost use Rattle.table_stairs.specs.Stairs.{stair, no_bound, covered, losing_less, needing_less};
ghost use Rattle.table_stairs.specs.Held.{Written};
ghost use Rattle.table_stairs.specs.Ordered.{Staircase, replaced, PartsLoseLess};

use codec::RowWords;
use model::{PagesPerHour, Seconds};
use std::marker::Model;
use table_row::TableRow;

// A plan that stands: its need and its periods as a table row's two words, and its loss.
#[derive(Clone, Copy)]
pub struct Stair {
    words: RowWords,
    loss: u64,
}

impl Model for Stair {
    ghost use Rattle.table_stairs.specs.Stairs.{Stair, stair};

    ghost Value = { Stair };

    ghost use Rattle.table_stairs.specs.Held.{need_held, periods_held, words_for, Holds};

    ghost view = { λ a. stair (need_held a.words) a.loss (periods_held a.words) };

    ghost invariant = { λ a. Holds a.words };

    ghost inverse = { λ s. record { words = words_for s.its_need s.periods; loss = s.its_loss } };

    ghost inverse_ok = { λ a h i. record { words = h.words_are i; loss = a.loss } };
}

impl Stair {
    pub fn new(need: PagesPerHour, loss: u64, periods: &[Seconds]) -> Stair
        requires few { length periods.now ≤ 8 }
        requires within_hour { WithinHour periods.now }
        ensures { result ≡ stair need.0 loss periods.now }
    {
        let row = TableRow {
            start: need,
            periods: padded(periods),
        };
        Stair {
            words: row.words(),
            loss,
        }
    }

    pub fn need(&self) -> PagesPerHour
        ensures { result.0 ≡ self.now.its_need }
    {
        table_row::start_of(self.words)
    }

    pub fn loss(&self) -> u64
        ensures { result ≡ self.now.its_loss }
    {
        self.loss
    }

    // The two words of its table row.
    pub fn words(&self) -> RowWords
        ensures { Written self.now result }
    {
        self.words
    }
}

// Eight periods: these, and zeros behind them.
#[tactic(auto, using(crate::proofs::Held::padded_array))]
fn padded(periods: &[Seconds]) -> [Seconds; 8]
    requires { length periods.now ≤ 8 }
    ensures { result ≡ padded (seconds 0) periods.now }
{
    let mut eight = [Seconds(0); 8];
    eight[..periods.len()].copy_from_slice(periods);
    eight
}

// Rows are counted in blocks of so many, and a block in parts of so many.
const BLOCK: usize = 36;

const PART: usize = 6;

// Whether some row has at most this need and at most this loss: the last that loses no more needs least of those. Rows are a slice
// here, which can hold no fact of its own; `Stairs` of table_enter, which lends them, knows their order.
pub fn covers(rows: &[Stair], need: PagesPerHour, loss: u64) -> bool
    requires loss_lt_no_bound { loss < no_bound }
    requires in_order { Staircase rows.now }
    ensures { result ≡ covered need.0 loss rows.now }
{
    let k = losing_less(rows, loss + 1);
    k > 0 && rows[k - 1].need() <= need
}

// How many rows in front lose less than `loss`: first of the last rows of whole blocks, then of the last rows of whole parts of the
// block that is left, then within the part that is left. No branch depends on a loss, as each step of a search by halves would, and
// be foretold wrongly half the time.
pub fn losing_less(rows: &[Stair], loss: u64) -> usize
    requires in_order { Staircase rows.now }
    ensures upto { result ≤ length rows.now }
    ensures number { result ≡ length (losing_less loss rows.now) }
{
    let blocks = BLOCK * parts_losing_less(rows, BLOCK, loss);
    let block = one_part(&rows[blocks..], BLOCK);
    let parts = PART * parts_losing_less(block, PART, loss);
    let part = one_part(&block[parts..], PART);
    blocks + (parts + parts_losing_less(part, 1, loss))
}

// As many rows of these as a part has, or all where they are fewer.
fn one_part(rows: &[Stair], size: usize) -> &[Stair]
    ensures { result.now ≡ take size rows.now }
{
    &rows[..rows.len().min(size)]
}

// How many whole parts of so many rows have a last row that loses less than `loss`.
fn parts_losing_less(rows: &[Stair], size: usize, loss: u64) -> usize
    requires nonempty { 1 ≤ size }
    requires in_order { Staircase rows.now }
    ensures { PartsLoseLess rows.now size loss (length rows.now / size) result }
{
    let mut less: usize = 0;
    for x in 0..rows.len() / size {
        if rows[size * x + (size - 1)].loss() < loss {
            less += 1;
        }
    }
    less
}

// The first row from place i on that needs less.
pub fn needing_less(rows: &[Stair], i: usize, need: PagesPerHour) -> usize
    requires { i ≤ length rows.now }
    ensures from { i ≤ result }
    ensures upto { result ≤ length rows.now }
    ensures rest { drop result rows.now ≡ needing_less need.0 (drop i rows.now) }
{
    let behind = &rows[i..];
    match behind.iter().position(|row| row.need() < need) {
        Some(passed) => i + passed,
        None => rows.len(),
    }
}

// One row takes the place of those from i to j, and those behind, up to `end`, stand next to it.
pub fn replace(rows: &mut [Stair], i: usize, j: usize, end: usize, row: Stair)
    requires i_le_j { i ≤ j }
    requires j_le_end { j ≤ end }
    requires end_bound { end ≤ length rows.old }
    requires room { i + 1 + (end - j) ≤ length rows.old }
    ensures size { length rows.new ≡ length rows.old }
    ensures rows { take (i + 1 + (end - j)) rows.new ≡ replaced i j row (take end rows.old) }
{
    rows.copy_within(j..end, i + 1);
    rows[i] = row;
}
