// A staircase of answers: at most 256 plans in rising loss and falling need, and how one more enters.
//
// specs/Stairs.antt of table_stairs says what a staircase keeps and how a plan enters it. These functions serve other crates of the
// planner, and their callers meet what is required. Nothing is assumed.
#![tactic(auto)]

ghost use Rattle.std.specs.Prelude.{◌≡◌, ◌&&◌, not, ◌≤◌, ◌<◌, length, leb, ltb};
ghost use Rattle.walk.specs.Laws.{IsPeriod};
ghost use Rattle.table_stairs.specs.Stairs.{most, no_bound, no_stairs, covered, at_most, enter};
ghost use Rattle.table_stairs.specs.Ordered.{Staircase, Ordered, replaced};
ghost use Rattle.table_stairs.proofs.Ordered.{stairs_absorb};

use model::{ExactNeed, PagesPerHour, Seconds};
use std::marker::Model;
use table_stairs::Stair;
use walk::{Keep, KeepWhere};

// The greatest number of rows.
const MOST: usize = 256;

// More than any loss. A bound, and no mark for none: every loss lies below it by the one comparison that a turn makes.
const NO_BOUND: u64 = 0xffff_ffff_ffff_ffff;

// At most 256 plans in rising loss and falling need, and the bound on the loss of what may still enter.
#[derive(Drop)]
pub struct Stairs {
    rows: [Stair; MOST],
    count: usize,
    bound: u64,
}

impl Model for Stairs {
    ghost use Rattle.table_stairs.specs.Stairs.{most, Stairs};

    ghost Value = { Stairs };

    ghost use Rattle.table_stairs.specs.Ordered.{stairs_of, Standing};

    ghost view = { λ s. stairs_of s.rows s.count s.bound };

    ghost invariant = { λ s. Standing most s.rows s.count s.bound };
}

impl Stairs {
    // No plan stands, and any may enter.
    pub fn new() -> Stairs
        ensures { result ≡ no_stairs }
    {
        Stairs {
            rows: [Stair::new(PagesPerHour(0), 0, &[]); MOST],
            count: 0,
            bound: NO_BOUND,
        }
    }

    // All plans leave.
    pub fn clear(&mut self)
        ensures { self.new ≡ no_stairs }
    {
        self.count = 0;
        self.bound = NO_BOUND;
    }

    // The plans that stand, the least loss first.
    pub fn rows(&self) -> &[Stair]
        ensures rows { result.now ≡ self.now.rows }
        ensures few { length result.now ≤ most }
        ensures in_order { Staircase result.now }
    {
        &self.rows[..self.count]
    }

    // Whether a plan enters.
    fn takes(&self, budget: PagesPerHour, need: PagesPerHour, loss: u64) -> bool
        requires { loss < no_bound }
        ensures { result ≡ (leb need.0 budget.0 && (ltb loss self.now.bound && not (covered need.0 loss self.now.rows))) }
    {
        need <= budget && loss < self.bound && !table_stairs::covers(self.rows(), need, loss)
    }

    // A plan takes the place of the rows from i to j. Of too many rows the last one leaves, and its loss becomes the bound.
    fn put(&mut self, i: usize, j: usize, row: Stair)
        requires order { i ≤ j }
        requires upto { j ≤ length self.old.rows }
        requires in_order { Ordered (at_most most (replaced i j row self.old.rows) self.old.bound) }
        ensures { self.new ≡ at_most most (replaced i j row self.old.rows) self.old.bound }
    {
        let behind = self.count - j;
        let count = i + 1 + behind;
        if count <= MOST {
            table_stairs::replace(&mut self.rows, i, j, self.count, row);
            self.count = count;
        } else if i < MOST {
            self.bound = self.rows[MOST - 1].loss();
            table_stairs::replace(&mut self.rows, i, j, MOST - 1, row);
        } else {
            self.bound = row.loss();
        }
    }
}

impl KeepWhere for Stairs {
    ghost Good = { Ordered };

    ghost Keepable = { IsPeriod };

    ghost update = { λ budget. enter most budget.0 };

    ghost absorbs = { λ budget. stairs_absorb budget.0 };

    ghost keeps_periods = { λ t is. is };

    // Whether no plan that loses at least `floor` enters.
    fn is_done(&self, floor: u64) -> bool {
        self.bound <= floor
    }

    // Whether a plan of at least this need and this loss could enter.
    fn could_take(&self, budget: PagesPerHour, need_floor: PagesPerHour, floor: u64) -> bool {
        need_floor <= budget && !table_stairs::covers(self.rows(), need_floor, floor)
    }

    // One whole plan: it enters if it fits the budget, loses less than the bound, and no row covers it.
    fn offer(&mut self, budget: PagesPerHour, need: ExactNeed, loss: u64, periods: &[Seconds]) {
        let start = step::rounded_up(need);
        if self.takes(budget, start, loss) {
            let i = table_stairs::losing_less(self.rows(), loss);
            let j = table_stairs::needing_less(self.rows(), i, start);
            self.put(i, j, Stair::new(start, loss, periods));
        }
    }
}

// The same, for a walk whose periods lie within the hour.
impl Keep for Stairs {
    ghost Good = { Ordered };

    ghost update = { λ budget. enter most budget.0 };

    ghost absorbs = { λ budget. stairs_absorb budget.0 };

    fn is_done(&self, floor: u64) -> bool {
        KeepWhere::is_done(self, floor)
    }

    fn could_take(&self, budget: PagesPerHour, need_floor: PagesPerHour, floor: u64) -> bool {
        KeepWhere::could_take(self, budget, need_floor, floor)
    }

    fn offer(&mut self, budget: PagesPerHour, need: ExactNeed, loss: u64, periods: &[Seconds]) {
        KeepWhere::offer(self, budget, need, loss, periods);
    }
}
