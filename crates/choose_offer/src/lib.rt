// The best plan that a walk has found so far: which plans cannot take its place, and how another one does.
//
// specs/Found.antt says what is kept, and by which update, specs/Plan.antt how clauses see it, specs/Laws.antt that a
// walk may keep it. Nothing is assumed.
#![tactic(auto)]

ghost use Rattle.std.specs.Prelude.{◌≡◌, ◌≤◌, length};
ghost use Rattle.model.specs.Model.{seconds, padded};
ghost use Rattle.choose_offer.specs.Found.{nothing, beats, pick};
ghost use Rattle.choose_offer.specs.Plan.{found_in};
ghost use Rattle.choose_offer.specs.Laws.{AnyFound, AnySeconds, pick_absorbs};

use model::{ExactNeed, PagesPerHour, Seconds};
use std::marker::Model;
use walk::{Keep, KeepWhere};

// A whole plan: its need rounded up, its loss, and its periods.
#[derive(Clone, Copy)]
pub struct Plan {
    need: PagesPerHour,
    loss: u64,
    // The first n of these, and zeros.
    n: usize,
    periods: [Seconds; 8],
}

impl Model for Plan {
    ghost use Rattle.std.specs.Prelude.{◌≡◌, ◌≤◌, length, take};
    ghost use Rattle.std.proofs.Common.{ap₂, sym};
    ghost use Rattle.model.specs.Model.{seconds, padded};
    ghost use Rattle.choose_offer.specs.Plan.{KeptPlan, kept_length};

    ghost Value = { KeptPlan };

    ghost view = { λ p. record { need = p.need; loss = p.loss; periods = take p.n p.periods } };

    ghost invariant = { λ p. (p.n ≤ 8) × (p.periods ≡ padded (seconds 0) (take p.n p.periods)) };

    ghost inverse = { λ d. record { need = d.need; loss = d.loss; n = length d.periods; periods = padded (seconds 0) d.periods } };

    ghost inverse_ok = { λ a h. ap₂ (λ n ps. record { need = a.need; loss = a.loss; n = n; periods = ps }) (kept_length a.n a.periods h.0 h.1) (sym h.1) };
}

impl Plan {
    #[tactic(auto, using(crate::proofs::Kept::kept_padded))]
    fn new(need: PagesPerHour, loss: u64, periods: &[Seconds]) -> Plan
        requires { length periods.now ≤ 8 }
        ensures { result ≡ record { need = need; loss = loss; periods = periods.now } }
    {
        let n = periods.len();
        let mut kept = [Seconds(0); 8];
        kept[..n].copy_from_slice(periods);
        Plan {
            need,
            loss,
            n,
            periods: kept,
        }
    }

    // The need, rounded up.
    pub fn need(&self) -> PagesPerHour
        ensures { result ≡ self.now.need }
    {
        self.need
    }

    pub fn loss(&self) -> u64
        ensures { result ≡ self.now.loss }
    {
        self.loss
    }

    pub fn periods(&self) -> &[Seconds]
        ensures { result.now ≡ self.now.periods }
    {
        &self.periods[..self.n]
    }

    // The periods, and zeros behind them.
    pub fn padded(&self) -> [Seconds; 8]
        ensures { result ≡ padded (seconds 0) self.now.periods }
    {
        self.periods
    }
}

// The best plan found so far, or none yet.
#[derive(Drop)]
pub struct Best {
    plan: Option<Plan>,
}

impl Model for Best {
    ghost use Rattle.choose_offer.specs.Found.{Found};
    ghost use Rattle.choose_offer.specs.Plan.{found_in};

    ghost Value = { Found };

    ghost view = { λ b. found_in b.plan };
}

impl Best {
    // Nothing is found yet.
    pub fn new() -> Best
        ensures { result ≡ nothing }
    {
        Best { plan: None }
    }

    pub fn plan(&self) -> Option<Plan>
        ensures { found_in result ≡ self.now }
    {
        self.plan
    }

    // Whether less is lost, or as much and less needed, than by the best.
    #[tactic(auto, unfolding(crate::specs::Found::beats))]
    fn is_beaten_by(&self, need: PagesPerHour, loss: u64) -> bool
        ensures { result ≡ beats need.0 loss self.now }
    {
        let Some(best) = &self.plan else {
            return true;
        };
        (loss, need) < (best.loss, best.need)
    }
}

// A walk keeps the best that fits its budget.
impl KeepWhere for Best {
    ghost Good = { AnyFound };

    ghost Keepable = { AnySeconds };

    ghost update = { λ budget. pick budget.0 };

    ghost absorbs = { λ budget. pick_absorbs budget.0 };

    ghost keeps_periods = { λ t is. tt };

    #[tactic(auto, using(crate::proofs::Updates::kept_at_floors))]
    fn is_done(&self, floor: u64) -> bool {
        self.plan.is_some_and(|best| best.loss < floor)
    }

    #[tactic(auto, using(crate::proofs::Updates::kept_at_floors))]
    fn could_take(&self, budget: PagesPerHour, need_floor: PagesPerHour, floor: u64) -> bool {
        need_floor <= budget && self.is_beaten_by(need_floor, floor)
    }

    #[tactic(auto, unfolding(crate::specs::Found::pick))]
    fn offer(&mut self, budget: PagesPerHour, need: ExactNeed, loss: u64, periods: &[Seconds]) {
        let rounded = step::rounded_up(need);
        if rounded <= budget && self.is_beaten_by(rounded, loss) {
            self.plan = Some(Plan::new(rounded, loss, periods));
        }
    }
}

// The same, for a walk whose periods lie within the hour.
impl Keep for Best {
    ghost Good = { AnyFound };

    ghost update = { λ budget. pick budget.0 };

    ghost absorbs = { λ budget. pick_absorbs budget.0 };

    fn is_done(&self, floor: u64) -> bool {
        KeepWhere::is_done(self, floor)
    }

    fn could_take(&self, budget: PagesPerHour, need_floor: PagesPerHour, floor: u64) -> bool {
        KeepWhere::could_take(self, budget, need_floor, floor)
    }

    fn offer(&mut self, budget: PagesPerHour, need: ExactNeed, loss: u64, periods: &[Seconds]) {
        KeepWhere::offer(self, budget, need, loss, periods);
    }
}
