// What a caller is told of a verdict: the refusal's number and its detail.
//
// Which they are is said in specs/Model.antt of model. Nothing is assumed, and no function has a `requires`.
#![tactic(auto)]

ghost use Rattle.std.specs.Prelude.{◌≡◌};
ghost use Rattle.model.specs.Model.{number_of, detail_of};

use model::{Refusal, Verdict};

// The refusal's number, 0 where there is none.
pub fn number(v: Verdict) -> u32
    ensures { result ≡ number_of v }
{
    match v {
        Ok(()) => 0,
        Err(Refusal::NoBytes) => 1,
        Err(Refusal::Edition) => 2,
        Err(Refusal::JobCount) => 3,
        Err(Refusal::Length) => 4,
        Err(Refusal::Interval(_)) => 5,
        Err(Refusal::Stiffness(_)) => 6,
        Err(Refusal::Spare(_)) => 7,
        Err(Refusal::Pages(_)) => 8,
        Err(Refusal::NoPeriods) => 9,
        Err(Refusal::Budget(_)) => 10,
        Err(Refusal::Room(_)) => 11,
        Err(Refusal::Row(_)) => 12,
        Err(Refusal::Periods(_)) => 13,
    }
}

// The refusal's detail, 0 where it has none.
pub fn detail(v: Verdict) -> u64
    ensures { result ≡ detail_of v }
{
    match v {
        Err(Refusal::Interval(k) | Refusal::Stiffness(k) | Refusal::Spare(k) | Refusal::Pages(k)) =>
            { u64::from(k) }
        Err(Refusal::Budget(b)) => u64::from(b.0),
        Err(Refusal::Room(k) | Refusal::Row(k)) => k,
        Err(Refusal::Periods(k)) => u64::from(k),
        _ => 0,
    }
}
