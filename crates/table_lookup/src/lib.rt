// Looking a budget up in a table: the row that answers it, as the caller's own bytes, or why there is none.
//
// specs/Lookup.antt says what is answered; a table's rows stand in crate table_row, and when they are well formed in crate
// table_check. specs/AsChosen.antt serves theorems; no contract cites it.
// Nothing is assumed, and no public function has a `requires`.
#![tactic(auto)]

ghost use Rattle.std.specs.Prelude.{ℕ};
ghost use Rattle.model.specs.Valid.{Valid};
ghost use Rattle.table_lookup.specs.Lookup.{Answers, Locates, JudgesLookup, LooksUp};

use model::{PagesPerHour, Profile, ROW_SIZE, Refusal, Verdict};

// The row that answers a budget: its bytes where they lie in the caller's table; an empty part on a refusal.
#[tactic(auto, using(crate::proofs::Handed::none_handed, crate::proofs::Handed::row_within, crate::proofs::OneOutcome::sound_number, crate::proofs::Handed::row_handed))]
pub fn lookup<'a>(p: Profile, table: &'a [u8], budget: PagesPerHour) -> &'a [u8]
    ensures { LooksUp p table.now table.entry.ref_ptr budget result.now result.ref_ptr }
{
    let Ok(row) = locate(p, table, budget) else {
        return &table[0..0];
    };
    let end = ROW_SIZE * (row as usize);
    &table[end - ROW_SIZE..end]
}

// The number of that row, counted from 1.
#[tactic(auto, using(crate::proofs::OneOutcome::refused_located, crate::proofs::OneOutcome::some_answers, crate::proofs::OneOutcome::row_located))]
pub fn locate(p: Profile, table: &[u8], budget: PagesPerHour) -> Result<u64, Refusal>
    ensures { Locates p table.now budget result }
{
    judge_lookup(p, table, budget)?;
    let row = last_within(table, budget) + 1;
    Ok(row as u64)
}

// The verdict by itself: sound where a row answers.
#[tactic(auto, using(model::proofs::Validity::judged_valid, crate::proofs::Judged::refused_judged))]
pub fn judge_lookup(p: Profile, table: &[u8], budget: PagesPerHour) -> Verdict
    ensures { JudgesLookup p table.now budget result }
{
    let Err(refusal) = profile_judge::judge(p) else {
        return judge_sound(p, table, budget);
    };
    Err(refusal)
}

// The same for a sound profile.
#[tactic(auto, using(crate::proofs::Judged::length_judged, crate::proofs::Judged::row_judged, crate::proofs::Judged::budget_judged, crate::proofs::Judged::sound_judged))]
fn judge_sound(p: Profile, table: &[u8], budget: PagesPerHour) -> Verdict
    requires { Valid p }
    ensures { JudgesLookup p table.now budget result }
{
    if table.is_empty() || table.len() % ROW_SIZE != 0 {
        return Err(Refusal::Row(0));
    }
    if let Some(bad) = table_check::first_bad_row(p, table) {
        return Err(Refusal::Row(bad as u64));
    }
    let start = table_row::start_at(table, 0);
    if budget < start {
        return Err(Refusal::Budget(start));
    }
    Ok(())
}

// The last row whose start is at most the budget, counted from 0: the first where no later one is, since there is one.
#[tactic(auto, using(crate::proofs::LastWithin::none_above, crate::proofs::LastWithin::one_above, crate::proofs::LastWithin::last_above, crate::proofs::LastWithin::first_left))]
fn last_within(table: &[u8], budget: PagesPerHour) -> usize
    requires { (k : ℕ) × Answers table.now budget k }
    ensures { Answers table.now budget result }
{
    for k in (1..table.len() / ROW_SIZE).rev() {
        if table_row::start_at(table, k) <= budget {
            return k;
        }
    }
    0
}
