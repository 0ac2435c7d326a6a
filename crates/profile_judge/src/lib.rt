// The verdict on a profile that is given as values, job by job.
//
// What is judged, and in which order, is said in specs/Model.antt of model. Nothing is assumed, and no function has a
// `requires`.
#![tactic(auto)]

ghost use Rattle.std.specs.Prelude.{◌≡◌};
ghost use Rattle.model.specs.Model.{bad_interval, bad_stiffness, judge_interval_and_stiffness, judge_job, verdict_of};

use model::{Job, Profile, Refusal, Verdict};

// The verdict on a profile given as values: 3, else 5, 6 or 8 for the first bad job. Entry points take it apart by `let .. else`, which
// the rules name for that place, where `?` would do.
#[tactic(auto, using(model::proofs::Verdicts::one_judged, model::proofs::Verdicts::all_judged, model::proofs::Verdicts::sound_passes), unfolding(model::specs::Model::verdict_of, model::specs::Model::refuse_if, model::specs::Model::or_else))]
pub fn judge(p: Profile) -> Verdict
    ensures { result ≡ verdict_of p }
{
    let n = p.n;
    if n == 0 || 8 < n {
        return Err(Refusal::JobCount);
    }
    for k in 0..n {
        judge_job(p.jobs[k as usize], k + 1)?;
    }
    Ok(())
}

// 5, 6 and 8 for the job numbered k.
#[tactic(auto, using(model::proofs::Verdicts::sound_passes), unfolding(model::specs::Model::judge_job, model::specs::Model::refuse_if, model::specs::Model::or_else))]
fn judge_job(j: Job, k: u32) -> Verdict
    ensures { result ≡ judge_job j k }
{
    judge_interval_and_stiffness(j, k)?;
    if 32767 < j.data || 32767 < j.metadata {
        return Err(Refusal::Pages(k));
    }
    Ok(())
}

// 5 and 6 for a job, whose number k, from 1, is the refusal's detail: what values and bytes are judged by alike.
#[tactic(auto, unfolding(model::specs::Model::judge_interval_and_stiffness, model::specs::Model::refuse_if))]
pub fn judge_interval_and_stiffness(j: Job, k: u32) -> Verdict
    ensures { result ≡ judge_interval_and_stiffness j k }
{
    let interval = bad_interval(j);
    let stiffness = bad_stiffness(j);
    if interval {
        return Err(Refusal::Interval(k));
    }
    if stiffness {
        return Err(Refusal::Stiffness(k));
    }
    Ok(())
}

// Whether an interval is none within the hour.
fn bad_interval(j: Job) -> bool
    ensures { result ≡ bad_interval j }
{
    j.lo.0 == 0 || j.hi < j.lo || 3600 < j.hi.0
}

// Whether a stiffness is outside 1 to 32.
fn bad_stiffness(j: Job) -> bool
    ensures { result ≡ bad_stiffness j }
{
    j.stiffness == 0 || 32 < j.stiffness
}
