// Scoring given periods: what they need and what they lose, or why they are refused.
//
// specs/Scoring.antt says what is answered, with the model's need and loss; crate step says what each job adds to them.
// Nothing is assumed, and no public function has a `requires`.
#![tactic(auto)]

ghost use Rattle.model.specs.Model.{jobs_of, periods_of};
ghost use Rattle.model.specs.Valid.{Valid};
ghost use Rattle.score.specs.Scoring.{Scoring, Scores};

use model::{ExactNeed, Profile, Refusal, Seconds};

// What scoring answers: need, without rounding, and loss.
#[derive(Clone, Copy, Debug, PartialEq, Eq)]
pub struct Scored {
    pub need: ExactNeed,
    pub loss: u64,
}

// The need and the loss of the first n of eight periods, or why they are refused: the profile's own refusal, then 13.
#[tactic(auto, using(model::proofs::Validity::judged_valid))]
pub fn score(p: Profile, periods: [Seconds; 8]) -> Result<Scored, Refusal>
    ensures { Scores p periods result }
{
    let Err(refusal) = profile_judge::judge(p) else {
        return reckon(p, periods);
    };
    Err(refusal)
}

// 13 for the first job whose period is not permitted, else need and loss: `before` is the last of the periods so far; in that
// time their jobs have `written` so many pages, and they have `lost` so much.
#[tactic(auto, using(model::proofs::Validity::job_valid_at, model::proofs::Allowing::allowed, step::proofs::Bounds::load_bound, step::proofs::Along::along_fits, crate::proofs::Turns::all_reckoned))]
fn reckon(p: Profile, periods: [Seconds; 8]) -> Result<Scored, Refusal>
    requires { Valid p }
    ensures { Scoring (jobs_of p) (periods_of p periods) result }
{
    let n = p.n as usize;
    let loads = step::loads_of(p);
    let mut before = Seconds(1);
    let mut written: u64 = 0;
    let mut lost: u64 = 0;
    for k in 0..n {
        let j = p.jobs[k];
        let t = periods[k];
        if !model::allowed(j, before, t) {
            return Err(Refusal::Periods((k + 1) as u32));
        }
        let fastest = step::fastest_rate(j);
        written = step::carry(written, before, t, loads[k]);
        lost += step::loss_with(j, fastest, t);
        before = t;
    }
    Ok(Scored {
        need: step::exact_need(written, before),
        loss: lost,
    })
}
