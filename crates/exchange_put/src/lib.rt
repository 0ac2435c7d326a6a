// Profiles and answers stored as numbers in the arrays that C lends.
//
// Which numbers they are is said in specs/Numbers.antt of exchange. These functions serve the planner's functions for C, which
// meet what is required. Nothing is assumed.
#![tactic(auto)]

ghost use Rattle.std.specs.Prelude.{◌≡◌, ◌<◌};
ghost use Rattle.std.proofs.lemmas.List.Edits.{sets};
ghost use Rattle.exchange.specs.Numbers.{job_numbers, numbers_of, answer_of};

use model::{ExactNeed, Job, Profile, Seconds};

// n and eight jobs into 41 numbers.
pub fn put_values(p: Profile, values: &mut [u32; 41])
    ensures { values.new ≡ sets values.old 0 (numbers_of p) }
{
    values[0] = p.n;
    for i in 0..8 {
        put_job(p.jobs[i], values, 1 + 5 * i);
    }
}

// A job's five numbers from `at` on.
pub fn put_job(j: Job, values: &mut [u32; 41], at: usize)
    requires { at < 37 }
    ensures { values.new ≡ sets values.old at (job_numbers j) }
{
    values[at] = j.lo.0;
    values[at + 1] = j.hi.0;
    values[at + 2] = j.data;
    values[at + 3] = j.metadata;
    values[at + 4] = j.stiffness;
}

// Whole pages and remainder of a need, loss and eight periods into eleven numbers.
pub fn put_answer(need: ExactNeed, loss: u64, periods: [Seconds; 8], answer: &mut [u64; 11])
    ensures { answer.new ≡ sets answer.old 0 (answer_of need loss periods) }
{
    answer[0] = u64::from(need.whole.0);
    answer[1] = u64::from(need.remainder.0);
    answer[2] = loss;
    for k in 0..8 {
        answer[3 + k] = u64::from(periods[k]);
    }
}
