// Profiles and periods out of the numbers that C lends, and verdicts as the numbers that it gets.
//
// specs/Numbers.antt says which numbers stand for what, those that `exchange_put` stores among them. These functions serve the
// planner's functions for C, which meet what is required. Nothing is assumed.
#![tactic(auto)]

ghost use Rattle.std.specs.Prelude.{◌≡◌, ◌<◌};
ghost use Rattle.exchange.specs.Numbers.{result_of, counted_of, job_in, profile_in, eight_periods_in};

use model::{Job, Profile, Refusal, Seconds, Verdict};

// The greatest detail or count that is told: 48 bits hold no more.
const MOST_DETAIL: u64 = 0xffff_ffff_ffff;

// A profile from n and 40 numbers.
pub fn profile(n: u32, jobs: &[u32; 40]) -> Profile
    ensures { result ≡ profile_in n jobs.now }
{
    let mut eight = [Job::default(); 8];
    for k in 0..8 {
        eight[k] = job(jobs, 5 * k);
    }
    Profile { n, jobs: eight }
}

// The job whose five numbers stand from `at` on.
pub fn job(jobs: &[u32; 40], at: usize) -> Job
    requires { at < 36 }
    ensures { result ≡ job_in jobs.now at }
{
    Job {
        lo: Seconds(jobs[at]),
        hi: Seconds(jobs[at + 1]),
        data: jobs[at + 2],
        metadata: jobs[at + 3],
        stiffness: jobs[at + 4],
    }
}

// Eight numbers as periods.
pub fn as_periods(periods: &[u32; 8]) -> [Seconds; 8]
    ensures { result ≡ eight_periods_in periods.now }
{
    periods.map(Seconds)
}

// A count, or the refusal in its place, as one number.
#[tactic(auto, unfolding(crate::specs::Numbers::counted_of, crate::specs::Numbers::result_of))]
pub fn counted(c: Result<u64, Refusal>) -> u64
    ensures { result ≡ counted_of c }
{
    match c {
        Ok(count) => count.min(MOST_DETAIL),
        Err(refusal) => result(Err(refusal)),
    }
}

// A verdict as one number: the refusal's number above its detail.
#[tactic(auto, using(model::proofs::Verdicts::number_small), unfolding(crate::specs::Numbers::result_of))]
pub fn result(v: Verdict) -> u64
    ensures { result ≡ result_of v }
{
    u64::from(refusal::number(v)) * (MOST_DETAIL + 1) + refusal::detail(v).min(MOST_DETAIL)
}
