// A profile's bytes, read.
//
// specs/Reading.antt says what bytes stand for and what reading may answer; specs/Fields.antt serves the private functions
// alone. Nothing is assumed, and no public function has a `requires`.
#![tactic(auto)]

ghost use Rattle.std.specs.Prelude.{◌≡◌, ◌+◌, ◌≤◌, ◌<◌, length, drop};
ghost use Rattle.model.specs.Model.{no_job, first_refused};
ghost use Rattle.codec.specs.Packing.{unpack};
ghost use Rattle.codec.specs.Layout.{job_widths, profile_length};
ghost use Rattle.profile_read.specs.Reading.{count_of, records_in, judge_record, judge_header, Reads, no_profile};
ghost use Rattle.profile_read.specs.Fields.{record_of, fields_at, judge_cut, profile_of};

use model::{Job, Profile, Refusal, Seconds, Verdict};

// A job's record as its bits have it.
#[derive(Clone, Copy)]
struct Record {
    job: Job,
    spare: u32,
}

// The values that bytes stand for, or why they are refused: 1 to 4 for the whole, else 5, 6 or 7 for the first bad job.
#[tactic(auto, using(crate::proofs::Headers::some_byte, crate::proofs::Headers::eight_jobs, crate::proofs::Headers::all_records), unfolding(crate::specs::Reading::verdict_of_bytes, model::specs::Model::or_else))]
pub fn read_profile(bytes: &[u8]) -> Result<Profile, Refusal>
    ensures { Reads bytes.now result }
{
    judge_header(bytes)?;
    let n = job_count(bytes);
    judge_records(bytes, n)?;
    Ok(values(bytes, n))
}

// 1, 2, 3, 4: the bytes as a whole.
#[tactic(auto, using(crate::proofs::Records::edition_is), unfolding(crate::specs::Reading::judge_header, model::specs::Model::refuse_if))]
fn judge_header(bytes: &[u8]) -> Verdict
    ensures { result ≡ judge_header bytes.now }
{
    if bytes.is_empty() {
        return Err(Refusal::NoBytes);
    }
    if bytes[0] / 16 != 1 {
        return Err(Refusal::Edition);
    }
    let n = job_count(bytes);
    if n == 0 || 8 < n {
        return Err(Refusal::JobCount);
    }
    if bytes.len() != 1 + 8 * n {
        return Err(Refusal::Length);
    }
    Ok(())
}

// n, which the first byte holds below the edition.
#[tactic(auto, using(crate::proofs::Records::count_is))]
fn job_count(bytes: &[u8]) -> usize
    requires { 1 ≤ length bytes.now }
    ensures { (result ≡ count_of bytes.now) × (result < 16) }
{
    usize::from(bytes[0] % 16)
}

// The first refusal among n records.
#[tactic(auto, using(crate::proofs::Records::one_judged, crate::proofs::Records::all_judged), unfolding(model::specs::Model::or_else, model::specs::Model::refuse_if))]
fn judge_records(bytes: &[u8], n: usize) -> Verdict
    requires { (n ≤ 8) × (profile_length n ≤ length bytes.now) }
    ensures { result ≡ first_refused judge_record 0 (records_in n (drop 1 bytes.now)) }
{
    for k in 0..n {
        judge_record(record_at(bytes, k), (k + 1) as u32)?;
    }
    Ok(())
}

// 5, 6 and 7 for the record numbered k.
#[tactic(auto, unfolding(model::specs::Model::or_else, model::specs::Model::refuse_if))]
fn judge_record(r: Record, k: u32) -> Verdict
    ensures { result ≡ judge_cut r k }
{
    profile_judge::judge_interval_and_stiffness(r.job, k)?;
    if r.spare != 0 {
        return Err(Refusal::Spare(k));
    }
    Ok(())
}

// The values of n records, with zeros beyond them.
#[tactic(auto, using(crate::proofs::Records::job_read, crate::proofs::Records::eight_read), unfolding(crate::specs::Reading::records_in))]
fn values(bytes: &[u8], n: usize) -> Profile
    requires { (n ≤ 8) × (profile_length n ≤ length bytes.now) }
    ensures { result ≡ profile_of bytes.now n }
{
    let mut jobs = no_profile().jobs;
    for k in 0..n {
        jobs[k] = record_at(bytes, k).job;
    }
    Profile { n: n as u32, jobs }
}

// A profile of zeros: what a profile has beyond its last job.
pub fn no_profile() -> Profile
    ensures { result ≡ no_profile }
{
    Profile {
        n: 0,
        jobs: [Job::default(); 8],
    }
}

// The record of the job at place k, counted from 0.
#[tactic(auto, unfolding(codec::specs::Packing::recut))]
fn record_at(bytes: &[u8], k: usize) -> Record
    requires { profile_length k + 8 ≤ length bytes.now }
    ensures { result ≡ record_of (fields_at bytes.now k) }
{
    cut_record(codec::word_at(bytes, 1 + 8 * k))
}

// The record in a word: its fields in the order of their widths.
fn cut_record(x: u64) -> Record
    ensures { result ≡ record_of (unpack job_widths x) }
{
    let fields = codec::unpack_fields(x);
    Record {
        job: Job {
            lo: Seconds(fields[0]),
            hi: Seconds(fields[1]),
            data: fields[2],
            metadata: fields[3],
            stiffness: fields[4],
        },
        spare: fields[5],
    }
}
