// A profile's bytes, written.
//
// specs/Writing.antt says what writing may answer and leave in a lent buffer. Nothing is assumed, and no public function
// has a `requires`. proofs/RoundTrip.antt says that what was written reads back, and what was read is written back.
#![tactic(auto)]

ghost use Rattle.std.specs.Prelude.{◌≡◌, ◌++◌, ◌≤◌, length, drop};
ghost use Rattle.model.specs.Valid.{Valid, ValidJob};
ghost use Rattle.codec.specs.Packing.{pack};
ghost use Rattle.codec.specs.Layout.{job_widths, profile_length, fields_of, profile_bytes};
ghost use Rattle.profile_write.specs.Writing.{Writes};

use model::{Job, Profile, Refusal};

// Writes a profile's bytes to the front of `out`, or refuses: the profile's own refusal, then 11 with the bytes needed.
#[tactic(auto, using(model::proofs::Validity::judged_valid), unfolding(model::specs::Model::or_else, model::specs::Model::if_sound))]
pub fn write_profile(p: Profile, out: &mut [u8]) -> Result<u64, Refusal>
    ensures { Writes p out.old result out.new }
{
    let Err(refusal) = profile_judge::judge(p) else {
        return write_sound(p, out);
    };
    Err(refusal)
}

// The same for a sound profile.
#[tactic(auto, using(model::proofs::Validity::valid_sound, crate::proofs::Records::length_profile_bytes), unfolding(model::specs::Model::or_else, model::specs::Model::refuse_if, model::specs::Model::if_sound))]
fn write_sound(p: Profile, out: &mut [u8]) -> Result<u64, Refusal>
    requires { Valid p }
    ensures { Writes p out.old result out.new }
{
    let size = 1 + 8 * (p.n as usize);
    if out.len() < size {
        return Err(Refusal::Room(size as u64));
    }
    fill(p, out);
    Ok(size as u64)
}

// A valid profile's bytes to the front of `out`, which has room for them.
#[tactic(auto, using(model::proofs::Validity::job_valid_at, crate::proofs::Records::nothing_filled, crate::proofs::Records::one_filled, crate::proofs::Records::all_filled))]
fn fill(p: Profile, out: &mut [u8])
    requires { Valid p × (profile_length p.n ≤ length out.old) }
    ensures { out.new ≡ profile_bytes p ++ drop (profile_length p.n) out.old }
{
    let n = p.n as usize;
    out[0] = (16 + n) as u8;
    for k in 0..n {
        codec::put_word(out, 1 + 8 * k, pack_record(p.jobs[k]));
    }
}

// The record of a valid job: its fields in the order of their widths, the spare bits zero.
fn pack_record(j: Job) -> u64
    requires { ValidJob j }
    ensures { result ≡ pack job_widths (fields_of j) }
{
    codec::pack_fields([j.lo.0, j.hi.0, j.data, j.metadata, j.stiffness, 0])
}
