// Fields of given widths in a word, words and rows of sixteen bytes in a lent buffer, and how a profile lies in bytes.
//
// Where a field of a job's record begins is said by `JOB_WIDTHS` alone. specs/Packing.antt says how fields are packed,
// specs/Layout.antt which fields a profile has, specs/Fit.antt what is asked of widths and fields, and specs/RowWords.antt
// what `put_row` and `get_row` promise. These functions serve other crates of the planner, and their callers meet what they
// require. Nothing is assumed.
#![tactic(auto)]

ghost use Rattle.std.specs.Prelude.{◌≡◌, ◌++◌, ◌+◌, ◌≤◌, ◌<◌, length, get_or, take, drop};
ghost use Rattle.codec.specs.Packing.{pack, unpack};
ghost use Rattle.codec.specs.Layout.{job_widths, byte_widths};
ghost use Rattle.codec.specs.Fit.{Within, FillsWord};
ghost use Rattle.codec.specs.RowWords.{row_bytes, with_row, words_at};

use model::ROW_SIZE;

// How many fields a job's record has.
pub const JOB_FIELDS: usize = 6;

// The widths in bits of a job record's fields, the most significant first: lo, hi, data, metadata, stiffness, spare.
const JOB_WIDTHS: [u64; JOB_FIELDS] = [12, 12, 15, 15, 6, 4];

// The bits of a word.
const WORD_BITS: u64 = 64;

// The fields of these widths in a word, taken off it one after the other: each is what stands above the bits after it.
pub fn unpack_widths<const N: usize>(widths: &[u64; N], word: u64) -> [u32; N]
    requires { FillsWord widths.now }
    ensures { result ≡ unpack widths.now word }
{
    let mut fields = [0; N];
    let mut left = word;
    let mut after = WORD_BITS;
    for k in 0..N {
        after -= widths[k];
        fields[k] = (left >> after) as u32;
        left %= 1 << after;
    }
    fields
}

// The word that has these fields at these widths: each is put below those before it.
pub fn pack_widths<const N: usize>(widths: &[u64; N], fields: [u32; N]) -> u64
    requires fill { FillsWord widths.now }
    requires fit { Within widths.now fields }
    ensures { result ≡ pack widths.now fields.entry }
{
    let mut word: u64 = 0;
    for (width, field) in widths.iter().zip(fields.iter()) {
        word = (word << *width) + u64::from(*field);
    }
    word
}

// The fields of a job's record in a word.
pub fn unpack_fields(word: u64) -> [u32; JOB_FIELDS]
    ensures { result ≡ unpack job_widths word }
{
    unpack_widths(&job_widths(), word)
}

// The word of the job's record that has these fields.
pub fn pack_fields(fields: [u32; JOB_FIELDS]) -> u64
    requires { Within job_widths fields }
    ensures { result ≡ pack job_widths fields }
{
    pack_widths(&job_widths(), fields)
}

// The widths of a job record's fields: the one place where the array meets the definition's list.
fn job_widths() -> [u64; JOB_FIELDS]
    ensures { result ≡ job_widths }
{
    JOB_WIDTHS
}

// A row of sixteen bytes as two words, the most significant first.
#[derive(Clone, Copy)]
pub struct RowWords {
    pub high: u64,
    pub low: u64,
}

// Makes the k-th row of sixteen bytes of `out`, counted from 0, hold two words; where `out` has no such row, nothing changes.
pub fn put_row(out: &mut [u8], k: usize, row: RowWords)
    ensures { out.new ≡ with_row out.old k (row_bytes row.high row.low) }
{
    if k < out.len() / ROW_SIZE {
        put_word(out, ROW_SIZE * k, row.high);
        put_word(out, ROW_SIZE * k + 8, row.low);
    }
}

// The two words of the k-th row of sixteen bytes, counted from 0; zeros where there is no such row.
pub fn get_row(bytes: &[u8], k: usize) -> RowWords
    ensures { result ≡ words_at bytes.now k }
{
    if k < bytes.len() / ROW_SIZE {
        RowWords {
            high: word_at(bytes, ROW_SIZE * k),
            low: word_at(bytes, ROW_SIZE * k + 8),
        }
    } else {
        RowWords { high: 0, low: 0 }
    }
}

// Eight bytes from `at` on as one number, the first the most significant.
#[tactic(auto, using(crate::proofs::Words::number_of_bytes))]
pub fn word_at(s: &[u8], at: usize) -> u64
    requires { at + 8 ≤ length s.now }
    ensures { result ≡ pack (byte_widths 8) (take 8 (drop at s.now)) }
{
    u64::from_be_bytes(*s[at..at + 8].first_chunk().unwrap())
}

// A number as eight bytes from `at` on, the first the most significant; all other bytes stay.
#[tactic(auto, using(crate::proofs::Words::word_put))]
pub fn put_word(out: &mut [u8], at: usize, word: u64)
    requires { at + 8 ≤ length out.old }
    ensures { out.new ≡ take at out.old ++ (unpack (byte_widths 8) word ++ drop (at + 8) out.old) }
{
    out[at..at + 8].copy_from_slice(&word.to_be_bytes());
}
