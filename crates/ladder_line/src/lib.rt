// The text of one line that the ladder program prints, put into lent bytes: a refusal, the header, or a row.
//
// The text is 80 bytes with a place beside it: so `ladder_listing::line` is lent it, and nothing is allocated.
//
// specs/Lines.antt says which bytes a line has, and specs/Writing.antt what putting them does to a text. The functions serve
// `listing`, and their callers meet what they require. Nothing is assumed.
#![tactic(auto)]

ghost use Rattle.std.specs.Prelude.{◌+◌, ◌*◌, ◌≤◌, length};
ghost use Rattle.model.specs.Model.{seconds, entries};
ghost use Rattle.ladder_line.specs.Lines.{decimal, spaced, spaced_periods, refusal_line, header_line, row_line};
ghost use Rattle.ladder_line.specs.Writing.{Puts, Printable};

use model::{PagesPerHour, Seconds, Verdict};

// `refused NUMBER DETAIL`
#[tactic(auto, using(crate::proofs::Decimals::spaced_most))]
pub fn refusal_line(v: Verdict, text: &mut [u8; 80]) -> usize
    ensures { Puts text.old 0 (refusal_line v) result text.new }
{
    let number = u64::from(refusal::number(v));
    let detail = refusal::detail(v);
    let after_word = put(text, 0, b"refused");
    let after_number = put_spaced(text, after_word, number);
    let after_detail = put_spaced(text, after_number, detail);
    put(text, after_detail, b"\n")
}

// `jobs N rows R`
#[tactic(auto, using(crate::proofs::Decimals::spaced_most))]
pub fn header_line(n: u32, rows: u64, text: &mut [u8; 80]) -> usize
    ensures { Puts text.old 0 (header_line n rows) result text.new }
{
    let after_jobs = put(text, 0, b"jobs");
    let after_n = put_spaced(text, after_jobs, u64::from(n));
    let after_rows = put(text, after_n, b" rows");
    let after_count = put_spaced(text, after_rows, rows);
    put(text, after_count, b"\n")
}

// Start, loss and the first n of eight periods.
pub fn put_row(
    start: PagesPerHour,
    loss: u64,
    periods: [Seconds; 8],
    n: u32,
    text: &mut [u8; 80],
) -> usize
    requires { Printable periods n }
    ensures { Puts text.old 0 (row_line start loss (entries (seconds 0) periods 0 n)) result text.new }
{
    let after_start = put_number(text, 0, u64::from(start.0));
    let after_loss = put_spaced(text, after_start, loss);
    let after_periods = put_periods(text, after_loss, periods, n as usize);
    put(text, after_periods, b"\n")
}

// The first n of eight periods, a space before each.
fn put_periods(text: &mut [u8; 80], at: usize, periods: [Seconds; 8], n: usize) -> usize
    requires printable { Printable periods n }
    requires room { at + 5 * n ≤ 80 }
    ensures puts { Puts text.old at (spaced_periods (entries (seconds 0) periods 0 n)) result text.new }
    ensures within { result ≤ at + 5 * n }
{
    let mut end = at;
    for &t in &periods[..n] {
        end = put_spaced(text, end, u64::from(t));
    }
    end
}

// A space and a number in decimal.
#[tactic(auto, unfolding(crate::specs::Lines::spaced))]
fn put_spaced(text: &mut [u8; 80], at: usize, n: u64) -> usize
    requires { at + length (spaced n) ≤ 80 }
    ensures { Puts text.old at (spaced n) result text.new }
{
    let space = put(text, at, b" ");
    put_number(text, space, n)
}

// A number in decimal.
fn put_number(text: &mut [u8; 80], at: usize, n: u64) -> usize
    requires { at + length (decimal n) ≤ 80 }
    ensures { Puts text.old at (decimal n) result text.new }
{
    let mut digits = [0u8; 20];
    let count = io::decimal(n, &mut digits);
    put(text, at, &digits[..count])
}

// Some bytes from place `at` on; the place after them.
#[tactic(auto, using(crate::proofs::Putting::put_part))]
fn put(text: &mut [u8; 80], at: usize, bytes: &[u8]) -> usize
    requires { at + length bytes.now ≤ 80 }
    ensures { Puts text.old at bytes.now result text.new }
{
    let end = at + bytes.len();
    text[at..end].copy_from_slice(bytes);
    end
}
