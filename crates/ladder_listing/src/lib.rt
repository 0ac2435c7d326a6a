// The listing of a profile's budget table, line by line: what the ladder program prints.
//
// specs/Listing.antt says which line comes when and what the two operations answer; specs/Text.antt says what the whole
// text means, and proofs/ that the lines are that text. Nothing is assumed, and no public function has a `requires`.
#![tactic(auto)]

ghost use Rattle.io.specs.Counts.{IsPrefixLen};
ghost use Rattle.ladder_line.specs.Writing.{Puts};
ghost use Rattle.ladder_listing.specs.Listing.{line_of_row, Prepares, Prints};

use model::{Profile, ROW_SIZE, Refusal};

// A profile and the number of rows of its table.
#[derive(Clone, Copy, Debug, PartialEq, Eq)]
pub struct Listing {
    pub profile: Profile,
    pub rows: u64,
}

// Reads a profile and builds its table in the lent room for 4,096 rows, or refuses and leaves the room as it was.
#[tactic(auto, using(crate::proofs::Preparing::unread_prepared, crate::proofs::Preparing::unbuilt_prepared, crate::proofs::Preparing::built_prepared))]
pub fn prepare(input: &[u8], table: &mut [u8; 65536]) -> Result<Listing, Refusal>
    ensures { Prepares input.now table.old result table.new }
{
    let profile = profile_read::read_profile(input)?;
    let rows = table::build_table(profile, table)?;
    Ok(Listing { profile, rows })
}

// Puts the k-th line of a listing to the front of `text` and answers its length; where there is no such line, 0.
// Line 0 is the header or the refusal, line k the table's row k - 1. The longest line has 72 bytes. The second clause is
// what lending the line, `&text[..n]`, needs.
pub fn line(listing: Result<Listing, Refusal>, table: &[u8], k: u64, text: &mut [u8; 80]) -> usize
    ensures prints { Prints listing table.now k text.old result text.new }
    ensures prefix_len { IsPrefixLen result text.new }
{
    match listing {
        Ok(l) if k == 0 => ladder_line::header_line(l.profile.n, l.rows, text),
        Ok(l) if k <= l.rows => row_line(l.profile, table, (k - 1) as usize, text),
        Err(refusal) if k == 0 => ladder_line::refusal_line(Err(refusal), text),
        _ => 0,
    }
}

// Row k of a table, from 0; nothing where there is no such row or scoring refuses its periods.
#[tactic(auto, using(crate::proofs::RowLines::scored_printable))]
fn row_line(p: Profile, table: &[u8], k: usize, text: &mut [u8; 80]) -> usize
    ensures { Puts text.old 0 (line_of_row p table.now k) result text.new }
{
    if table.len() / ROW_SIZE <= k {
        return 0;
    }
    let row = table_row::row_at(table, k);
    let Ok(scored) = score::score(p, row.periods) else {
        return 0;
    };
    ladder_line::put_row(row.start, scored.loss, row.periods, p.n, text)
}
