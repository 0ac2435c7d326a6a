// A table row's sixteen bytes: a start and eight periods put together and cut apart, stored in a lent table and read out of
// it; and which row may follow another.
//
// specs/Table.antt says what a table's rows and fields are, specs/Cut.antt how a row is held and which may follow another. Every
// reader and writer of table rows goes through this crate. These functions serve other crates of the planner, and their
// callers meet what they require. Nothing is assumed.
#![tactic(auto)]

ghost use Rattle.std.specs.Prelude.{◌≡◌, map, ◌<◌};
ghost use Rattle.codec.specs.RowWords.{with_row};
ghost use Rattle.model.specs.Model.{seconds, pages_per_hour};
ghost use Rattle.table_row.specs.Table.{table_row, rows_in, start_at};
ghost use Rattle.table_row.specs.Cut.{row_of, row_at, words_of, word_fields, word_start, word_periods, Fields, follows};

use codec::RowWords;
use model::{PagesPerHour, Seconds};

// The widths of what a row's first word holds: the start, two periods, and the upper eight bits of the third.
const HIGH_WIDTHS: [u64; 4] = [32, 12, 12, 8];

// The widths of what the second word holds: the lower four bits of the third period, and the other five.
const LOW_WIDTHS: [u64; 6] = [4, 12, 12, 12, 12, 12];

// A table row's start and its eight periods.
#[derive(Clone, Copy)]
pub struct TableRow {
    pub start: PagesPerHour,
    pub periods: [Seconds; 8],
}

// The start and the eight periods in a row's two words.
impl From<RowWords> for TableRow {
    ghost from_gives = { λ words row. row ≡ row_of (word_fields words.high words.low) };

    #[tactic(auto, using(crate::proofs::Cutting::upper_small, crate::proofs::Cutting::lower_small, crate::proofs::Cutting::row_cut))]
    fn from(words: RowWords) -> TableRow {
        let [start, t1, t2, t3_upper] = codec::unpack_widths(&HIGH_WIDTHS, words.high);
        let [t3_lower, t4, t5, t6, t7, t8] = codec::unpack_widths(&LOW_WIDTHS, words.low);
        TableRow {
            start: PagesPerHour(start),
            periods: [
                Seconds(t1),
                Seconds(t2),
                Seconds(t3_upper * 16 + t3_lower),
                Seconds(t4),
                Seconds(t5),
                Seconds(t6),
                Seconds(t7),
                Seconds(t8),
            ],
        }
    }
}

impl TableRow {
    // A row's start and its eight periods as two words.
    #[tactic(auto, using(crate::proofs::Words::words_added))]
    pub fn words(&self) -> RowWords
        requires { Fields (map (λ t. t.0) self.now.periods) }
        ensures { result ≡ words_of self.now.start.0 (map (λ t. t.0) self.now.periods) }
    {
        let [t1, t2, t3, t4, t5, t6, t7, t8] = self.periods;
        RowWords {
            high: codec::pack_widths(&HIGH_WIDTHS, [self.start.0, t1.0, t2.0, t3.0 / 16]),
            low: codec::pack_widths(&LOW_WIDTHS, [t3.0 % 16, t4.0, t5.0, t6.0, t7.0, t8.0]),
        }
    }
}

// The k-th row of a table, counted from 0.
#[tactic(auto, using(crate::proofs::Cutting::fields_of_words))]
pub fn row_at(table: &[u8], k: usize) -> TableRow
    requires { k < rows_in table.now }
    ensures { result ≡ row_at table.now k }
{
    codec::get_row(table, k).into()
}

// The start of the k-th row of a table, counted from 0.
#[tactic(auto, using(crate::proofs::Cutting::start_of_words))]
pub fn start_at(table: &[u8], k: usize) -> PagesPerHour
    requires { k < rows_in table.now }
    ensures { result ≡ start_at table.now k }
{
    start_of(codec::get_row(table, k))
}

// Makes the k-th row of a table, counted from 0, the one that two words hold; where there is no such row, nothing changes.
#[tactic(auto, using(crate::proofs::Words::row_of_cut))]
pub fn put_row(table: &mut [u8], k: usize, words: RowWords)
    ensures { table.new ≡ with_row table.old k (table_row (pages_per_hour (word_start words.high)) (map seconds (word_periods words.high words.low))) }
{
    codec::put_row(table, k, words);
}

// The start in a row's two words: it fills the upper half of the first.
pub fn start_of(words: RowWords) -> PagesPerHour
    ensures { result.0 ≡ word_start words.high }
{
    PagesPerHour((words.high >> 32) as u32)
}

// Where a row stands among a table's: what it starts at, and what its periods lose.
#[derive(Clone, Copy)]
pub struct Standing {
    pub start: PagesPerHour,
    pub loss: u64,
}

impl Standing {
    // Whether a row may follow the one before it: the first follows none.
    #[tactic(auto, unfolding(crate::specs::Cut::follows))]
    pub fn may_follow(self, before: Option<Standing>) -> bool
        ensures { result ≡ follows before self }
    {
        match before {
            None => true,
            Some(last) => last.start < self.start && self.loss < last.loss,
        }
    }
}
