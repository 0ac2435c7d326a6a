// The harmonic zones of a profile, counted and listed.
//
// specs/Zones.antt says what a zone is, which bytes its row has and what listing answers; specs/ZoneRows.antt serves the
// private functions alone. Nothing is assumed, and no public function has a `requires`.
#![tactic(auto)]

ghost use Rattle.std.specs.Prelude.{◌≡◌, ◌^◌, ◌<◌, length};
ghost use Rattle.model.specs.Valid.{Valid};
ghost use Rattle.zones.specs.Zones.{Listed};
ghost use Rattle.zone_walk.specs.Listing.{Bounded, intervals_in, zones_in};
ghost use Rattle.zones.specs.ZoneRows.{high_word, low_word, Wrote};

use codec::RowWords;
use model::{Profile, Refusal};
use zone_walk::{Intervals, Zone};

// The widths of what a row's first word holds: the range, a2 to a4, and the four high bits of a5.
const HIGH_WIDTHS: [u64; 6] = [12, 12, 12, 12, 12, 4];

// The widths of what the second word holds: the eight low bits of a5, a6 to a8, and the spare field.
const LOW_WIDTHS: [u64; 5] = [8, 12, 12, 12, 20];

// Writes the rows of all zones to the front of `out`, or refuses: the profile's own refusal, 9, then 11 with the rows needed.
#[tactic(auto, using(model::proofs::Validity::judged_valid, crate::proofs::Outcome::refused_listed))]
pub fn list_zones(p: Profile, out: &mut [u8]) -> Result<u64, Refusal>
    ensures { Listed p out.old result out.new }
{
    let Err(refusal) = profile_judge::judge(p) else {
        return list_sound(p, out);
    };
    Err(refusal)
}

// The same for a sound profile.
fn list_sound(p: Profile, out: &mut [u8]) -> Result<u64, Refusal>
    requires { Valid p }
    ensures { Listed p out.old result out.new }
{
    let intervals = Intervals::from(p);
    let mut nowhere = [0u8; 1];
    let count = write_zones(&intervals, &mut nowhere) as u64;
    model::judge_count(count, out.len())?;
    write_zones(&intervals, out);
    Ok(count)
}

// Goes through all zones and writes their rows to the front of `out` where it has room for all; their number. One loop
// serves counting, in no room, and writing: so the walk is compiled into it.
fn write_zones(intervals: &Intervals, out: &mut [u8]) -> usize
    requires bounded { Bounded intervals.now }
    requires few { length (zones_in (intervals_in intervals.now)) < 2 ^ 31 }
    ensures { Wrote (zones_in (intervals_in intervals.now)) out.old out.new result }
{
    let mut row: usize = 0;
    for zone in intervals.zones() {
        codec::put_row(out, row, words(&zone));
        row += 1;
    }
    row
}

// The two words of a zone's row: a5 stands in both.
fn words(zone: &Zone) -> RowWords
    ensures high { result.high ≡ high_word zone.now }
    ensures low { result.low ≡ low_word zone.now }
{
    let [_, a2, a3, a4, a5, a6, a7, a8] = zone.multipliers;
    RowWords {
        high: codec::pack_widths(
            &HIGH_WIDTHS,
            [zone.least.0, zone.greatest.0, a2, a3, a4, a5 / 256],
        ),
        low: codec::pack_widths(&LOW_WIDTHS, [a5 % 256, a6, a7, a8, 0]),
    }
}
