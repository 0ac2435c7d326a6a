// From zone to zone: a walk over the zones of a profile.
//
// Callers make the jobs' intervals of a profile, and go through their `zones()`: an iterator that clauses see as the
// list of the zones still to come. Inside, `Walk` keeps for each job so far its multiplier and the range of first
// periods that is left after it. `open_job` and `try_multiplier` call each other as the last thing they do and pass on
// nothing but numbers and the reference to the walk, so each call compiles to a jump and the walk takes no stack.
//
// specs/Listing.antt says which zones there are, specs/Walk.antt what the walk holds and which of them are to come.
// The public functions serve other crates of the planner, whose calls meet what they require. Nothing is assumed.
#![tactic(auto)]

ghost use Rattle.std.specs.Prelude.{◌≡◌, length};
ghost use Rattle.zone_walk.specs.Listing.{Bounded};
ghost use Rattle.zone_walk.specs.Places.{Clear};

use model::{Profile, Seconds};
use std::marker::Model;
use zone_range::{Interval, Range};

// The intervals of a profile's jobs: the first n of eight, in their fixed order.
#[derive(Clone, Copy)]
pub struct Intervals {
    pub n: usize,
    pub jobs: [Interval; 8],
}

impl From<Profile> for Intervals {
    ghost use Rattle.zone_walk.specs.Listing.{IntervalsOf};

    ghost from_gives = { IntervalsOf };

    fn from(p: Profile) -> Intervals {
        Intervals {
            n: p.n as usize,
            jobs: p.jobs.map(Interval::from),
        }
    }
}

impl Intervals {
    ghost use Rattle.zone_walk.specs.Listing.{Bounded, zones_in, intervals_in};

    // All zones of these jobs. The walk begins with the first job open, at multiplier 1 and its whole interval.
    pub fn zones(self) -> ZoneWalk
        requires { Bounded self }
        ensures { result ≡ zones_in (intervals_in self) }
    {
        let first = self.jobs[0];
        let mut places = [NO_PLACE; 8];
        places[0] = Place {
            multiplier: 1,
            range: Range {
                least: first.lo,
                greatest: first.hi,
            },
        };
        ZoneWalk {
            walk: Walk {
                intervals: self,
                places,
            },
            stage: Stage::Begun,
        }
    }
}

// A zone: its range and a multiplier for each of n jobs, with zeros beyond them. The range's ends are fields of their
// own, since a processor stalls where it reads as one what it has just written as two.
#[derive(Drop)]
pub struct Zone {
    n: usize,
    pub least: Seconds,
    pub greatest: Seconds,
    pub multipliers: [u32; 8],
}

impl Model for Zone {
    ghost use Rattle.zone_walk.specs.Zone as spec;

    ghost Value = { spec.Zone };

    ghost use Rattle.std.specs.Prelude.{take};
    ghost use Rattle.zone_walk.specs.RowNumbers.{RowNumbers};

    ghost view = { λ z. record { least = z.least; greatest = z.greatest; multipliers = take z.n z.multipliers } };

    ghost invariant = { RowNumbers };
}

// What the walk keeps for a job: its multiplier, and the range that is left after it.
#[derive(Clone, Copy)]
struct Place {
    multiplier: u32,
    range: Range,
}

// What stands in a place where no job was opened.
const NO_PLACE: Place = Place {
    multiplier: 0,
    range: Range {
        least: Seconds(0),
        greatest: Seconds(0),
    },
};

// How far a walk has come: its first job is open, it stands at a zone, or there are no more.
#[derive(Clone, Copy)]
enum Stage {
    Begun,
    AtZone,
    Ended,
}

// The intervals, and a place for each job.
#[derive(Drop)]
struct Walk {
    intervals: Intervals,
    places: [Place; 8],
    ghost bounded: { Bounded intervals },
    ghost sized: { length places ≡ 8 },
    ghost clear: { Clear intervals.n places },
}

impl Walk {
    ghost use Rattle.std.specs.Prelude.{◌≡◌};
    ghost use Rattle.zone_walk.specs.Places.{multipliers_of};
    ghost use Rattle.zone_walk.specs.Walk.{to_open, to_try, after, to_come, current, Opens, TriesMultiplier, IsAt, WentOn};

    // The multipliers, with zeros beyond the n jobs.
    fn multipliers(&self) -> [u32; 8]
        ensures { result ≡ multipliers_of self.now.places }
    {
        self.places.map(|place| place.multiplier)
    }

    // The zone that the walk stands at.
    fn zone(&self) -> Zone
        requires { Opens self.now self.now.intervals.n }
        ensures { result ≡ current self.now }
    {
        let range = self.places[self.intervals.n - 1].range;
        Zone {
            n: self.intervals.n,
            least: range.least,
            greatest: range.greatest,
            multipliers: self.multipliers(),
        }
    }

    // Goes on to the next zone; the answer says whether there is one.
    fn go_on(&mut self, stage: Stage) -> bool
        requires { IsAt self.old stage }
        ensures { WentOn (to_come self.old stage) self.new result }
    {
        match stage {
            Stage::Begun => self.open_job(1),
            Stage::AtZone => self.next_zone(),
            Stage::Ended => false,
        }
    }

    // From a zone to the next: the last job's next multiplier is tried. One job alone has one zone.
    fn next_zone(&mut self) -> bool
        requires { Opens self.old self.old.intervals.n }
        ensures { WentOn (after self.old self.old.intervals.n) self.new result }
    {
        let last = self.intervals.n - 1;
        if last == 0 {
            return false;
        }
        self.try_multiplier(
            last,
            self.places[last].multiplier + self.places[last - 1].multiplier,
        )
    }

    // Opens the job at place i: the walk goes on with its smallest multiplier. With all jobs open it stands at a zone. How far
    // the walk is open changes from call to call, so it is a clause and no invariant.
    #[cycle(open_job_try_multiplier)]
    fn open_job(&mut self, i: usize) -> bool
        requires { Opens self.old i }
        ensures { WentOn (to_open self.old i) self.new result }
    {
        if i == self.intervals.n {
            return true;
        }
        let before = self.places[i - 1];
        let m = self.intervals.jobs[i].first_multiplier(before.range.greatest, before.multiplier);
        self.try_multiplier(i, m)
    }

    // Tries multiplier m for the job at place i and opens the job after it. Where m leaves no first period the walk
    // goes on with the next multiplier, and past the last one with the next of the job before.
    #[cycle(open_job_try_multiplier)]
    fn try_multiplier(&mut self, i: usize, m: u32) -> bool
        requires { TriesMultiplier self.old i m }
        ensures { WentOn (to_try self.old i m) self.new result }
    {
        let prev = i - 1;
        let before = self.places[prev];
        let interval = self.intervals.jobs[i];
        if interval.past_last(before.range.least, m) {
            if prev == 0 {
                return false;
            }
            return self.try_multiplier(prev, before.multiplier + self.places[prev - 1].multiplier);
        }
        let range = interval.narrow(before.range, m);
        if range.greatest < range.least {
            return self.try_multiplier(i, m + before.multiplier);
        }
        self.places[i] = Place {
            multiplier: m,
            range,
        };
        self.open_job(i + 1)
    }
}

// The zones still to come.
#[derive(Drop)]
pub struct ZoneWalk {
    walk: Walk,
    stage: Stage,
}

impl Model for ZoneWalk {
    ghost use Rattle.std.specs.Prelude.{List};
    ghost use Rattle.zone_walk.specs.Zone as spec;

    ghost Value = { List spec.Zone };

    ghost use Rattle.zone_walk.specs.Walk.{to_come, IsAt};

    ghost view = { λ w. to_come w.walk w.stage };

    ghost invariant = { λ w. IsAt w.walk w.stage };
}

impl Iterator for ZoneWalk {
    ghost use Rattle.std.specs.Iterator.{YieldsFirst, item_count};

    type Item = Zone;

    ghost next_gives = { YieldsFirst (λ zones. zones) };

    ghost remaining = { item_count (λ zones. zones) };

    fn next(&mut self) -> Option<Zone> {
        if !self.walk.go_on(self.stage) {
            self.stage = Stage::Ended;
            return None;
        }
        self.stage = Stage::AtZone;
        Some(self.walk.zone())
    }
}
