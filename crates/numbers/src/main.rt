// Runs the numbers of document 01, with the need of tickets 3 and 4, and a bad input for each refusal, and prints what comes out.
// The file stdout beside src/ is what must come out.
#![tactic(auto)]

ghost use Rattle.std.specs.Prelude.{◌<◌};

use planner::{Choice, ExactNeed, Job, PagesPerHour, Profile, Refusal, Seconds};

// The number under which every process has its output.
const STDOUT: i32 = 1;

// The budgets of P1 to P4.
const P1_TO_P4: [u32; 4] = [4175, 4176, 5219, 5220];

// Profile A.
const BYTES_A: [u8; 25] = [
    0x13, 0x01, 0x40, 0x19, 0x00, 0x12, 0x00, 0x04, 0x10, 0x02, 0xB0, 0x4A, 0x00, 0x24, 0x00, 0x08,
    0x10, 0x02, 0xD0, 0x64, 0x00, 0x48, 0x00, 0x10, 0x10,
];

fn main() {
    both_ways();
    needs();
    bad_bytes();
    bad_values();
    bad_periods();
    choices();
    zones();
    tables();
    lookups();
}

// Profile A's 25 bytes, read and written back: into a longer room, and into one that is a byte too short.
fn both_ways() {
    say(b"A\n");
    let read = planner::read_profile(&BYTES_A);
    show(read);
    if let Ok(p) = read {
        show_profile(p);
        show_written(p, &mut [0xEE; 28]);
        show_written(p, &mut [0xEE; 24]);
    }
}

// A's first row and the row 20, 60, 60, P8, P9 and the case with no pages.
fn needs() {
    say(b"needs\n");
    let a = profile_a();
    show_score(a, [25, 50, 100]);
    show_score(a, [20, 60, 60]);
    show_score(sevens(1), [7, 0, 0]);
    show_score(sevens(2), [7, 7, 0]);
    show_score(one(3600, 3600, 0), [3600, 0, 0]);
}

// 1 to 7, by the bytes. In the last, 5, 6 and 7 hold at once, and 5 comes first.
fn bad_bytes() {
    say(b"bad bytes\n");
    show_read(b"");
    show_changed(0, 0x23);
    show_changed(0, 0x10);
    show_changed(0, 0x19);
    show_read(&BYTES_A[..24]);
    show_changed(3, 0);
    show_changed(24, 0);
    show_changed(24, 0x11);
    show_changed(9, 0xFF);
    show_read(b"\x11\xFF\xFF\xFF\xFF\xFF\xFF\xFF\xFF");
}

// 3, 5, 6 and 8, by values. In the last but one, 5, 6 and 8 hold at once, and 5 comes first; in the last, all beyond n.
fn bad_values() {
    say(b"bad values\n");
    show_values(sevens(0));
    show_values(sevens(9));
    show_values(sevens(8));
    show_values(one(0, 7, 1));
    show_values(one(8, 7, 1));
    show_values(one(7, 3601, 1));
    show_values(weighed(0));
    show_values(weighed(33));
    show_values(one(7, 7, 32768));
    show_values(counted(1, all_bad()));
    show_values(bad_beyond());
}

// 13, by the first period that is not permitted: too short, too long, and not a multiple.
fn bad_periods() {
    say(b"bad periods\n");
    let a = profile_a();
    show_score(a, [19, 60, 60]);
    show_score(a, [25, 75, 75]);
    show_score(a, [25, 51, 100]);
    show_score(a, [25, 50, 0]);
    show_score(one(0, 7, 1), [7, 0, 0]);
}

// P1 to P4, P6 to P8, P10 and the case with no pages.
fn choices() {
    say(b"choices\n");
    let a = profile_a();
    for budget in P1_TO_P4 {
        show_choice(a, budget);
    }
    show_choice(spans([(1, 1), (2, 6), (35, 35)]), u32::MAX);
    show_choice(spans([(1, 1), (2, 4), (35, 35)]), u32::MAX);
    show_choice(sevens(1), 514);
    show_choice(sevens(1), 515);
    show_choice(one(1801, 3600, 1), 1);
    show_choice(one(1801, 3600, 1), u32::MAX);
    show_choice(one(3600, 3600, 0), 0);
}

// P5, an example of five zones, P6 and P7's profiles, and A with no room.
fn zones() {
    say(b"zones\n");
    show_zones(profile_a());
    show_zones(spans([(6, 10), (11, 22), (19, 40)]));
    show_zones(spans([(1, 1), (2, 6), (35, 35)]));
    show_zones(spans([(1, 1), (2, 4), (35, 35)]));
    show_zones_in(profile_a(), &mut [0xEE; 15]);
}

// A's table in room for nine rows and for eight, P10's, and one that has no row.
fn tables() {
    say(b"tables\n");
    show_table(profile_a());
    show_table_in(profile_a(), &mut [0xEE; 128]);
    show_table(one(1801, 3600, 1));
    show_table(spans([(1, 1), (2, 4), (35, 35)]));
}

// P1 to P4 through A's table.
fn lookups() {
    say(b"lookups\n");
    let a = profile_a();
    let mut table = [0; 144];
    let _ = planner::build_table(a, &mut table);
    for budget in P1_TO_P4 {
        show_lookup(a, &table, budget);
    }
}

// What is read of its bytes; no jobs where they were refused.
fn profile_a() -> Profile {
    planner::read_profile(&BYTES_A).unwrap_or(counted(0, Job::default()))
}

// So many jobs that run every 7 seconds: P8's profile is one of them, P9's two.
fn sevens(n: u32) -> Profile {
    counted(n, job(7, 7, 1))
}

fn one(lo: u32, hi: u32, data: u32) -> Profile {
    counted(1, job(lo, hi, data))
}

// Three jobs, by the ends of their intervals.
fn spans(intervals: [(u32, u32); 3]) -> Profile {
    let mut p = counted(3, Job::default());
    for (place, (lo, hi)) in p.jobs.iter_mut().zip(intervals) {
        *place = job(lo, hi, 1);
    }
    p
}

fn weighed(stiffness: u32) -> Profile {
    counted(
        1,
        Job {
            stiffness,
            ..job(7, 7, 1)
        },
    )
}

// One sound job, and a bad one beyond it.
fn bad_beyond() -> Profile {
    let mut p = sevens(1);
    p.jobs[1] = all_bad();
    p
}

fn job(lo: u32, hi: u32, data: u32) -> Job {
    Job {
        lo: Seconds(lo),
        hi: Seconds(hi),
        data,
        metadata: 0,
        stiffness: 1,
    }
}

fn all_bad() -> Job {
    Job {
        lo: Seconds(0),
        hi: Seconds(u32::MAX),
        data: 32768,
        metadata: u32::MAX,
        stiffness: 0,
    }
}

fn counted(n: u32, j: Job) -> Profile {
    Profile { n, jobs: [j; 8] }
}

// Three periods in the first of eight places.
fn three(periods: [u32; 3]) -> [Seconds; 8] {
    let mut eight = [Seconds::default(); 8];
    eight[..3].copy_from_slice(&periods.map(Seconds));
    eight
}

fn show_read(bytes: &[u8]) {
    show(planner::read_profile(bytes));
}

// Reads A with one byte changed.
fn show_changed(at: usize, b: u8)
    requires { at < 25 }
{
    let mut a = BYTES_A;
    a[at] = b;
    show_read(&a);
}

// Whether a profile's values are taken, in room enough for any.
fn show_values(p: Profile) {
    show(planner::write_profile(p, &mut [0; 65]));
}

// The verdict, then need and loss, a line for each number; zeros beside a refusal.
fn show_score(p: Profile, periods: [u32; 3]) {
    let scored = planner::score(p, three(periods));
    show(scored);
    for x in scored.map_or([0; 3], |s| need_and_loss(s.need, s.loss)) {
        show_numbers(&[x]);
    }
}

// The verdict, then a line of need, loss and eight periods; zeros beside a refusal.
fn show_choice(p: Profile, budget: u32) {
    let chosen = planner::choose(p, PagesPerHour(budget));
    show(chosen);
    show_numbers(&chosen.map_or([0; 11], plan));
}

fn plan(c: Choice) -> [u64; 11] {
    let mut numbers = [0; 11];
    numbers[..3].copy_from_slice(&need_and_loss(c.need, c.loss));
    numbers[3..].copy_from_slice(&c.periods.map(u64::from));
    numbers
}

fn need_and_loss(need: ExactNeed, loss: u64) -> [u64; 3] {
    [u64::from(need.whole.0), u64::from(need.remainder.0), loss]
}

// A profile's bytes, in a lent room.
fn show_written(p: Profile, room: &mut [u8]) {
    let count = planner::write_profile(p, room);
    show_filled(count, room);
}

// The zones, in a room for five and a byte more.
fn show_zones(p: Profile) {
    show_zones_in(p, &mut [0xEE; 81]);
}

fn show_zones_in(p: Profile, room: &mut [u8]) {
    let count = planner::list_zones(p, room);
    show_filled(count, room);
}

// The budget table, in a room for nine rows and a byte more.
fn show_table(p: Profile) {
    show_table_in(p, &mut [0xEE; 145]);
}

fn show_table_in(p: Profile, room: &mut [u8]) {
    let count = planner::build_table(p, room);
    show_filled(count, room);
}

// What was told of a lent room, and its bytes. Beside 11 no count is shown: its detail is what would be needed.
fn show_filled(count: Result<u64, Refusal>, room: &[u8]) {
    show(count);
    match count {
        Err(Refusal::Room(_)) => {}
        _ => show_numbers(&[count.unwrap_or(0)]),
    }
    show_line(room);
}

// What is told of a budget, and the row's bytes.
fn show_lookup(p: Profile, table: &[u8], budget: u32) {
    show(planner::judge_lookup(p, table, PagesPerHour(budget)));
    show_line(planner::lookup(p, table, PagesPerHour(budget)));
}

fn show_profile(p: Profile) {
    show_numbers(&[u64::from(p.n)]);
    for j in p.jobs {
        show_job(j);
    }
}

fn show_job(j: Job) {
    show_numbers(&[j.lo.0, j.hi.0, j.data, j.metadata, j.stiffness].map(u64::from));
}

// Bytes in hexadecimal, and a line feed.
fn show_line(bytes: &[u8]) {
    for &b in bytes {
        io::print_hex(STDOUT, u64::from(b), 2);
    }
    say(b"\n");
}

// Whether an operation answered, or the number and the detail of its refusal.
fn show<T: Copy>(answer: Result<T, Refusal>) {
    match answer {
        Ok(_) => say(b"sound\n"),
        Err(refusal) => {
            say(b"refused ");
            let v = Err(refusal);
            show_numbers(&[u64::from(planner::number(v)), planner::detail(v)]);
        }
    }
}

// Numbers with a space between them, and a line feed.
fn show_numbers(numbers: &[u64]) {
    for (k, &x) in numbers.iter().enumerate() {
        if 0 < k {
            say(b" ");
        }
        io::print_decimal(STDOUT, x);
    }
    say(b"\n");
}

fn say(text: &[u8]) {
    io::write_all(STDOUT, text);
}
