// The ladder program: reads a profile from standard input and prints its budget table, or the number and detail of its
// refusal. What each line holds is proved in the library `ladder_listing`; here is the loop that writes the lines, and no more. A
// read that fails ends the input, and a write that fails ends the program.
#![tactic(auto)]

// The numbers under which every process has its input and its output.
const STDIN: i32 = 0;

const STDOUT: i32 = 1;

// 66 bytes settle what is printed: a longer input is refused as its first 66 bytes are.
fn main() {
    let mut input = [0u8; 66];
    let got = io::read_full(STDIN, &mut input);
    let mut table = [0u8; 65536];
    let listing = ladder_listing::prepare(&input[..got], &mut table);
    let last = listing.map_or(0, |l| l.rows);
    let mut text = [0u8; 80];
    for k in 0..=last {
        let size = ladder_listing::line(listing, &table, k, &mut text);
        if !io::write_all(STDOUT, &text[..size]) {
            return;
        }
    }
}
