// Makes the recorded calls again, by the exports, and says of how many the answer, the counts and the board are as recorded.
#![tactic(auto)]

mod calls;
mod input;
mod kinds;
mod series;
mod sums;
mod tally;

use std::fs::File;
use std::io;
use std::io::Read;
use tally::Tally;

const FORM: u64 = 1;

// So that any file comes to an end.
const MOST_SERIES: u64 = 1048576;

fn follow_all(rt: &impl Print, file: &mut impl Read) -> io::Result<()> {
    if input::word(file) != FORM {
        return println!(rt; "calls.bin has another form");
    }
    let mut tally = Tally::new();
    for _ in 0..input::word(file) % MOST_SERIES {
        series::follow(file, &mut tally);
    }
    tally.print(rt)
}

fn main(rt: HostRuntime) -> io::Result<()> {
    match File::open(&rt, "calls.bin") {
        Ok(mut file) => follow_all(&rt, &mut file),
        Err(e) => eprintln!(rt; "calls.bin: {e}"),
    }
}
