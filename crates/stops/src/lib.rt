// Where the reading of bytes as a snapshot stops.
#![tactic(auto)]

ghost use Rattle.std.specs.Prelude.{◌≡◌, List, true, ℕ, ◌%◌, ◌<◌, length, get_or};
ghost use Rattle.unpacking.specs.AsWords.{AsWords};
ghost use Rattle.stops.specs.Stop.{section_reading, setting_tests, tests_reading, words_reading, reading_of, place_in};

use board::layout::{
    LAST_EPOCH, MOST_BOUNDS, MOST_COMMITTEES, MOST_EPOCHS, MOST_MACHINES, MOST_RESHAPES,
    MOST_ROTATIONS, RESHAPE_WIDTH, SETTINGS_END,
};
use packing::width;
use reading::row_end;
use row_tests::RowKind;
use unpacking::{count_at, word};

// ---- The settings

fn setting_ok(i: usize, n: u64) -> bool
    requires { i < 7 }
    ensures { result ≡ get_or setting_tests i (λ _. true) n }
{
    match i {
        0 => n == 6,
        1 => n <= LAST_EPOCH,
        2 => (4 <= n) & (n <= 32),
        3 => n <= MOST_EPOCHS,
        4 => n <= MOST_EPOCHS,
        5 => (1 <= n) & (n <= MOST_EPOCHS),
        _ => n <= 48,
    }
}

// A reading is `Ok` of the place where all that was read ends, or `Err` of the first that is not good.
fn settings(bytes: &[u8]) -> Result<usize, usize>
    ensures { (ws : List ℕ) → AsWords bytes.now ws → result ≡ tests_reading setting_tests 0 ws }
{
    for i in 0..SETTINGS_END {
        if bytes.len() / 8 <= i {
            return Err(i);
        }
        if !setting_ok(i, word(bytes, i)) {
            return Err(i);
        }
    }
    Ok(SETTINGS_END)
}

// ---- Sections

fn section(k: RowKind, cap: usize, bytes: &[u8], at: usize) -> Result<usize, usize>
    requires { length bytes.now % 8 ≡ 0 }
    ensures { (ws : List ℕ) → AsWords bytes.now ws → result ≡ section_reading k cap ws at }
{
    let Some(n) = count_at(cap, bytes, at) else {
        return Err(at);
    };
    let w = width(k);
    let mut row: [u64; RESHAPE_WIDTH] = [0; RESHAPE_WIDTH];
    let mut next = at + 1;
    for after in (0..n).rev() {
        let Some(end) = row_end(k, after == 0, bytes, next, &mut row[..w]) else {
            return Err(next);
        };
        next = end;
    }
    Ok(next)
}

// ---- The whole

fn words(bytes: &[u8]) -> Result<usize, usize>
    requires { length bytes.now % 8 ≡ 0 }
    ensures { (ws : List ℕ) → AsWords bytes.now ws → result ≡ words_reading ws }
{
    let machines = settings(bytes)?;
    let committees = section(RowKind::Machines, MOST_MACHINES, bytes, machines)?;
    let bounds = section(RowKind::Committees, MOST_COMMITTEES, bytes, committees)?;
    let rotations = section(RowKind::Boundaries, MOST_BOUNDS, bytes, bounds)?;
    let reshapes = section(RowKind::Rotations, MOST_ROTATIONS, bytes, rotations)?;
    let end = section(RowKind::Reshapes, MOST_RESHAPES, bytes, reshapes)?;
    if end != bytes.len() / 8 {
        return Err(end);
    }
    Ok(end)
}

// `Ok` exactly where the bytes, of any length, are a snapshot.
pub fn read_through(bytes: &[u8]) -> Result<usize, usize>
    ensures { result ≡ reading_of bytes.now }
{
    let whole = bytes.len() / 8 * 8;
    let r = words(&bytes[..whole]);
    if bytes.len() == whole {
        return r;
    }
    Err(place(r))
}

fn place(r: Result<usize, usize>) -> usize
    ensures { result ≡ place_in r }
{
    match r {
        Ok(a) => a,
        Err(a) => a,
    }
}

// The first word of the first setting, count or row that is not good; the number of words where the bytes are a snapshot.
pub fn stopped_at(bytes: &[u8]) -> usize
    ensures { result ≡ place_in (reading_of bytes.now) }
{
    place(read_through(bytes))
}
