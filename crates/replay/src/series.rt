// A series of the recorded file: a starting snapshot, calls, and the snapshot after the last.
use crate::calls::Call;
use crate::kinds::Kind;
use crate::tally::Tally;
use crate::{calls, input, sums};
use std::io::Read;

const WORDS: usize = 5861;

const MOST_DRAWS: usize = 4096;

// Numbers of the file are taken modulo these, so that any file comes to an end.
const MOST_CALLS: u64 = 65536;

const MOST_WORDS: u64 = 8192;

// Room for a snapshot, which each function that needs it lends.
const MOST_BYTES: usize = 65536;

const NOT_WELL_FORMED: u64 = 1;

// In lent room; none where the words hold no well-formed board.
fn snapshot_of<'a>(board: &[u64; WORDS], room: &'a mut [u8; MOST_BYTES]) -> Option<&'a [u8]> {
    let mut length: u64 = 0;
    if roster::roster_write(board, room, &mut length) != 0 {
        return None;
    }
    room.get(..length as usize)
}

// The checksum of the board's snapshot; 0 where there is none.
fn sum_of(board: &[u64; WORDS]) -> u64 {
    match snapshot_of(board, &mut [0; MOST_BYTES]) {
        Some(snapshot) => sums::checksum(snapshot),
        None => 0,
    }
}

// Whether the board's snapshot has these bytes.
fn is_written_as(board: &[u64; WORDS], bytes: &[u8]) -> bool {
    match snapshot_of(board, &mut [0; MOST_BYTES]) {
        Some(snapshot) => snapshot == bytes,
        None => false,
    }
}

// What a series starts from: a board's snapshot, or bytes that are none.
#[derive(Clone, Copy)]
struct Start<'a> {
    bytes: &'a [u8],
    is_board: bool,
}

// A snapshot is read, and written back; words with its structure that are no board's are laid out all the same.
fn begins<'a>(bytes: &'a [u8], board: &mut [u64; WORDS], tally: &mut Tally) -> Start<'a> {
    let is_board = roster::roster_read(bytes, board) == 0;
    if is_board {
        tally.add(Kind::First, is_written_as(board, bytes));
    } else {
        tally.pass_over(Kind::First);
        unpacking::unpack_board(bytes, board);
    }
    Start { bytes, is_board }
}

// Reads the bytes into words that stay as they are where it refuses.
fn reads_as(call: Call, bytes: &[u8], board: &[u64; WORDS]) -> bool {
    let mut other = [7; WORDS];
    let answer = roster::roster_read(bytes, &mut other);
    if answer == 0 {
        return call.answer == 0 && *board == other;
    }
    call.answer == answer && other == [7; WORDS]
}

// Reads the snapshot as it is: the board's, or the starting bytes where they are no board's.
fn reads_again(call: Call, start: Start, board: &[u64; WORDS]) -> bool {
    if !start.is_board {
        return reads_as(call, start.bytes, board);
    }
    match snapshot_of(board, &mut [0; MOST_BYTES]) {
        Some(snapshot) => reads_as(call, snapshot, board),
        None => false,
    }
}

// Makes the call: whether its answer, its counts and the board are as recorded, a refusal's word for word.
fn makes_as(call: Call, draws: &[u64], board: &mut [u64; WORDS], sum: u64) -> bool {
    let before = *board;
    let mut results = [0u64; 2];
    let answer = calls::make(call, board, draws, &mut results);
    let told = answer == call.answer && results[0] == call.handled && results[1] == call.used;
    if answer == 0 || (call.kind.is_batch() && answer != NOT_WELL_FORMED) {
        return told && sum_of(board) == sum;
    }
    told && before == *board
}

// One call, made while the board is the recorded one: whether it still is.
fn follow_call(
    file: &mut impl Read,
    start: Start,
    board: &mut [u64; WORDS],
    known: bool,
    tally: &mut Tally,
) -> bool {
    let call = calls::next(file);
    let mut draws = [0; MOST_DRAWS];
    let n = MOST_DRAWS.min(call.draws as usize);
    input::fill(file, &mut draws[..n]);
    let sum = input::word(file);
    if !known {
        tally.pass_over(call.kind);
        return false;
    }
    let same = match call.kind {
        Kind::Read => reads_again(call, start, board),
        _ => makes_as(call, &draws[..n], board, sum),
    };
    tally.add(call.kind, same);
    same
}

fn follow_calls(
    file: &mut impl Read,
    start: Start,
    board: &mut [u64; WORDS],
    tally: &mut Tally,
) -> bool {
    let mut known = true;
    for _ in 0..input::word(file) % MOST_CALLS {
        known = follow_call(file, start, board, known, tally);
    }
    known
}

// The snapshot after the last call: the board's, or the starting words where they are no board's.
fn end(
    file: &mut impl Read,
    words: &[u8],
    start: Start,
    board: &[u64; WORDS],
    known: bool,
    tally: &mut Tally,
) {
    let long = input::word(file) % MOST_WORDS * 8;
    let mut room = [0; MOST_BYTES];
    let last = input::bytes(file, long, &mut room);
    if !known {
        tally.pass_over(Kind::Last);
    } else if start.is_board {
        tally.add(Kind::Last, is_written_as(board, last));
    } else {
        tally.add(Kind::Last, words == last);
    }
}

pub(crate) fn follow(file: &mut impl Read, tally: &mut Tally) {
    let mut board = [0; WORDS];
    let mut room = [0; MOST_BYTES];
    let long = input::word(file) % MOST_BYTES as u64;
    let words = input::bytes(file, (long + 7) / 8 * 8, &mut room);
    let bytes = words.get(..long as usize).unwrap_or(&[]);
    let start = begins(bytes, &mut board, tally);
    let known = follow_calls(file, start, &mut board, tally);
    end(file, words, start, &board, known, tally);
}
