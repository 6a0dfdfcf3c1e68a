// Reshapes told by their packed words, without a row in full width.
ghost use Rattle.std.specs.Prelude.{◌≡◌, List, false, ℕ, ◌+◌, ◌*◌, ◌/◌, ◌≤◌, ◌<◌, length, get_or, take, drop};
ghost use Rattle.word_tests.specs.Tests.{rises, first_ok, table_ok};
ghost use Rattle.board.specs.Layout.{seat_width, seats_at};
ghost use Rattle.row_tests.specs.declared.RowKind.{RowKind};
ghost use Rattle.row_tests.specs.Rows.{seat_ok};
ghost use Rattle.unpacking.specs.AsWords.{AsWords};
ghost use Rattle.reading.specs.Stream.{TellsRow};
ghost use Rattle.reading.specs.Reshape.{TellsSeats, TellsLists};

use super::{RowEnds, first_rises_to};
use board::layout::{MOST_HALF, MOST_SEATS, SEAT_WIDTH, SEATS_AT};
use bytes_words::{get_words, word_at};
use id_lists::id_list_end;
use row_tests::{RowKind, reshape_head_ok, scheduled_ok, seat_ok};
use unpacking::word;
use word_tests::Marks;

// ---- Seats

// The first of the n seats at a place.
fn first_seat_ok(target: u64, n: usize, bytes: &[u8], at: usize) -> bool
    requires { (0 < n) × (at + n * seat_width ≤ length bytes.now / 8) }
    ensures { (ws : List ℕ) → AsWords bytes.now ws → result ≡ first_ok (seat_ok target) (rises false) seat_width n (take (n * seat_width) (drop at ws)) }
{
    let seat = [
        word_at(bytes, 8 * at),
        word_at(bytes, 8 * (at + 1)),
        word_at(bytes, 8 * (at + 2)),
    ];
    seat_ok(target, &seat) & ((n == 1) | first_rises_to(&seat, bytes, at + SEAT_WIDTH))
}

// The n seats after their count at a place.
fn seats_ok(target: u64, n: usize, bytes: &[u8], at: usize) -> bool
    requires { at + (1 + n * seat_width) ≤ length bytes.now / 8 }
    ensures { (ws : List ℕ) → AsWords bytes.now ws → n ≡ get_or ws at 0 → result ≡ table_ok (seat_ok target) (rises false) seat_width n (take (1 + n * seat_width) (drop at ws)) }
{
    let mut seat: usize = 1;
    for after in (0..n).rev() {
        if !first_seat_ok(target, after + 1, bytes, at + seat) {
            return false;
        }
        seat += SEAT_WIDTH;
    }
    true
}

// Where the count at a place and that many seats of the target end.
fn seats_end(target: u64, bytes: &[u8], at: usize) -> Option<usize>
    ensures { (ws : List ℕ) → AsWords bytes.now ws → TellsSeats target ws at result }
{
    let total = bytes.len() / 8;
    if total <= at {
        return None;
    }
    let n = word_at(bytes, 8 * at) as usize;
    if MOST_SEATS < n {
        return None;
    }
    let size = 1 + n * SEAT_WIDTH;
    if total - at < size {
        return None;
    }
    if !seats_ok(target, n, bytes, at) {
        return None;
    }
    Some(at + size)
}

// ---- Rows

// Where the seats and the halves at a place end, after these first words.
fn lists_end(head: &[u64], bytes: &[u8], at: usize, marks: &mut Marks) -> Option<usize>
    requires { length head.now ≡ seats_at }
    ensures { (ws : List ℕ) → AsWords bytes.now ws → TellsLists head.now ws at result }
{
    let halves = seats_end(head[0], bytes, at)?;
    let middle = id_list_end(MOST_HALF, marks, bytes, halves)?;
    let end = id_list_end(MOST_HALF, marks, bytes, middle)?;
    if !scheduled_ok(head[1], head[5], word(bytes, halves), word(bytes, middle)) {
        return None;
    }
    Some(end)
}

// As `row_end`, of a reshape.
fn reshape_end(last: bool, bytes: &[u8], at: usize, marks: &mut Marks) -> Option<usize>
    ensures { (ws : List ℕ) → AsWords bytes.now ws → TellsRow RowKind.Reshapes last ws at result }
{
    let total = bytes.len() / 8;
    if total <= at {
        return None;
    }
    if total < at + SEATS_AT {
        return None;
    }
    let mut head: [u64; SEATS_AT] = [0; SEATS_AT];
    get_words(bytes, 8 * at, &mut head);
    if !reshape_head_ok(&head) {
        return None;
    }
    let end = lists_end(&head, bytes, at + SEATS_AT, marks)?;
    if last {
        return Some(end);
    }
    if !first_rises_to(&head, bytes, end) {
        return None;
    }
    Some(end)
}

#[derive(Drop)]
pub struct Reshapes<'a> {
    pub marks: &'a mut Marks,
}

impl<'a> RowEnds for Reshapes<'a> {
    ghost kind = { RowKind.Reshapes };

    fn row_end(&mut self, last: bool, bytes: &[u8], at: usize) -> Option<usize> {
        reshape_end(last, bytes, at, self.marks)
    }
}
