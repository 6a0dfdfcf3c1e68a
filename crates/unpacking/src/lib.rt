// A snapshot's rows in full width: bytes to the lent words of a board.
#![tactic(auto)]

ghost use Rattle.std.specs.Prelude.{◌≡◌, List, ◌++◌, true, ℕ, ◌+◌, ◌*◌, ◌/◌, ◌<◌, ◌≤◌, length, get_or, drop, IfSome};
ghost use Rattle.rules.specs.Board.{Board};
ghost use Rattle.rules.specs.Snapshot.{snapshot_of};
ghost use Rattle.rules.specs.WellFormed.{well_formed};
ghost use Rattle.board.specs.Layout.{committee_width, reshape_width, machines_at, board_size, encode};
ghost use Rattle.packing.specs.Packed.{flat, committee, reshape};
ghost use Rattle.row_tests.specs.Rows.{width_of};
ghost use Rattle.unpacking.specs.AsWords.{AsWords};
ghost use Rattle.unpacking.specs.Parts.{PartRead, plain, Wide, Listed, CountRead};
ghost use Rattle.unpacking.specs.Unpacked.{most_of, is_plain, GoodRow, RowRead, RowsRead, TableRead, SettingsRead, FromBoundsRead, BoardRead};

use board::layout::{
    BOARD_SIZE, BOUNDS_AT, COMMITTEE_WIDTH, COMMITTEES_AT, LEFT_AT, MACHINES_AT, MEMBERS_AT,
    MOST_BOUNDS, MOST_COMMITTEES, MOST_HALF, MOST_MACHINES, MOST_MEMBERS, MOST_RESHAPES,
    MOST_ROTATIONS, MOST_SEATS, RESHAPE_WIDTH, RESHAPES_AT, RIGHT_AT, ROTATIONS_AT, SEAT_WIDTH,
    SEATS_AT, SETTINGS_END,
};
use bytes_words::{get_words, word_at};
use packing::width;
use row_tests::RowKind;
use shifts::clear;
use wiping::wipe;

// ---- Words

// The word at a place of the bytes, and 0 past the last. Kept: the order of rows is asked of the words that follow, which are 0 past the last in the definitions too.
pub fn word(bytes: &[u8], at: usize) -> u64
    ensures { (ws : List ℕ) → AsWords bytes.now ws → result ≡ get_or ws at 0 }
{
    if bytes.len() / 8 <= at {
        return 0;
    }
    word_at(bytes, 8 * at)
}

// The count at a place, if one within its limit stands there.
pub fn count_at(cap: usize, bytes: &[u8], at: usize) -> Option<usize>
    ensures within { IfSome result (λ n. (n ≤ cap) × (at < length bytes.now / 8)) }
    ensures read { (ws : List ℕ) → AsWords bytes.now ws → CountRead cap ws at result }
{
    if bytes.len() / 8 <= at {
        return None;
    }
    let n = word_at(bytes, 8 * at) as usize;
    if cap < n {
        return None;
    }
    Some(n)
}

// As many words as `out` has room for, and where the next stands; no word where they are not all there.
fn unpack_words(bytes: &[u8], at: usize, out: &mut [u64]) -> Option<usize>
    ensures { (ws : List ℕ) → AsWords bytes.now ws → PartRead plain (Wide (length out.old)) ws out.new at result }
{
    let total = bytes.len() / 8;
    if total < at {
        return None;
    }
    if total - at < out.len() {
        return None;
    }
    get_words(bytes, 8 * at, out);
    Some(at + out.len())
}

// A count within cap and that many rows of w words; the room past them is cleared.
fn unpack_list(w: usize, cap: usize, bytes: &[u8], at: usize, out: &mut [u64]) -> Option<usize>
    requires { length out.old ≡ 1 + cap * w }
    ensures { (ws : List ℕ) → AsWords bytes.now ws → PartRead (flat w cap) (Listed w cap) ws out.new at result }
{
    let n = word(bytes, at) as usize;
    if cap < n {
        return None;
    }
    let end = 1 + n * w;
    wipe(&mut out[end..]);
    unpack_words(bytes, at, &mut out[..end])
}

// ---- Rows

fn unpack_committee(bytes: &[u8], at: usize, out: &mut [u64]) -> Option<usize>
    requires { length out.old ≡ committee_width }
    ensures { (ws : List ℕ) → AsWords bytes.now ws → PartRead committee (GoodRow RowKind.Committees) ws out.new at result }
{
    let members = unpack_words(bytes, at, &mut out[0..MEMBERS_AT])?;
    unpack_list(
        1,
        MOST_MEMBERS,
        bytes,
        members,
        &mut out[MEMBERS_AT..COMMITTEE_WIDTH],
    )
}

fn unpack_reshape(bytes: &[u8], at: usize, out: &mut [u64]) -> Option<usize>
    requires { length out.old ≡ reshape_width }
    ensures { (ws : List ℕ) → AsWords bytes.now ws → PartRead reshape (GoodRow RowKind.Reshapes) ws out.new at result }
{
    let seats = unpack_words(bytes, at, &mut out[0..SEATS_AT])?;
    let left = unpack_list(
        SEAT_WIDTH,
        MOST_SEATS,
        bytes,
        seats,
        &mut out[SEATS_AT..LEFT_AT],
    )?;
    let right = unpack_list(1, MOST_HALF, bytes, left, &mut out[LEFT_AT..RIGHT_AT])?;
    unpack_list(
        1,
        MOST_HALF,
        bytes,
        right,
        &mut out[RIGHT_AT..RESHAPE_WIDTH],
    )
}

// The row at a place, in full width, and where the next one stands.
pub fn unpack_row(k: RowKind, bytes: &[u8], at: usize, out: &mut [u64]) -> Option<usize>
    requires { length out.old ≡ width_of k }
    ensures { (ws : List ℕ) → AsWords bytes.now ws → RowRead k ws out.new at result }
{
    match k {
        RowKind::Machines => unpack_words(bytes, at, out),
        RowKind::Committees => unpack_committee(bytes, at, out),
        RowKind::Boundaries => unpack_words(bytes, at, out),
        RowKind::Rotations => unpack_words(bytes, at, out),
        RowKind::Reshapes => unpack_reshape(bytes, at, out),
    }
}

// ---- The board

// n rows, one after another, and where the next section stands. After a row that is not there the next is read from word 0 on: no
// snapshot has one, but words that are none are laid so too, by `replay`.
fn unpack_each(
    k: RowKind,
    w: usize,
    n: usize,
    bytes: &[u8],
    at: usize,
    out: &mut [u64],
) -> Option<usize>
    requires { (w ≡ width_of k) × (length out.old ≡ n * w) }
    ensures { (ws : List ℕ) → AsWords bytes.now ws → RowsRead k n ws out.new at result }
{
    let mut next = at;
    for i in 0..n {
        let row = i * w;
        next = unpack_row(k, bytes, next, &mut out[row..row + w]).unwrap_or(0);
    }
    Some(next)
}

// A row without lists has the same words in a snapshot and in a board.
fn is_plain(k: RowKind) -> bool
    ensures { result ≡ is_plain k }
{
    matches!(
        k,
        RowKind::Machines | RowKind::Boundaries | RowKind::Rotations
    )
}

// The same; rows without lists all at once.
fn unpack_rows(
    k: RowKind,
    w: usize,
    n: usize,
    bytes: &[u8],
    at: usize,
    out: &mut [u64],
) -> Option<usize>
    requires { (w ≡ width_of k) × (length out.old ≡ n * w) }
    ensures { (ws : List ℕ) → AsWords bytes.now ws → RowsRead k n ws out.new at result }
{
    if is_plain(k) & (0 < n) {
        return unpack_words(bytes, at, out);
    }
    unpack_each(k, w, n, bytes, at, out)
}

// A count within cap and that many rows; the room past them is cleared.
fn unpack_table(
    k: RowKind,
    w: usize,
    cap: usize,
    bytes: &[u8],
    at: usize,
    out: &mut [u64],
) -> Option<usize>
    requires { (w ≡ width_of k) × (length out.old ≡ 1 + cap * w) }
    ensures { (ws : List ℕ) → AsWords bytes.now ws → TableRead k cap ws out.new at result }
{
    let rows = unpack_words(bytes, at, &mut out[0..1])?;
    let count = out[0] as usize;
    if cap < count {
        return None;
    }
    let end = 1 + count * w;
    let next = unpack_rows(k, w, count, bytes, rows, &mut out[1..end])?;
    wipe(&mut out[end..]);
    Some(next)
}

fn most(k: RowKind) -> usize
    ensures { result ≡ most_of k }
{
    match k {
        RowKind::Machines => MOST_MACHINES,
        RowKind::Committees => MOST_COMMITTEES,
        RowKind::Boundaries => MOST_BOUNDS,
        RowKind::Rotations => MOST_ROTATIONS,
        RowKind::Reshapes => MOST_RESHAPES,
    }
}

fn unpack_section(k: RowKind, bytes: &[u8], at: usize, out: &mut [u64]) -> Option<usize>
    requires { length out.old ≡ 1 + most_of k * width_of k }
    ensures { (ws : List ℕ) → AsWords bytes.now ws → TableRead k (most_of k) ws out.new at result }
{
    unpack_table(k, width(k), most(k), bytes, at, out)
}

// Six numbers after their count; the room past them is cleared.
fn unpack_settings(bytes: &[u8], out: &mut [u64]) -> Option<usize>
    requires { length out.old ≡ machines_at }
    ensures { (ws : List ℕ) → AsWords bytes.now ws → SettingsRead ws out.new result }
{
    let next = unpack_words(bytes, 0, &mut out[0..SETTINGS_END])?;
    clear(&mut out[SETTINGS_END..MACHINES_AT]);
    Some(next)
}

// The tables from the boundaries on; the words around them stay.
fn unpack_from_bounds(bytes: &[u8], at: usize, board: &mut [u64]) -> Option<usize>
    requires { board_size ≤ length board.old }
    ensures { (ws : List ℕ) → AsWords bytes.now ws → FromBoundsRead ws board.old board.new at result }
{
    let rotations = unpack_section(
        RowKind::Boundaries,
        bytes,
        at,
        &mut board[BOUNDS_AT..ROTATIONS_AT],
    )?;
    let reshapes = unpack_section(
        RowKind::Rotations,
        bytes,
        rotations,
        &mut board[ROTATIONS_AT..RESHAPES_AT],
    )?;
    unpack_section(
        RowKind::Reshapes,
        bytes,
        reshapes,
        &mut board[RESHAPES_AT..BOARD_SIZE],
    )
}

fn unpack_sections(bytes: &[u8], board: &mut [u64]) -> Option<usize>
    requires { board_size ≤ length board.old }
    ensures { BoardRead bytes.now board.old board.new result }
{
    let machines = unpack_settings(bytes, &mut board[0..MACHINES_AT])?;
    let committees = unpack_section(
        RowKind::Machines,
        bytes,
        machines,
        &mut board[MACHINES_AT..COMMITTEES_AT],
    )?;
    let bounds = unpack_section(
        RowKind::Committees,
        bytes,
        committees,
        &mut board[COMMITTEES_AT..BOUNDS_AT],
    )?;
    unpack_from_bounds(bytes, bounds, board)
}

// The words of the board whose snapshot the bytes are; those past it stay.
pub fn unpack_board(bytes: &[u8], board: &mut [u64])
    requires { board_size ≤ length board.old }
    ensures { (b : Board) → bytes.now ≡ snapshot_of b → well_formed b ≡ true → board.new ≡ encode b ++ drop board_size board.old }
{
    unpack_sections(bytes, board);
}
