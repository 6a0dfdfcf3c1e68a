// A board's words without the room past each count: how many they are, and laid as bytes.
#![tactic(auto)]

ghost use Rattle.std.specs.Prelude.{◌≡◌, ◌+◌, ◌-◌, ◌*◌, ◌≤◌, length};
ghost use Rattle.board.specs.Layout.{committee_width, reshape_width, bounds_at, board_size};
ghost use Rattle.row_tests.specs.Rows.{width_of};
ghost use Rattle.packing.specs.Packed.{count_of, flat, committee, reshape, row_of, nested, from_bounds, packed};
ghost use Rattle.packing.specs.Put.{Put};

use board::layout::{
    BOARD_SIZE, BOUNDARY_WIDTH, BOUNDS_AT, COMMITTEE_WIDTH, COMMITTEES_AT, LEFT_AT, MACHINE_WIDTH,
    MACHINES_AT, MEMBERS_AT, MOST_BOUNDS, MOST_COMMITTEES, MOST_HALF, MOST_MACHINES, MOST_MEMBERS,
    MOST_RESHAPES, MOST_ROTATIONS, MOST_SEATS, RESHAPE_WIDTH, RESHAPES_AT, RIGHT_AT,
    ROTATION_WIDTH, ROTATIONS_AT, SEAT_WIDTH, SEATS_AT, SETTINGS_END,
};
use bytes_words::put_words;
use row_tests::RowKind;

// ---- A table of rows without lists

// No more than there is room for, so that any words have a size.
fn count(cap: usize, t: &[u64]) -> usize
    requires { 1 ≤ length t.now }
    ensures { result ≡ count_of cap t.now }
{
    (t[0] as usize).min(cap)
}

fn flat_size(w: usize, cap: usize, t: &[u64]) -> usize
    requires { length t.now ≡ 1 + cap * w }
    ensures { result ≡ length (flat w cap t.now) }
{
    1 + count(cap, t) * w
}

fn put_flat(w: usize, cap: usize, t: &[u64], out: &mut [u8], at: usize) -> usize
    requires { (length t.now ≡ 1 + cap * w) × (at + length (flat w cap t.now) * 8 ≤ length out.old) }
    ensures { Put (flat w cap t.now) at out.old out.new result }
{
    let e = flat_size(w, cap, t);
    put_words(&t[..e], out, at)
}

// ---- Rows with lists in them

fn committee_size(t: &[u64]) -> usize
    requires { length t.now ≡ committee_width }
    ensures { result ≡ length (committee t.now) }
{
    MEMBERS_AT + flat_size(1, MOST_MEMBERS, &t[MEMBERS_AT..COMMITTEE_WIDTH])
}

fn put_committee(t: &[u64], out: &mut [u8], at: usize) -> usize
    requires { (length t.now ≡ committee_width) × (at + length (committee t.now) * 8 ≤ length out.old) }
    ensures { Put (committee t.now) at out.old out.new result }
{
    let p = put_words(&t[0..MEMBERS_AT], out, at);
    put_flat(1, MOST_MEMBERS, &t[MEMBERS_AT..COMMITTEE_WIDTH], out, p)
}

fn reshape_size(t: &[u64]) -> usize
    requires { length t.now ≡ reshape_width }
    ensures { result ≡ length (reshape t.now) }
{
    SEATS_AT
        + flat_size(SEAT_WIDTH, MOST_SEATS, &t[SEATS_AT..LEFT_AT])
        + flat_size(1, MOST_HALF, &t[LEFT_AT..RIGHT_AT])
        + flat_size(1, MOST_HALF, &t[RIGHT_AT..RESHAPE_WIDTH])
}

fn put_reshape(t: &[u64], out: &mut [u8], at: usize) -> usize
    requires { (length t.now ≡ reshape_width) × (at + length (reshape t.now) * 8 ≤ length out.old) }
    ensures { Put (reshape t.now) at out.old out.new result }
{
    let p = put_words(&t[0..SEATS_AT], out, at);
    let q = put_flat(SEAT_WIDTH, MOST_SEATS, &t[SEATS_AT..LEFT_AT], out, p);
    let r = put_flat(1, MOST_HALF, &t[LEFT_AT..RIGHT_AT], out, q);
    put_flat(1, MOST_HALF, &t[RIGHT_AT..RESHAPE_WIDTH], out, r)
}

pub fn width(k: RowKind) -> usize
    ensures { result ≡ width_of k }
{
    match k {
        RowKind::Machines => MACHINE_WIDTH,
        RowKind::Committees => COMMITTEE_WIDTH,
        RowKind::Boundaries => BOUNDARY_WIDTH,
        RowKind::Rotations => ROTATION_WIDTH,
        RowKind::Reshapes => RESHAPE_WIDTH,
    }
}

fn row_size(k: RowKind, t: &[u64]) -> usize
    requires { length t.now ≡ width_of k }
    ensures { result ≡ length (row_of k t.now) }
{
    match k {
        RowKind::Committees => committee_size(t),
        RowKind::Reshapes => reshape_size(t),
        _ => t.len(),
    }
}

fn put_row(k: RowKind, t: &[u64], out: &mut [u8], at: usize) -> usize
    requires { (length t.now ≡ width_of k) × (at + length (row_of k t.now) * 8 ≤ length out.old) }
    ensures { Put (row_of k t.now) at out.old out.new result }
{
    match k {
        RowKind::Committees => put_committee(t, out, at),
        RowKind::Reshapes => put_reshape(t, out, at),
        _ => put_words(t, out, at),
    }
}

// No row grows by being packed, so the sum stays below the table's length.
fn rows_size(k: RowKind, cap: usize, t: &[u64]) -> usize
    requires { length t.now ≡ 1 + cap * width_of k }
    ensures { (result ≡ length (nested k cap t.now)) × (result ≤ length t.now) }
{
    let w = width(k);
    let n = count(cap, t);
    let mut size: usize = 1;
    for i in 0..n {
        let row = 1 + i * w;
        size += row_size(k, &t[row..row + w]);
    }
    size
}

fn put_rows(k: RowKind, cap: usize, t: &[u64], out: &mut [u8], at: usize) -> usize
    requires { (length t.now ≡ 1 + cap * width_of k) × (at + length (nested k cap t.now) * 8 ≤ length out.old) }
    ensures { Put (nested k cap t.now) at out.old out.new result }
{
    let w = width(k);
    let n = count(cap, t);
    let mut next = put_words(&t[0..1], out, at);
    for i in 0..n {
        let row = 1 + i * w;
        next = put_row(k, &t[row..row + w], out, next);
    }
    next
}

// ---- The board

// Of the tables from the boundaries on.
fn size_from_bounds(t: &[u64]) -> usize
    requires { length t.now ≡ board_size }
    ensures { (result ≡ length (from_bounds t.now)) × (result ≤ board_size - bounds_at) }
{
    let b = flat_size(BOUNDARY_WIDTH, MOST_BOUNDS, &t[BOUNDS_AT..ROTATIONS_AT]);
    let o = flat_size(
        ROTATION_WIDTH,
        MOST_ROTATIONS,
        &t[ROTATIONS_AT..RESHAPES_AT],
    );
    let r = rows_size(
        RowKind::Reshapes,
        MOST_RESHAPES,
        &t[RESHAPES_AT..BOARD_SIZE],
    );
    b + o + r
}

pub fn packed_size(t: &[u64]) -> usize
    requires { length t.now ≡ board_size }
    ensures { (result ≡ length (packed t.now)) × (result ≤ board_size) }
{
    let m = flat_size(MACHINE_WIDTH, MOST_MACHINES, &t[MACHINES_AT..COMMITTEES_AT]);
    let c = rows_size(
        RowKind::Committees,
        MOST_COMMITTEES,
        &t[COMMITTEES_AT..BOUNDS_AT],
    );
    let s = size_from_bounds(t);
    SETTINGS_END + m + c + s
}

// The tables from the boundaries on.
fn put_from_bounds(t: &[u64], out: &mut [u8], at: usize) -> usize
    requires { (length t.now ≡ board_size) × (at + length (from_bounds t.now) * 8 ≤ length out.old) }
    ensures { Put (from_bounds t.now) at out.old out.new result }
{
    let b = put_flat(
        BOUNDARY_WIDTH,
        MOST_BOUNDS,
        &t[BOUNDS_AT..ROTATIONS_AT],
        out,
        at,
    );
    let o = put_flat(
        ROTATION_WIDTH,
        MOST_ROTATIONS,
        &t[ROTATIONS_AT..RESHAPES_AT],
        out,
        b,
    );
    put_rows(
        RowKind::Reshapes,
        MOST_RESHAPES,
        &t[RESHAPES_AT..BOARD_SIZE],
        out,
        o,
    )
}

pub fn put_board(t: &[u64], out: &mut [u8]) -> usize
    requires { (length t.now ≡ board_size) × (length (packed t.now) * 8 ≤ length out.old) }
    ensures { Put (packed t.now) 0 out.old out.new result }
{
    let s = put_words(&t[0..SETTINGS_END], out, 0);
    let m = put_flat(
        MACHINE_WIDTH,
        MOST_MACHINES,
        &t[MACHINES_AT..COMMITTEES_AT],
        out,
        s,
    );
    let c = put_rows(
        RowKind::Committees,
        MOST_COMMITTEES,
        &t[COMMITTEES_AT..BOUNDS_AT],
        out,
        m,
    );
    put_from_bounds(t, out, c)
}
