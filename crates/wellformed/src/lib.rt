// Whether lent words, of any length and content, hold a well-formed board: one pass, without copies.
#![tactic(auto)]

ghost use Rattle.std.specs.Prelude.{◌≡◌, length};
ghost use Rattle.board.specs.Layout.{machines_at, board_size};
ghost use Rattle.wellformed.specs.Tells.{Tells};
ghost use Rattle.wellformed.specs.Check.{numbers_ok, settings_ok, shards_ok, underway_ok};

use board::layout::{
    BOARD_SIZE, BOUNDS_AT, COMMITTEES_AT, LAST_EPOCH, MACHINES_AT, MOST_BOUNDS, MOST_COMMITTEES,
    MOST_EPOCHS, MOST_MACHINES, MOST_RESHAPES, MOST_ROTATIONS, RESHAPES_AT, ROTATIONS_AT,
    SETTINGS_END,
};
use row_tests::{BoundaryRows, CommitteeRows, MachineRows, ReshapeRows, RotationRows};
use word_tests::table_ok;

// ---- The ranges of rules/specs/Board.antt

const MOST_IN_FLIGHT: u64 = 48;

const LEAST_SIZE: u64 = 4;

const MOST_SIZE: u64 = 32;

const SETTINGS_COUNT: u64 = 6;

// ---- The board

// Epoch, S, D, W, interval and most in flight.
fn numbers_ok(t: &[u64]) -> bool
    requires { length t.now ≡ machines_at }
    ensures { result ≡ numbers_ok t.now }
{
    (t[1] <= LAST_EPOCH)
        & word_tests::inside(LEAST_SIZE, MOST_SIZE, t[2])
        & (t[3] <= MOST_EPOCHS)
        & (t[4] <= MOST_EPOCHS)
        & word_tests::inside(1, MOST_EPOCHS, t[5])
        & (t[6] <= MOST_IN_FLIGHT)
}

pub fn settings_ok(t: &[u64]) -> bool
    requires { length t.now ≡ machines_at }
    ensures { result ≡ settings_ok t.now }
{
    (t[0] == SETTINGS_COUNT) & numbers_ok(t) & word_tests::all_zero(&t[SETTINGS_END..MACHINES_AT])
}

// What a shard has: committees and boundaries.
fn shards_ok(board: &[u64]) -> bool
    requires { length board.now ≡ board_size }
    ensures { result ≡ shards_ok board.now }
{
    let c = &board[COMMITTEES_AT..BOUNDS_AT];
    let b = &board[BOUNDS_AT..ROTATIONS_AT];
    table_ok(&mut CommitteeRows::new(), MOST_COMMITTEES, c)
        & table_ok(&mut BoundaryRows, MOST_BOUNDS, b)
}

// What is under way: rotations and reshapes.
fn underway_ok(board: &[u64]) -> bool
    requires { length board.now ≡ board_size }
    ensures { result ≡ underway_ok board.now }
{
    let o = &board[ROTATIONS_AT..RESHAPES_AT];
    let r = &board[RESHAPES_AT..BOARD_SIZE];
    table_ok(&mut RotationRows, MOST_ROTATIONS, o) & table_ok(&mut ReshapeRows, MOST_RESHAPES, r)
}

// Whether the words, of any length, are those of a well-formed board.
pub fn well_formed(board: &[u64]) -> bool
    ensures { Tells board.now result }
{
    if board.len() != BOARD_SIZE {
        return false;
    }
    settings_ok(&board[0..MACHINES_AT])
        & table_ok(
            &mut MachineRows,
            MOST_MACHINES,
            &board[MACHINES_AT..COMMITTEES_AT],
        )
        & shards_ok(board)
        & underway_ok(board)
}
