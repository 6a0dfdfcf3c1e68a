// Where a row stands, by its key.
#![tactic(auto)]

ghost use Rattle.std.specs.Prelude.{◌≡◌, Bool, true, false, ◌+◌, ◌<◌, length, get_or, Some, IfSome};
ghost use Rattle.types.specs.Numbers.{Shard};
ghost use Rattle.types.specs.declared.Place as declared;
ghost use Rattle.rules.specs.Board.{Board, most_machines, most_committees, most_bounds, most_reshapes, most_seats};
ghost use Rattle.rules.specs.WellFormed.{is_target, well_formed};
ghost use Rattle.rules.specs.Moves.{says};
ghost use Rattle.board.specs.Layout.{board_size};
ghost use Rattle.board.specs.Held.{Holds, no_machine, no_committee, no_boundary, no_reshape, no_seat};
ghost use Rattle.rows.specs.Finds.{FoundAt};

use board::layout::{
    BOARD_SIZE, BOUNDARY_WIDTH, BOUNDS_AT, COMMITTEE_WIDTH, COMMITTEES_AT, LAST_TARGET,
    MACHINE_WIDTH, MACHINES_AT, MOST_BOUNDS, MOST_COMMITTEES, MOST_MACHINES, MOST_RESHAPES,
    RESHAPE_WIDTH, RESHAPES_AT, ROTATIONS_AT,
};
use board::machines;
use reshapes::seats;
use shards::bounds;
use types::{Place, ShardId, ValidatorId};

pub fn is_target(target: ShardId) -> bool
    ensures { result ≡ is_target target.0 }
{
    let t = target.0;
    (1 <= t) & (t <= LAST_TARGET)
}

// The row of the machine, where it has a record.
pub fn find_machine(board: &[u64], id: ValidatorId) -> Option<usize>
    requires { length board.now ≡ board_size }
    ensures room { IfSome result (λ i. i < most_machines) }
    ensures found { (b : Board) → Holds board.now b → well_formed b ≡ true → FoundAt id.0 no_machine b.machines result }
{
    tables::find_row(
        &board[MACHINES_AT..COMMITTEES_AT],
        MACHINE_WIDTH,
        MOST_MACHINES,
        id.0,
    )
}

// The machine's place; one with no record is as good as short of stake, which is neither seated nor ready.
pub fn place_of(board: &[u64], id: ValidatorId) -> Place
    requires { length board.now ≡ board_size }
    ensures { (b : Board) → Holds board.now b → well_formed b ≡ true → (f : declared.Place → Bool) → f Place.Short ≡ false → f result ≡ says f b id.0 }
{
    match find_machine(board, id) {
        Some(i) => {
            let m = machines::at(board, i);
            m.place
        }
        None => Place::Short,
    }
}

// The row of the shard's committee, where there is one.
pub fn find_committee(board: &[u64], shard: ShardId) -> Option<usize>
    requires { length board.now ≡ board_size }
    ensures room { IfSome result (λ i. i < most_committees) }
    ensures found { (b : Board) → Holds board.now b → well_formed b ≡ true → FoundAt shard.0 no_committee b.committees result }
{
    tables::find_row(
        &board[COMMITTEES_AT..BOUNDS_AT],
        COMMITTEE_WIDTH,
        MOST_COMMITTEES,
        shard.0,
    )
}

// The row of the shard's boundary, where there is one.
pub fn find_bound(board: &[u64], shard: ShardId) -> Option<usize>
    requires { length board.now ≡ board_size }
    ensures room { IfSome result (λ i. i < most_bounds) }
    ensures found { (b : Board) → Holds board.now b → well_formed b ≡ true → FoundAt shard.0 no_boundary b.bounds result }
{
    tables::find_row(
        &board[BOUNDS_AT..ROTATIONS_AT],
        BOUNDARY_WIDTH,
        MOST_BOUNDS,
        shard.0,
    )
}

// As `find_bound`, of the shard after the one whose row is i: a child's sibling has the next row, or none.
pub fn find_bound_after(board: &[u64], i: usize, shard: ShardId) -> Option<usize>
    requires { (length board.now ≡ board_size) × (i < most_bounds) }
    ensures room { IfSome result (λ j. j < most_bounds) }
    ensures found { (b : Board) → Holds board.now b → well_formed b ≡ true → i < length b.bounds → (get_or b.bounds i no_boundary).key + 1 ≡ shard.0 →
        FoundAt shard.0 no_boundary b.bounds result }
{
    let j = i + 1;
    if bounds::count(board) <= j {
        return None;
    }
    if MOST_BOUNDS <= j {
        return None;
    }
    let next = bounds::shard_at(board, j);
    if next.0 == shard.0 {
        return Some(j);
    }
    None
}

// The same, where the shard before was looked for and may have no row.
pub fn find_bound_beside(board: &[u64], before: Option<usize>, shard: ShardId) -> Option<usize>
    requires { length board.now ≡ board_size }
    ensures room { IfSome result (λ j. j < most_bounds) }
    ensures found { (b : Board) → Holds board.now b → well_formed b ≡ true → (s : Shard) → FoundAt s no_boundary b.bounds before → s + 1 ≡ shard.0 →
        FoundAt shard.0 no_boundary b.bounds result }
{
    match before {
        Some(i) if i < MOST_BOUNDS => find_bound_after(board, i, shard),
        _ => find_bound(board, shard),
    }
}

// The row of the target's reshape, where there is one.
pub fn find_reshape(board: &[u64], target: ShardId) -> Option<usize>
    requires { length board.now ≡ board_size }
    ensures room { IfSome result (λ i. i < most_reshapes) }
    ensures found { (b : Board) → Holds board.now b → well_formed b ≡ true → FoundAt target.0 no_reshape b.reshapes result }
{
    tables::find_among_few(
        &board[RESHAPES_AT..BOARD_SIZE],
        RESHAPE_WIDTH,
        MOST_RESHAPES,
        target.0,
    )
}

// The row of the machine's seat in the reshape at i, where it has one.
pub fn find_seat(board: &[u64], i: usize, machine: ValidatorId) -> Option<usize>
    requires { (length board.now ≡ board_size) × (i < most_reshapes) }
    ensures room { IfSome result (λ k. k < most_seats) }
    ensures found { (b : Board) → Holds board.now b → well_formed b ≡ true → i < length b.reshapes →
        FoundAt machine.0 no_seat (get_or b.reshapes i no_reshape).val.seats result }
{
    seats::find(board, i, machine)
}
