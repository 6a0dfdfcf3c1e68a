// The seat check: whether a board's seats, rotations and reshapes agree with each other.
#![tactic(auto)]

ghost use Rattle.std.specs.Prelude.{◌≡◌, true, ◌+◌, ◌<◌, length, get_or, drop};
ghost use Rattle.rules.specs.Table.{keys_of};
ghost use Rattle.rules.specs.Board.{Board, most_reshapes};
ghost use Rattle.rules.specs.WellFormed.{well_formed};
ghost use Rattle.rules.specs.SeatCheck.{families_apart, reshapes_stand, seat_check};
ghost use Rattle.board.specs.Layout.{board_size};
ghost use Rattle.board.specs.Held.{Holds, no_reshape};
ghost use Rattle.seats.specs.Rows.{is_family_apart, reshape_stands};
ghost use Rattle.seats.specs.Tells.{TellsSeats};

use board::layout::MOST_RESHAPES;
use reshapes::fields;

// Loops that stop at the first row that fails: `all` is no plainer, and its closure would need clauses over the board.

// ---- reshapes

// No reshape after row i has a family that shares a shard with that of the one at i.
fn is_family_apart(board: &[u64], i: usize) -> bool
    requires { (length board.now ≡ board_size) × (i < most_reshapes) }
    ensures { (b : Board) → Holds board.now b → i < length b.reshapes → result ≡ is_family_apart (get_or b.reshapes i no_reshape) (drop (i + 1) b.reshapes) }
{
    let target = fields::target_at(board, i);
    let n = steps::rows_within(fields::count(board), MOST_RESHAPES);
    for k in i + 1..n {
        if families::overlaps(target, fields::target_at(board, k)) {
            return false;
        }
    }
    true
}

fn families_apart(board: &[u64]) -> bool
    requires { length board.now ≡ board_size }
    ensures { (b : Board) → Holds board.now b → result ≡ families_apart (keys_of b.reshapes) }
{
    let n = steps::rows_within(fields::count(board), MOST_RESHAPES);
    for i in 0..n {
        if !is_family_apart(board, i) {
            return false;
        }
    }
    true
}

// The reshape at i has the committees, gaps and boundaries that its admission asks for.
pub fn reshape_stands(board: &[u64], i: usize) -> bool
    requires { (length board.now ≡ board_size) × (i < most_reshapes) }
    ensures { (b : Board) → Holds board.now b → well_formed b ≡ true → i < length b.reshapes → result ≡ reshape_stands b (get_or b.reshapes i no_reshape) }
{
    let target = fields::target_at(board, i);
    if !rows::is_target(target) {
        return false;
    }
    let merging = fields::is_merge(board, i);
    families::committees_fit(board, merging, target)
        & families::bounds_stand(board, merging, target)
}

fn reshapes_stand(board: &[u64]) -> bool
    requires { length board.now ≡ board_size }
    ensures { (b : Board) → Holds board.now b → well_formed b ≡ true → result ≡ reshapes_stand b }
{
    let n = steps::rows_within(fields::count(board), MOST_RESHAPES);
    for i in 0..n {
        if !reshape_stands(board, i) {
            return false;
        }
    }
    true
}

// ---- the check

// Of words known to hold a well-formed board.
pub fn seat_check_held(board: &[u64]) -> bool
    requires { length board.now ≡ board_size }
    ensures { (b : Board) → Holds board.now b → well_formed b ≡ true → result ≡ seat_check b }
{
    occupancy::members_are_there(board)
        & occupancy::machines_are_listed(board)
        & occupancy::cohorts_watch(board)
        & parties::rotations_fit(board)
        & carved::scheduled_fit(board)
        & families_apart(board)
        & reshapes_stand(board)
}

// Of any words: whether they hold a board that passes.
pub fn seat_check(board: &[u64]) -> bool
    ensures { TellsSeats board.now result }
{
    if !wellformed::well_formed(board) {
        return false;
    }
    seat_check_held(board)
}
