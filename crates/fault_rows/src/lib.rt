// The seat check clause by clause: the rows that each walks, and which of them breaks it next.
#![tactic(auto)]

ghost use Rattle.std.specs.Prelude.{◌≡◌, true, ◌≤◌, ◌<◌, length};
ghost use Rattle.rules.specs.Board.{Board, most_rotations};
ghost use Rattle.rules.specs.WellFormed.{well_formed};
ghost use Rattle.board.specs.Layout.{board_size};
ghost use Rattle.board.specs.Held.{Holds};
ghost use Rattle.fault_rows.specs.Clauses.{rows_outside, rows_inside, first_of, next_fault};

use board::layout::{MOST_COMMITTEES, MOST_RESHAPES, MOST_ROTATIONS};
use board::{committees, machines};
use reshapes::{fields, seats as cohort};
use shards::rotations;

// What breaks a clause: a member that is not there, a machine that no committee or seat lists, a seat whose machine does not
// watch; a rotation whose parties do not sit there, one that shares a party, one at a scheduled split; a machine in no half
// of a scheduled split or in both; a family that overlaps another, a reshape without what its admission asks for.
#[derive(Clone, Copy)]
pub enum Clause {
    StrayMember,
    Unlisted,
    AbsentSeat,
    Unseated,
    SharedParty,
    SplitThere,
    Unhalved,
    Overlapping,
    Unfounded,
}

// A row's number as it is; any other as 0.
fn row_below(i: usize, most: usize) -> usize
    requires { 0 < most }
    ensures { (result < most) × (i < most → result ≡ i) }
{
    if i < most {
        return i;
    }
    0
}

// The four functions have an arm for each clause, as their definitions have: a clause is read across in one order.
pub fn rows_outside(clause: Clause, board: &[u64]) -> usize
    requires { length board.now ≡ board_size }
    ensures { (b : Board) → Holds board.now b → result ≡ rows_outside clause b }
{
    match clause {
        Clause::StrayMember => committees::count(board),
        Clause::Unlisted => 1,
        Clause::AbsentSeat => fields::count(board),
        Clause::Unseated => 1,
        Clause::SharedParty => rotations::count(board),
        Clause::SplitThere => fields::count(board),
        Clause::Unhalved => fields::count(board),
        Clause::Overlapping => fields::count(board),
        Clause::Unfounded => 1,
    }
}

pub fn rows_inside(clause: Clause, board: &[u64], i: usize) -> usize
    requires { length board.now ≡ board_size }
    ensures { (b : Board) → Holds board.now b → i < rows_outside clause b → result ≡ rows_inside clause b i }
{
    match clause {
        Clause::StrayMember => committees::member_count(board, row_below(i, MOST_COMMITTEES)),
        Clause::Unlisted => machines::count(board),
        Clause::AbsentSeat => cohort::count(board, row_below(i, MOST_RESHAPES)),
        Clause::Unseated => rotations::count(board),
        Clause::SharedParty => rotations::count(board),
        Clause::SplitThere => rotations::count(board),
        Clause::Unhalved => machines::count(board),
        Clause::Overlapping => fields::count(board),
        Clause::Unfounded => fields::count(board),
    }
}

// Where the walk inside begins; no clause is asked for more rows outside than there may be rotations.
pub fn first_of(clause: Clause, i: usize) -> usize
    ensures { i < most_rotations → result ≡ first_of clause i }
{
    match clause {
        Clause::StrayMember => 0,
        Clause::Unlisted => 0,
        Clause::AbsentSeat => 0,
        Clause::Unseated => 0,
        Clause::SharedParty => row_below(i, MOST_ROTATIONS) + 1,
        Clause::SplitThere => 0,
        Clause::Unhalved => 0,
        Clause::Overlapping => row_below(i, MOST_ROTATIONS) + 1,
        Clause::Unfounded => 0,
    }
}

pub fn next_fault(clause: Clause, board: &[u64], i: usize, at: usize) -> usize
    requires { length board.now ≡ board_size }
    ensures { (at ≤ result) × ((b : Board) → Holds board.now b → well_formed b ≡ true → i < rows_outside clause b → result ≡ next_fault clause b i at) }
{
    match clause {
        Clause::StrayMember => {
            faults::next_stray_member(board, row_below(i, MOST_COMMITTEES), at)
        }
        Clause::Unlisted => faults::next_unlisted_machine(board, at),
        Clause::AbsentSeat => faults::next_absent_seat(board, row_below(i, MOST_RESHAPES), at),
        Clause::Unseated => faults::next_unseated_rotation(board, at),
        Clause::SharedParty => {
            faults::next_sharing_rotation(board, row_below(i, MOST_ROTATIONS), at)
        }
        Clause::SplitThere => faults::next_rotation_there(board, row_below(i, MOST_RESHAPES), at),
        Clause::Unhalved => faults::next_unhalved_machine(board, row_below(i, MOST_RESHAPES), at),
        Clause::Overlapping => {
            faults::next_overlapping_reshape(board, row_below(i, MOST_RESHAPES), at)
        }
        Clause::Unfounded => faults::next_unfounded_reshape(board, at),
    }
}
