// The halves of a scheduled split, each by its side.
ghost use Rattle.std.specs.Prelude.{◌≡◌, true, ◌≤◌, ◌<◌, length};
ghost use Rattle.rules.specs.Lists.{every};
ghost use Rattle.rules.specs.Table.{stands};
ghost use Rattle.rules.specs.Board.{Board, most_reshapes, most_half};
ghost use Rattle.rules.specs.WellFormed.{well_formed};
ghost use Rattle.board.specs.Layout.{board_size};
ghost use Rattle.board.specs.Held.{Holds};
ghost use Rattle.reshapes.specs.Changes.{half_of};
ghost use Rattle.arriving.specs.Coming.{reshape_in};

use board::layout::MOST_HALF;
use reshapes::{Side, halves};

pub fn half_count(board: &[u64], i: usize, side: Side) -> usize
    requires { (length board.now ≡ board_size) × (i < most_reshapes) }
    ensures { (result ≤ most_half) × ((b : Board) → Holds board.now b → well_formed b ≡ true → i < length b.reshapes → result ≡ length (half_of side (reshape_in i b))) }
{
    steps::rows_within(halves::count(board, i, side), MOST_HALF)
}

// Every machine of a half has a record.
pub fn half_recorded(board: &[u64], i: usize, side: Side) -> bool
    requires { (length board.now ≡ board_size) × (i < most_reshapes) }
    ensures { (b : Board) → Holds board.now b → well_formed b ≡ true → i < length b.reshapes →
        result ≡ every (λ x. stands x b.machines) (half_of side (reshape_in i b)) }
{
    let n = half_count(board, i, side);
    for k in 0..n {
        if rows::find_machine(board, halves::at(board, i, side, k)).is_none() {
            return false;
        }
    }
    true
}
