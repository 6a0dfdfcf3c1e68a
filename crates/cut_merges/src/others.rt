// The members of a child who are no keepers go to the pool.
ghost use Rattle.std.specs.Prelude.{◌≡◌, true, ◌<◌, length, get_or};
ghost use Rattle.rules.specs.Board.{Board, most_committees, most_members, most_reshapes};
ghost use Rattle.rules.specs.WellFormed.{well_formed};
ghost use Rattle.rules.specs.Moves.{members_of, for_all};
ghost use Rattle.board.specs.Layout.{board_size};
ghost use Rattle.board.specs.Held.{Holds, no_committee};
ghost use Rattle.arriving.specs.Coming.{reshape_in};
ghost use Rattle.cut_merges.specs.Merged.{pooled_unless};

use board::committees;
use board::layout::MOST_MEMBERS;
use moves::Exit;
use types::ShardId;

// Member k of the committee at row j.
fn pool_other(board: &mut [u64], i: usize, j: usize, k: usize)
    requires { (length board.old ≡ board_size) × (i < most_reshapes) × (j < most_committees) × (k < most_members) }
    ensures { (b : Board) → Holds board.old b → well_formed b ≡ true → i < length b.reshapes → j < length b.committees →
        k < length (get_or b.committees j no_committee).val →
        Holds board.new (pooled_unless (reshape_in i b).seats (get_or (get_or b.committees j no_committee).val k 0) b) }
{
    let id = committees::member_at(board, j, k);
    if rows::find_seat(board, i, id).is_some() {
        return;
    }
    moves::place(board, Exit::Anyhow, id);
}

pub fn pool_others(board: &mut [u64], i: usize, child: ShardId)
    requires { (length board.old ≡ board_size) × (i < most_reshapes) }
    ensures { (b : Board) → Holds board.old b → well_formed b ≡ true → i < length b.reshapes →
        Holds board.new (for_all (pooled_unless (reshape_in i b).seats) (members_of child.0 b) b) }
{
    let Some(j) = rows::find_committee(board, child) else {
        return;
    };
    let n = steps::rows_within(committees::member_count(board, j), MOST_MEMBERS);
    for k in 0..n {
        pool_other(board, i, j, k);
    }
}
