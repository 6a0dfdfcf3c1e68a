// The keepers of a merge join the parent, by id.
ghost use Rattle.std.specs.Prelude.{◌≡◌, [], true, ◌≤◌, ◌<◌, length, get_or};
ghost use Rattle.std.proofs.Math.Option.{some};
ghost use Rattle.rules.specs.Table as table;
ghost use Rattle.rules.specs.Table.{keys_of};
ghost use Rattle.rules.specs.Board.{Board, most_reshapes, most_seats, last_target};
ghost use Rattle.rules.specs.WellFormed.{is_target, well_formed};
ghost use Rattle.rules.specs.Moves.{for_all};
ghost use Rattle.rules.specs.Cut as cut;
ghost use Rattle.board.specs.Layout.{board_size};
ghost use Rattle.board.specs.Held.{Holds, no_seat};
ghost use Rattle.arriving.specs.Coming.{reshape_in, MayCome};

use board::layout::MOST_SEATS;
use board::{committees, machines};
use reshapes::seats;
use types::ShardId;

// The keeper of seat k, if it is seated on a child, moves to the parent with the seat's ready and its own stamp; others are passed over.
// The parent's committee is looked for at row near first.
fn rejoin(board: &mut [u64], near: usize, i: usize, target: ShardId, k: usize)
    requires { (length board.old ≡ board_size) × (i < most_reshapes) × (target.0 ≤ last_target) × (k < most_seats) }
    ensures { (b : Board) → Holds board.old b → well_formed b ≡ true → i < length b.reshapes → is_target target.0 ≡ true → k < length (reshape_in i b).seats →
        MayCome target.0 (get_or (reshape_in i b).seats k no_seat).key b →
        Holds board.new (cut.rejoin target.0 (reshape_in i b).seats (get_or (reshape_in i b).seats k no_seat).key b) }
{
    let seat = seats::at(board, i, k);
    let Some(row) = rows::find_machine(board, seat.id) else {
        return;
    };
    let machine = machines::at(board, row);
    let p = machine.place;
    let on_left = p.is_seated_on(target.left());
    let on_right = p.is_seated_on(target.right());
    if !(on_left | on_right) {
        return;
    }
    arriving::put_on(board, near, row, target, p.kept_on(target, seat.ready));
}

// All keepers, where the parent's committee is empty.
pub fn rejoin_all(board: &mut [u64], i: usize, target: ShardId)
    requires { (length board.old ≡ board_size) × (i < most_reshapes) × (target.0 ≤ last_target) }
    ensures { (b : Board) → Holds board.old b → well_formed b ≡ true → i < length b.reshapes → is_target target.0 ≡ true →
        table.at target.0 b.committees ≡ some [] →
        Holds board.new (for_all (cut.rejoin target.0 (reshape_in i b).seats) (keys_of (reshape_in i b).seats) b) }
{
    let near = committees::place_of(board, target);
    let n = steps::rows_within(seats::count(board, i), MOST_SEATS);
    for k in 0..n {
        rejoin(board, near, i, target, k);
    }
}
