// A child's committee filled: its half in order, then the seats of its cohort by id.
ghost use Rattle.std.specs.Prelude.{◌≡◌, ◌≢◌, [], ◌∷◌, true, ◌+◌, ◌≤◌, ◌<◌, length};
ghost use Rattle.std.proofs.Math.Option.{some};
ghost use Rattle.types.specs.Numbers.{Id};
ghost use Rattle.rules.specs.Table as table;
ghost use Rattle.rules.specs.Board.{Board, most_reshapes, most_seats, most_half, last_target};
ghost use Rattle.rules.specs.WellFormed.{is_target, well_formed};
ghost use Rattle.rules.specs.Moves.{for_all};
ghost use Rattle.rules.specs.Cut as cut;
ghost use Rattle.rules.specs.Cut.{settle_child};
ghost use Rattle.board.specs.Layout.{board_size};
ghost use Rattle.board.specs.Held.{Holds};
ghost use Rattle.reshapes.specs.Changes.{half_of};
ghost use Rattle.arriving.specs.Coming.{reshape_in, MayCome};
ghost use Rattle.cut_splits.specs.Settled.{child_of, turn_of};

use super::halves;
use board::layout::MOST_SEATS;
use board::{committees, machines, settings};
use reshapes::{Side, seats};
use types::{ShardId, ValidatorId};

// One seated on the target moves; one that observes and has a seat is seated, stamped now; others are passed over.
// The child's committee is looked for at row near first.
fn settle(
    board: &mut [u64],
    near: usize,
    i: usize,
    target: ShardId,
    child: ShardId,
    id: ValidatorId,
)
    requires { (length board.old ≡ board_size) × (i < most_reshapes) }
    ensures { (b : Board) → Holds board.old b → well_formed b ≡ true → i < length b.reshapes → child.0 ≢ target.0 → MayCome child.0 id.0 b →
        Holds board.new (cut.settle target.0 child.0 (reshape_in i b).seats id.0 b) }
{
    let Some(row) = rows::find_machine(board, id) else {
        return;
    };
    let machine = machines::at(board, row);
    let p = machine.place;
    if p.is_seated_on(target) {
        arriving::put_on(board, near, row, child, p.moved_to(child));
        return;
    }
    let Some(k) = rows::find_seat(board, i, id) else {
        return;
    };
    if !p.is_observing() {
        return;
    }
    let seat = seats::at(board, i, k);
    let epoch = settings::epoch(board);
    let placed = p.seated_from_watch(child, seat.ready, epoch);
    arriving::put_on(board, near, row, child, placed);
}

// Turn k of the child: n are in its half.
fn settle_next(
    board: &mut [u64],
    near: usize,
    i: usize,
    target: ShardId,
    child: ShardId,
    side: Side,
    n: usize,
    k: usize,
)
    requires { (length board.old ≡ board_size) × (i < most_reshapes) × (n ≤ most_half) × (k < n + most_seats) }
    ensures { (b : Board) → Holds board.old b → well_formed b ≡ true → i < length b.reshapes → child.0 ≢ target.0 →
        n ≡ length (half_of side (reshape_in i b)) → k < n + length (reshape_in i b).seats →
        ((x : Id) → turn_of child.0 (half_of side (reshape_in i b)) (reshape_in i b).seats k ≡ x ∷ [] → MayCome child.0 x b) →
        Holds board.new (for_all (cut.settle target.0 child.0 (reshape_in i b).seats) (turn_of child.0 (half_of side (reshape_in i b)) (reshape_in i b).seats k) b) }
{
    if k < n {
        let id = reshapes::halves::at(board, i, side, k);
        settle(board, near, i, target, child, id);
        return;
    }
    let seat = seats::at(board, i, k - n);
    if seat.child == child {
        settle(board, near, i, target, child, seat.id);
    }
}

fn child_of(target: ShardId, side: Side) -> ShardId
    requires { target.0 ≤ last_target }
    ensures { result.0 ≡ child_of side target.0 }
{
    match side {
        Side::Left => target.left(),
        Side::Right => target.right(),
    }
}

// All of a child, whose committee is empty.
pub fn settle_child(board: &mut [u64], i: usize, target: ShardId, side: Side)
    requires { (length board.old ≡ board_size) × (i < most_reshapes) × (target.0 ≤ last_target) }
    ensures { (b : Board) → Holds board.old b → well_formed b ≡ true → i < length b.reshapes → is_target target.0 ≡ true →
        table.at (child_of side target.0) b.committees ≡ some [] →
        Holds board.new (settle_child target.0 (child_of side target.0) (half_of side (reshape_in i b)) (reshape_in i b).seats b) }
{
    let child = child_of(target, side);
    let near = committees::place_of(board, child);
    let n = halves::half_count(board, i, side);
    let total = n + steps::rows_within(seats::count(board, i), MOST_SEATS);
    for k in 0..total {
        settle_next(board, near, i, target, child, side, n, k);
    }
}
