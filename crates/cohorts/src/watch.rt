// A cohort set to watch: each id observes the target, joins its committee and has a seat for a child.
ghost use Rattle.std.specs.Prelude.{◌≡◌, [], ◌∷◌, true, cond, ◌<◌, ◌≤◌, length, get_or};
ghost use Rattle.std.proofs.Math.Option.{none};
ghost use Rattle.types.specs.Shards.{left_of, right_of};
ghost use Rattle.types.specs.Places.{set_to_watch};
ghost use Rattle.rules.specs.Lists.{is_empty};
ghost use Rattle.rules.specs.Table.{at, put, update};
ghost use Rattle.rules.specs.Board.{Board, most_reshapes, most_seats, on_reshapes, epoch_of, size_of};
ghost use Rattle.rules.specs.WellFormed.{good_ids, well_formed};
ghost use Rattle.rules.specs.Moves as moves;
ghost use Rattle.rules.specs.Moves.{place, may_join, new_seat, with_seats};
ghost use Rattle.rules.specs.Reshapes.{watch_all};
ghost use Rattle.tables.specs.Rows.{Rising, key_of};
ghost use Rattle.board.specs.Layout.{board_size};
ghost use Rattle.board.specs.Held.{Holds, no_reshape};

use board::layout::MOST_SEATS;
use board::{machines, settings};
use reshapes::seats;
use reshapes::seats::Seat;
use types::{ShardId, ValidatorId};

// It observes the target, stamped now, where it has a record.
fn set_to_watch(board: &mut [u64], target: ShardId, id: ValidatorId)
    requires { length board.old ≡ board_size }
    ensures { (b : Board) → Holds board.old b → well_formed b ≡ true → Holds board.new (place id.0 (set_to_watch target.0 (epoch_of b)) b) }
{
    let Some(i) = rows::find_machine(board, id) else {
        return;
    };
    let place = machines::at(board, i).place;
    let epoch = settings::epoch(board);
    joining::put_place(board, i, place.set_to_watch(target, epoch));
}

// A seat, not ready, for one that has none in the reshape at i.
fn open_seat(board: &mut [u64], i: usize, child: ShardId, id: ValidatorId)
    requires { (length board.old ≡ board_size) × (i < most_reshapes) }
    ensures { (b : Board) → Holds board.old b → Rising key_of b.reshapes → i < length b.reshapes → Rising key_of (get_or b.reshapes i no_reshape).val.seats →
        length (get_or b.reshapes i no_reshape).val.seats < most_seats → at id.0 (get_or b.reshapes i no_reshape).val.seats ≡ none →
        Holds board.new (on_reshapes (update (get_or b.reshapes i no_reshape).key (with_seats (put id.0 (new_seat child.0)))) b) }
{
    let k = seats::place_of(board, i, id);
    if MOST_SEATS <= k {
        return;
    }
    let seat = Seat {
        id,
        child,
        ready: false,
    };
    seats::open(board, i, k, seat);
}

// The id watches the target, whose reshape stands at i.
fn watch(board: &mut [u64], i: usize, target: ShardId, child: ShardId, id: ValidatorId)
    requires { (length board.old ≡ board_size) × (i < most_reshapes) }
    ensures { (b : Board) → Holds board.old b → well_formed b ≡ true → i < length b.reshapes → (get_or b.reshapes i no_reshape).key ≡ target.0 →
        may_join target.0 (id.0 ∷ []) b ≡ true → length (get_or b.reshapes i no_reshape).val.seats < most_seats → at id.0 (get_or b.reshapes i no_reshape).val.seats ≡ none →
        Holds board.new (moves.watch target.0 child.0 id.0 b) }
{
    set_to_watch(board, target, id);
    joining::join(board, target, id);
    open_seat(board, i, child, id);
}

fn child_of(target: ShardId, left: bool) -> ShardId
    requires { target.0 ≤ 65535 }
    ensures { result.0 ≡ cond left (left_of target.0) (right_of target.0) }
{
    if left { target.left() } else { target.right() }
}

// S, as many as a cohort has, and no more than there is room for.
pub fn cohort_size(board: &[u64]) -> usize
    requires { length board.now ≡ board_size }
    ensures { (result ≤ most_seats) × ((b : Board) → Holds board.now b → well_formed b ≡ true → result ≡ size_of b) }
{
    steps::rows_within(settings::shard_size(board) as usize, MOST_SEATS)
}

// The ids watch the target: the first of them, half of S rounded up, for the left child, and the rest for the right.
pub fn watch_all(board: &mut [u64], i: usize, target: ShardId, ids: &[u64])
    requires { (length board.old ≡ board_size) × (i < most_reshapes) × (target.0 ≤ 65535) }
    ensures { (b : Board) → Holds board.old b → well_formed b ≡ true → i < length b.reshapes → (get_or b.reshapes i no_reshape).key ≡ target.0 →
        is_empty (get_or b.reshapes i no_reshape).val.seats ≡ true → good_ids most_seats ids.now ≡ true → may_join target.0 ids.now b ≡ true →
        Holds board.new (watch_all target.0 ids.now b) }
{
    let size = cohort_size(board);
    let half = (size + 1) / 2;
    for (k, id) in ids.iter().enumerate() {
        let child = child_of(target, k < half);
        watch(board, i, target, child, ValidatorId(*id));
    }
}
