// A reshape admitted, and the seats of its keepers.
ghost use Rattle.std.specs.Prelude.{◌≡◌, true, [], ◌+◌, ◌<◌, ◌≤◌, length, get_or};
ghost use Rattle.std.proofs.Math.Option.{none};
ghost use Rattle.rules.specs.Table.{at, put};
ghost use Rattle.rules.specs.Board.{Board, most_reshapes, most_seats};
ghost use Rattle.rules.specs.WellFormed.{well_formed};
ghost use Rattle.rules.specs.Moves.{new_seat};
ghost use Rattle.rules.specs.Reshapes.{seat_all};
ghost use Rattle.tables.specs.Rows.{Rising, key_of};
ghost use Rattle.board.specs.Layout.{board_size};
ghost use Rattle.board.specs.Held.{Holds, no_reshape};
ghost use Rattle.reshapes.specs.Changes.{kind_of};
ghost use Rattle.admissions.specs.Seated.{row_for, opened, with_seats_at};

use board::layout::{MOST_RESHAPES, MOST_SEATS};
use board::settings;
use reshapes::seats::Seat;
use reshapes::{fields, seats};
use types::{ShardId, ValidatorId};

// The target's reshape, with no seats yet; its row.
pub fn open_reshape(board: &mut [u64], merging: bool, target: ShardId) -> usize
    requires { length board.old ≡ board_size }
    ensures { (result < most_reshapes) × ((b : Board) → Holds board.old b → well_formed b ≡ true → length b.reshapes < most_reshapes → at target.0 b.reshapes ≡ none →
        Holds board.new (opened (kind_of merging) target.0 [] b) × (result ≡ row_for target.0 b)) }
{
    let i = fields::place_of(board, target);
    if MOST_RESHAPES <= i {
        return 0;
    }
    let epoch = settings::epoch(board);
    fields::open(board, i, target, merging, epoch);
    i
}

// A seat for the machine, made or replaced.
fn put_seat(board: &mut [u64], i: usize, child: ShardId, id: ValidatorId)
    requires { (length board.old ≡ board_size) × (i < most_reshapes) }
    ensures { (b : Board) → Holds board.old b → i < length b.reshapes → Rising key_of (get_or b.reshapes i no_reshape).val.seats →
        length (get_or b.reshapes i no_reshape).val.seats < most_seats →
        Holds board.new (with_seats_at i (put id.0 (new_seat child.0) (get_or b.reshapes i no_reshape).val.seats) b) }
{
    let seat = Seat {
        id,
        child,
        ready: false,
    };
    let k = seats::place_of(board, i, id);
    if MOST_SEATS <= k {
        return;
    }
    if seats::count(board, i) <= k {
        seats::open(board, i, k, seat);
        return;
    }
    if seats::at(board, i, k).id == id {
        seats::put(board, i, k, seat);
        return;
    }
    seats::open(board, i, k, seat);
}

// Seats for a child's keepers, one after another.
pub fn seat_all(board: &mut [u64], i: usize, child: ShardId, ids: &[u64])
    requires { (length board.old ≡ board_size) × (i < most_reshapes) }
    ensures { (b : Board) → Holds board.old b → i < length b.reshapes → Rising key_of (get_or b.reshapes i no_reshape).val.seats →
        length (get_or b.reshapes i no_reshape).val.seats + length ids.now ≤ most_seats →
        Holds board.new (with_seats_at i (seat_all child.0 ids.now (get_or b.reshapes i no_reshape).val.seats) b) }
{
    for k in 0..ids.len() {
        put_seat(board, i, child, ValidatorId(ids[k]));
    }
}
