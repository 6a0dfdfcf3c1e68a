// Abort: the entrants of a shard's rotations leave it, and the rotations go.
ghost use Rattle.std.specs.Prelude.{◌≡◌, true, ◌<◌, length, get_or};
ghost use Rattle.rules.specs.Board.{Board, most_rotations};
ghost use Rattle.rules.specs.WellFormed.{well_formed};
ghost use Rattle.rules.specs.Moves.{abort_rotations};
ghost use Rattle.board.specs.Layout.{board_size};
ghost use Rattle.board.specs.Held.{Holds, no_rotation};
ghost use Rattle.committee.specs.Aborted.{entrant_left};

use moves::Exit;
use shards::rotations;
use types::ShardId;

// The entrant of the rotation at row i leaves, where the rotation is the shard's.
fn take_off_entrant(board: &mut [u64], shard: ShardId, i: usize)
    requires { (length board.old ≡ board_size) × (i < most_rotations) }
    ensures { (b : Board) → Holds board.old b → well_formed b ≡ true → i < length b.rotations →
        Holds board.new (entrant_left shard.0 (get_or b.rotations i no_rotation) b) }
{
    let r = rotations::at(board, i);
    if r.shard == shard {
        moves::take_off(board, Exit::FromSeat(shard), shard, r.entrant);
    }
}

pub fn abort_rotations(board: &mut [u64], shard: ShardId)
    requires { length board.old ≡ board_size }
    ensures { (b : Board) → Holds board.old b → well_formed b ≡ true → Holds board.new (abort_rotations shard.0 b) }
{
    let n = rotations::rows(board);
    for i in 0..n {
        take_off_entrant(board, shard, i);
    }
    rotations::drop_of(board, shard);
}
