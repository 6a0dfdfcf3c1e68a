// What the steps on rotations ask of a board.
ghost use Rattle.std.specs.Prelude.{◌≡◌, true, ◌≤◌, ◌<◌, length, get_or};
ghost use Rattle.rules.specs.Lists.{count};
ghost use Rattle.rules.specs.Board.{Board, split, most_rotations};
ghost use Rattle.rules.specs.WellFormed.{well_formed};
ghost use Rattle.rules.specs.Moves.{reshape_at};
ghost use Rattle.board.specs.Layout.{board_size};
ghost use Rattle.board.specs.Held.{Holds, no_rotation};
ghost use Rattle.committee.specs.Counted.{counts};

use reshapes::fields;
use shards::rotations;
use types::ShardId;

// Which of a shard's rotations are counted.
#[derive(Clone, Copy)]
pub enum Counted {
    Open,
    InFlight,
}

pub fn is_splitting(board: &[u64], shard: ShardId) -> bool
    requires { length board.now ≡ board_size }
    ensures { (b : Board) → Holds board.now b → well_formed b ≡ true → result ≡ reshape_at split shard.0 b }
{
    match rows::find_reshape(board, shard) {
        Some(i) => !fields::is_merge(board, i),
        None => false,
    }
}

fn counts_at(board: &[u64], which: Counted, shard: ShardId, i: usize) -> bool
    requires { (length board.now ≡ board_size) × (i < most_rotations) }
    ensures { (b : Board) → Holds board.now b → well_formed b ≡ true → i < length b.rotations →
        result ≡ counts which shard.0 b (get_or b.rotations i no_rotation) }
{
    let r = rotations::at(board, i);
    if r.shard != shard {
        return false;
    }
    match which {
        Counted::Open => true,
        Counted::InFlight => { !rows::place_of(board, r.entrant).is_ready() }
    }
}

pub fn rotations_on(board: &[u64], which: Counted, shard: ShardId) -> usize
    requires { length board.now ≡ board_size }
    ensures { (result ≤ most_rotations) × ((b : Board) → Holds board.now b → well_formed b ≡ true →
        result ≡ count (counts which shard.0 b) b.rotations) }
{
    let n = rotations::rows(board);
    let mut k: usize = 0;
    for i in 0..n {
        k += usize::from(counts_at(board, which, shard, i));
    }
    k
}
