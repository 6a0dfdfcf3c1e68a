// The parties of a shard's rotations: seated there, and no machine twice.
#![tactic(auto)]

ghost use Rattle.std.specs.Prelude.{◌≡◌, true, ◌+◌, ◌<◌, length, get_or, drop};
ghost use Rattle.types.specs.Places.{is_seated_on};
ghost use Rattle.rules.specs.Board.{Board, most_rotations};
ghost use Rattle.rules.specs.WellFormed.{well_formed};
ghost use Rattle.rules.specs.Moves.{says};
ghost use Rattle.rules.specs.SeatCheck.{rotations_fit};
ghost use Rattle.board.specs.Layout.{board_size};
ghost use Rattle.board.specs.Held.{Holds, no_rotation};
ghost use Rattle.shards.specs.Rotations.{rotation_of};
ghost use Rattle.parties.specs.Pairs.{share_party, apart, fits_before};

use shards::rotations;
use shards::rotations::Rotation;
use types::{ShardId, ValidatorId};

// Two rotations of one shard, and a machine that is a party of both.
pub fn share_party(p: Rotation, q: Rotation) -> bool
    ensures { result ≡ share_party (rotation_of p) (rotation_of q) }
{
    let has_victim = (q.victim == p.victim) | (q.entrant == p.victim);
    let has_entrant = (q.victim == p.entrant) | (q.entrant == p.entrant);
    (q.shard == p.shard) & (has_victim | has_entrant)
}

// Loops that stop at the first row that fails: `all` is no plainer, and its closure would need clauses over the board.

// No rotation after row i shares a party with the one given.
fn is_apart(board: &[u64], i: usize, p: Rotation) -> bool
    requires { (length board.now ≡ board_size) × (i < most_rotations) }
    ensures { (b : Board) → Holds board.now b → result ≡ apart (rotation_of p) (drop (i + 1) b.rotations) }
{
    let n = rotations::rows(board);
    for k in i + 1..n {
        if share_party(p, rotations::at(board, k)) {
            return false;
        }
    }
    true
}

pub fn sits_on(board: &[u64], shard: ShardId, id: ValidatorId) -> bool
    requires { length board.now ≡ board_size }
    ensures { (b : Board) → Holds board.now b → well_formed b ≡ true → result ≡ says (is_seated_on shard.0) b id.0 }
{
    rows::place_of(board, id).is_seated_on(shard)
}

// The rotation at i: two parties, of no later rotation there, and both seated there.
fn parties_fit(board: &[u64], i: usize) -> bool
    requires { (length board.now ≡ board_size) × (i < most_rotations) }
    ensures { (b : Board) → Holds board.now b → well_formed b ≡ true → i < length b.rotations →
        result ≡ fits_before b (get_or b.rotations i no_rotation) (drop (i + 1) b.rotations) }
{
    let r = rotations::at(board, i);
    let differ = r.entrant != r.victim;
    let seated = sits_on(board, r.shard, r.victim) & sits_on(board, r.shard, r.entrant);
    differ & (is_apart(board, i, r) & seated)
}

pub fn rotations_fit(board: &[u64]) -> bool
    requires { length board.now ≡ board_size }
    ensures { (b : Board) → Holds board.now b → well_formed b ≡ true → result ≡ rotations_fit b }
{
    let n = rotations::rows(board);
    for i in 0..n {
        if !parties_fit(board, i) {
            return false;
        }
    }
    true
}
