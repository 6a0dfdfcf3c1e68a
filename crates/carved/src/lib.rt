// Scheduled splits: no rotation on the target, and each machine seated there in exactly one half.
#![tactic(auto)]

ghost use Rattle.std.specs.Prelude.{◌≡◌, true, not, ◌<◌, length, get_or};
ghost use Rattle.rules.specs.Lists.{every, any};
ghost use Rattle.rules.specs.Board.{Board, most_reshapes};
ghost use Rattle.rules.specs.WellFormed.{well_formed};
ghost use Rattle.rules.specs.Moves.{is_on};
ghost use Rattle.rules.specs.SeatCheck.{is_in_one_half, scheduled_fit};
ghost use Rattle.board.specs.Layout.{board_size};
ghost use Rattle.board.specs.Held.{Holds, no_reshape};
ghost use Rattle.board.specs.Leaves.{machine_entry};
ghost use Rattle.carved.specs.Rows.{split_fits};

use board::layout::{MOST_MACHINES, MOST_RESHAPES};
use board::machines;
use reshapes::{Side, fields, halves};
use shards::rotations;
use types::{Machine, ShardId};

// Loops that stop at the first row that fails: `all` is no plainer, and its closure would need clauses over the board.

// ---- halves

// A machine seated on the target is in one half of the split at i.
pub fn is_in_one_half(board: &[u64], i: usize, target: ShardId, m: Machine) -> bool
    requires { (length board.now ≡ board_size) × (i < most_reshapes) }
    ensures { (b : Board) → Holds board.now b → i < length b.reshapes →
        result ≡ is_in_one_half target.0 (get_or b.reshapes i no_reshape).val (machine_entry m) }
{
    if !m.place.is_seated_on(target) {
        return true;
    }
    let is_left = halves::contains(board, i, Side::Left, m.id);
    let is_right = halves::contains(board, i, Side::Right, m.id);
    is_left != is_right
}

fn halves_fit(board: &[u64], i: usize, target: ShardId) -> bool
    requires { (length board.now ≡ board_size) × (i < most_reshapes) }
    ensures { (b : Board) → Holds board.now b → i < length b.reshapes →
        result ≡ every (is_in_one_half target.0 (get_or b.reshapes i no_reshape).val) b.machines }
{
    let n = steps::rows_within(machines::count(board), MOST_MACHINES);
    for k in 0..n {
        if !is_in_one_half(board, i, target, machines::at(board, k)) {
            return false;
        }
    }
    true
}

// ---- rotations

// No rotation is on the shard.
fn is_at_rest(board: &[u64], shard: ShardId) -> bool
    requires { length board.now ≡ board_size }
    ensures { (b : Board) → Holds board.now b → result ≡ not (any (is_on shard.0) b.rotations) }
{
    let n = rotations::rows(board);
    for i in 0..n {
        let r = rotations::at(board, i);
        if r.shard == shard {
            return false;
        }
    }
    true
}

// ---- both

fn split_fits(board: &[u64], i: usize) -> bool
    requires { (length board.now ≡ board_size) × (i < most_reshapes) }
    ensures { (b : Board) → Holds board.now b → well_formed b ≡ true → i < length b.reshapes → result ≡ split_fits b (get_or b.reshapes i no_reshape) }
{
    if fields::is_merge(board, i) {
        return true;
    }
    if !fields::is_scheduled(board, i) {
        return true;
    }
    let target = fields::target_at(board, i);
    is_at_rest(board, target) & halves_fit(board, i, target)
}

pub fn scheduled_fit(board: &[u64]) -> bool
    requires { length board.now ≡ board_size }
    ensures { (b : Board) → Holds board.now b → well_formed b ≡ true → result ≡ scheduled_fit b }
{
    let n = steps::rows_within(fields::count(board), MOST_RESHAPES);
    for i in 0..n {
        if !split_fits(board, i) {
            return false;
        }
    }
    true
}
