// A split's halves: whether each reaches quorum, and both stored with the terminal.
#![tactic(auto)]

ghost use Rattle.std.specs.Prelude.{◌≡◌, ◌++◌, true, ◌+◌, ◌<◌, ◌≤◌, leb, length, get_or, IfSome};
ghost use Rattle.types.specs.Shards.{quorum};
ghost use Rattle.types.specs.Places.{is_ready};
ghost use Rattle.rules.specs.Lists.{count};
ghost use Rattle.rules.specs.Board.{Board, most_members, most_reshapes, most_half, last_target, on_reshapes, size_of};
ghost use Rattle.rules.specs.WellFormed.{well_formed};
ghost use Rattle.rules.specs.Moves.{says};
ghost use Rattle.rules.specs.Reshapes.{half_up};
ghost use Rattle.rules.specs.Schedule.{scheduled, ready_for, split_gate};
ghost use Rattle.board.specs.Layout.{board_size};
ghost use Rattle.board.specs.Held.{Holds, no_reshape};
ghost use Rattle.board.specs.Leaves.{change_at};
ghost use Rattle.reshapes.specs.Changes.{half_of, with_half};
ghost use Rattle.drains.specs.Plans.{RowOf};
ghost use Rattle.halving.specs.Gate.{lefts, rights, Gate};

use drains::Whose;
use reshapes::{Side, halves};
use types::{ShardId, ValidatorId};

// The left half has n/2, rounded up.
fn left_size(ids: &[u64]) -> usize
    ensures { result ≡ half_up (length ids.now) }
{
    (ids.len() + 1) / 2
}

// ---- the gate

fn ready_members(board: &[u64], ids: &[u64]) -> usize
    requires { length board.now ≡ board_size }
    ensures { (result ≤ length ids.now) × ((b : Board) → Holds board.now b → well_formed b ≡ true → result ≡ count (says is_ready b) ids.now) }
{
    let mut ready: usize = 0;
    for id in ids {
        let p = rows::place_of(board, ValidatorId(*id));
        ready += usize::from(p.is_ready());
    }
    ready
}

// The half's ready members and the child's ready seats reach quorum.
fn is_half_ready(board: &[u64], i: usize, child: ShardId, half: &[u64]) -> bool
    requires { (length board.now ≡ board_size) × (i < most_reshapes) × (length half.now ≤ most_members) }
    ensures { (b : Board) → Holds board.now b → well_formed b ≡ true → i < length b.reshapes →
        result ≡ leb (quorum (size_of b)) (ready_for child.0 half.now (get_or b.reshapes i no_reshape).val b) }
{
    let members = ready_members(board, half);
    let seats = drains::ready_seats(board, i, Whose::Of(child));
    drains::reaches_quorum(board, members + seats)
}

// Each half by itself.
fn passes_gate(board: &[u64], target: ShardId, i: usize, ids: &[u64]) -> bool
    requires { (length board.now ≡ board_size) × (i < most_reshapes) × (target.0 ≤ last_target) × (length ids.now ≤ most_members) }
    ensures { (b : Board) → Holds board.now b → well_formed b ≡ true → i < length b.reshapes →
        result ≡ split_gate target.0 (lefts ids.now) (rights ids.now) (get_or b.reshapes i no_reshape).val b }
{
    let n = left_size(ids);
    let left = is_half_ready(board, i, target.left(), &ids[..n]);
    left & is_half_ready(board, i, target.right(), &ids[n..])
}

// The row of the target's reshape, where there is one that passes the gate.
pub fn find_gated(board: &[u64], target: ShardId, ids: &[u64]) -> Option<usize>
    requires { (length board.now ≡ board_size) × (length ids.now ≤ most_members) }
    ensures room { IfSome result (λ i. (i < most_reshapes) × (target.0 ≤ last_target)) }
    ensures gate { (b : Board) → Holds board.now b → well_formed b ≡ true → Gate target.0 ids.now b result }
{
    if !rows::is_target(target) {
        return None;
    }
    let i = rows::find_reshape(board, target)?;
    if passes_gate(board, target, i, ids) {
        return Some(i);
    }
    None
}

// ---- halves stored

fn store_half(board: &mut [u64], i: usize, side: Side, half: &[u64])
    requires { (length board.old ≡ board_size) × (i < most_reshapes) }
    ensures { (b : Board) → Holds board.old b → i < length b.reshapes → length (half_of side (get_or b.reshapes i no_reshape).val) + length half.now ≤ most_half →
        Holds board.new (on_reshapes (change_at no_reshape i (with_half side (λ l. l ++ half.now))) b) }
{
    for id in half {
        halves::push(board, i, side, ValidatorId(*id));
    }
}

// The reshape at i gets its terminal and its halves.
pub fn schedule(board: &mut [u64], target: ShardId, i: usize, ids: &[u64])
    requires { (length board.old ≡ board_size) × (i < most_reshapes) × (target.0 ≤ last_target) × (length ids.now ≤ most_members) }
    ensures { (b : Board) → Holds board.old b → well_formed b ≡ true → RowOf target.0 i b →
        Holds board.new (scheduled target.0 (get_or b.reshapes i no_reshape).val (lefts ids.now) (rights ids.now) b) }
{
    let n = left_size(ids);
    drains::schedule(board, target, i);
    store_half(board, i, Side::Left, &ids[..n]);
    store_half(board, i, Side::Right, &ids[n..]);
}
