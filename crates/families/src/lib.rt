// What refuses an admission before its draws.
#![tactic(auto)]

ghost use Rattle.std.specs.Prelude.{◌≡◌, true, ◌≤◌, length, OnOk};
ghost use Rattle.rules.specs.Table.{stands};
ghost use Rattle.rules.specs.Board.{Board, last_target};
ghost use Rattle.rules.specs.WellFormed.{well_formed};
ghost use Rattle.rules.specs.Moves as moves;
ghost use Rattle.rules.specs.Moves.{committees_fit, bounds_stand};
ghost use Rattle.rules.specs.Reshapes.{family_free};
ghost use Rattle.board.specs.Layout.{board_size};
ghost use Rattle.board.specs.Held.{Holds};
ghost use Rattle.reshapes.specs.Changes.{kind_of};
ghost use Rattle.families.specs.Faults.{TellsFaults};

use board::layout::MOST_RESHAPES;
use reshapes::fields;
use types::{Answer, ShardId};

// Two families share a shard where one target is the other's or its parent.
pub fn overlaps(t: ShardId, u: ShardId) -> bool
    ensures { result ≡ moves.overlaps t.0 u.0 }
{
    let above = t.parent();
    let below = u.parent();
    (t == u) | (below == t) | (above == u)
}

// No reshape names a shard of the target's family.
fn family_free(board: &[u64], target: ShardId) -> bool
    requires { length board.now ≡ board_size }
    ensures { (b : Board) → Holds board.now b → result ≡ family_free target.0 b }
{
    let n = steps::rows_within(fields::count(board), MOST_RESHAPES);
    for i in 0..n {
        if overlaps(target, fields::target_at(board, i)) {
            return false;
        }
    }
    true
}

pub fn has_committee(board: &[u64], shard: ShardId) -> bool
    requires { length board.now ≡ board_size }
    ensures { (b : Board) → Holds board.now b → well_formed b ≡ true → result ≡ stands shard.0 b.committees }
{
    rows::find_committee(board, shard).is_some()
}

pub fn has_bound(board: &[u64], shard: ShardId) -> bool
    requires { length board.now ≡ board_size }
    ensures { (b : Board) → Holds board.now b → well_formed b ≡ true → result ≡ stands shard.0 b.bounds }
{
    rows::find_bound(board, shard).is_some()
}

// The shards that live before the cut have a committee, and those it makes have none.
pub fn committees_fit(board: &[u64], merging: bool, target: ShardId) -> bool
    requires { (length board.now ≡ board_size) × (target.0 ≤ last_target) }
    ensures { (b : Board) → Holds board.now b → well_formed b ≡ true → result ≡ committees_fit (kind_of merging) target.0 b }
{
    let parent = has_committee(board, target);
    let left = has_committee(board, target.left());
    let right = has_committee(board, target.right());
    if merging {
        return left & right & !parent;
    }
    parent & !left & !right
}

// The shards that live before the cut have a boundary.
pub fn bounds_stand(board: &[u64], merging: bool, target: ShardId) -> bool
    requires { (length board.now ≡ board_size) × (target.0 ≤ last_target) }
    ensures { (b : Board) → Holds board.now b → well_formed b ≡ true → result ≡ bounds_stand (kind_of merging) target.0 b }
{
    if merging {
        let Some(left) = rows::find_bound(board, target.left()) else {
            return false;
        };
        return rows::find_bound_after(board, left, target.right()).is_some();
    }
    has_bound(board, target)
}

// 3, 7 and 5, the first fault deciding.
pub fn admission_faults(board: &[u64], merging: bool, target: ShardId) -> Result<(), Answer>
    requires { length board.now ≡ board_size }
    ensures within { OnOk result (target.0 ≤ last_target) }
    ensures tells { (b : Board) → Holds board.now b → well_formed b ≡ true → TellsFaults (kind_of merging) target.0 b result }
{
    if !rows::is_target(target) {
        return Err(Answer::OutOfRange);
    }
    if !family_free(board, target) {
        return Err(Answer::FamilyTaken);
    }
    if !committees_fit(board, merging, target) {
        return Err(Answer::FamilyTaken);
    }
    if !bounds_stand(board, merging, target) {
        return Err(Answer::NoBoundary);
    }
    Ok(())
}
