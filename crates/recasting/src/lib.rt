// The tables of a family at its cut, on lent words. The reshape's own row stays, since its lists are read after: it goes last.
#![tactic(auto)]

ghost use Rattle.std.specs.Prelude.{◌≡◌, [], true, ◌<◌, ◌≤◌, length};
ghost use Rattle.types.specs.Numbers.{Height};
ghost use Rattle.rules.specs.Table.{put, remove};
ghost use Rattle.rules.specs.Board.{Board, split, merge, most_committees, most_bounds, last_target, on_committees, on_bounds, epoch_of};
ghost use Rattle.rules.specs.WellFormed.{is_shard, is_target, is_word, well_formed};
ghost use Rattle.rules.specs.Moves.{new_boundary};
ghost use Rattle.rules.specs.Cut.{end_shard, begin_shard, recast, fits};
ghost use Rattle.board.specs.Layout.{board_size};
ghost use Rattle.board.specs.Held.{Holds};
ghost use Rattle.recasting.specs.Recast.{lack, family_count, recast_tables};

use board::layout::{LAST_EPOCH, MOST_BOUNDS, MOST_COMMITTEES};
use board::{committees, settings};
use shards::{bounds, rotations};
use types::{BlockHeight, ShardId};

// ---- the room, asked before anything is written

// 1 where the shard has no committee.
fn lacks_committee(board: &[u64], shard: ShardId) -> usize
    requires { length board.now ≡ board_size }
    ensures { (result ≤ 1) × ((b : Board) → Holds board.now b → well_formed b ≡ true → result ≡ lack shard.0 b.committees) }
{
    usize::from(rows::find_committee(board, shard).is_none())
}

// 1 where the shard has no boundary.
fn lacks_boundary(board: &[u64], shard: ShardId) -> usize
    requires { length board.now ≡ board_size }
    ensures { (result ≤ 1) × ((b : Board) → Holds board.now b → well_formed b ≡ true → result ≡ lack shard.0 b.bounds) }
{
    usize::from(rows::find_bound(board, shard).is_none())
}

// How many committees there are, with one for each of the family's shards that has none.
fn family_count(board: &[u64], target: ShardId) -> usize
    requires { (length board.now ≡ board_size) × (target.0 ≤ last_target) }
    ensures { (b : Board) → Holds board.now b → well_formed b ≡ true → result ≡ family_count target.0 b }
{
    let count = steps::rows_within(committees::count(board), MOST_COMMITTEES);
    count
        + lacks_committee(board, target)
        + lacks_committee(board, target.left())
        + lacks_committee(board, target.right())
}

// A split's cut has room: rows that stand are replaced and need none, and the target's committee goes.
pub fn split_fits(board: &[u64], target: ShardId) -> bool
    requires { (length board.now ≡ board_size) × (target.0 ≤ last_target) }
    ensures { (b : Board) → Holds board.now b → well_formed b ≡ true → is_target target.0 ≡ true → (height : Height) → result ≡ fits (recast split target.0 height b) }
{
    if MOST_COMMITTEES + 1 < family_count(board, target) {
        return false;
    }
    let bounds = steps::rows_within(bounds::count(board), MOST_BOUNDS);
    let left = lacks_boundary(board, target.left());
    let right = lacks_boundary(board, target.right());
    bounds + left + right <= MOST_BOUNDS
}

// A merge's cut has room: both children's committees go.
pub fn merge_fits(board: &[u64], target: ShardId) -> bool
    requires { (length board.now ≡ board_size) × (target.0 ≤ last_target) }
    ensures { (b : Board) → Holds board.now b → well_formed b ≡ true → is_target target.0 ≡ true → (height : Height) → result ≡ fits (recast merge target.0 height b) }
{
    if MOST_COMMITTEES + 2 < family_count(board, target) {
        return false;
    }
    let bounds = steps::rows_within(bounds::count(board), MOST_BOUNDS);
    bounds + lacks_boundary(board, target) <= MOST_BOUNDS
}

// ---- an old shard

fn close_committee(board: &mut [u64], shard: ShardId)
    requires { length board.old ≡ board_size }
    ensures { (b : Board) → Holds board.old b → well_formed b ≡ true → Holds board.new (on_committees (remove shard.0) b) }
{
    let Some(j) = rows::find_committee(board, shard) else {
        return;
    };
    folding::close(board, j);
}

// Its committee and its rotations go.
fn end_shard(board: &mut [u64], shard: ShardId)
    requires { length board.old ≡ board_size }
    ensures { (b : Board) → Holds board.old b → well_formed b ≡ true → Holds board.new (end_shard shard.0 b) }
{
    close_committee(board, shard);
    rotations::drop_of(board, shard);
}

// ---- a new shard

fn empty_committee(board: &mut [u64], shard: ShardId)
    requires { length board.old ≡ board_size }
    ensures { (b : Board) → Holds board.old b → well_formed b ≡ true → length (put shard.0 [] b.committees) ≤ most_committees →
        Holds board.new (on_committees (put shard.0 []) b) }
{
    if let Some(j) = rows::find_committee(board, shard) {
        committees::clear_members(board, j);
        return;
    }
    let k = committees::place_of(board, shard);
    if MOST_COMMITTEES <= k {
        return;
    }
    folding::open(board, k, shard);
}

// The epoch is past its range on no well-formed board.
fn new_boundary(board: &mut [u64], shard: ShardId, height: BlockHeight)
    requires { length board.old ≡ board_size }
    ensures { (b : Board) → Holds board.old b → well_formed b ≡ true → length (put shard.0 (new_boundary height.0 (epoch_of b)) b.bounds) ≤ most_bounds →
        Holds board.new (on_bounds (put shard.0 (new_boundary height.0 (epoch_of b))) b) }
{
    let epoch = settings::epoch(board);
    if LAST_EPOCH < epoch.0 {
        return;
    }
    if let Some(i) = rows::find_bound(board, shard) {
        bounds::renew(board, i, shard, height, epoch);
        return;
    }
    let k = bounds::place_of(board, shard);
    if MOST_BOUNDS <= k {
        return;
    }
    bounds::open(board, k, shard, height, epoch);
}

// An empty committee and a boundary.
fn begin_shard(board: &mut [u64], shard: ShardId, height: BlockHeight)
    requires { length board.old ≡ board_size }
    ensures { (b : Board) → Holds board.old b → well_formed b ≡ true → is_shard shard.0 ≡ true → fits (begin_shard height.0 shard.0 b) ≡ true →
        Holds board.new (begin_shard height.0 shard.0 b) }
{
    empty_committee(board, shard);
    new_boundary(board, shard, height);
}

// ---- an old shard's committee for a new one's

// The old shard's committee goes, and the new one, whose number is smaller, gets an empty one: in the same row, or before it.
fn replace_committee(board: &mut [u64], old: ShardId, new: ShardId)
    requires { length board.old ≡ board_size }
    ensures { (b : Board) → Holds board.old b → well_formed b ≡ true → new.0 < old.0 → length (put new.0 [] (remove old.0 b.committees)) ≤ most_committees →
        Holds board.new (on_committees (λ t. put new.0 [] (remove old.0 t)) b) }
{
    let Some(j) = rows::find_committee(board, old) else {
        empty_committee(board, new);
        return;
    };
    if rows::find_committee(board, new).is_some() {
        close_committee(board, old);
        empty_committee(board, new);
        return;
    }
    let k = committees::place_of(board, new);
    if j < k {
        return;
    }
    folding::replace(board, j, k, new);
}

// ---- the family

// A split's target ends, and its children begin.
pub fn split_family(board: &mut [u64], target: ShardId, height: BlockHeight)
    requires { (length board.old ≡ board_size) × (target.0 ≤ last_target) }
    ensures { (b : Board) → Holds board.old b → well_formed b ≡ true → is_target target.0 ≡ true → is_word height.0 ≡ true →
        fits (recast split target.0 height.0 b) ≡ true → Holds board.new (recast_tables split target.0 height.0 b) }
{
    end_shard(board, target);
    begin_shard(board, target.left(), height);
    begin_shard(board, target.right(), height);
}

// A merge's children end, and its target begins.
pub fn merge_family(board: &mut [u64], target: ShardId, height: BlockHeight)
    requires { (length board.old ≡ board_size) × (target.0 ≤ last_target) }
    ensures { (b : Board) → Holds board.old b → well_formed b ≡ true → is_target target.0 ≡ true → is_word height.0 ≡ true →
        fits (recast merge target.0 height.0 b) ≡ true → Holds board.new (recast_tables merge target.0 height.0 b) }
{
    close_committee(board, target.right());
    replace_committee(board, target.left(), target);
    rotations::drop_of(board, target.left());
    rotations::drop_of(board, target.right());
    new_boundary(board, target, height);
}
