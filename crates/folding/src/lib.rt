// Committees that go and come, with only those words moved that they fill: past its members a committee's row is zeros.
#![tactic(auto)]

ghost use Rattle.std.specs.Prelude.{◌≡◌, [], ◌+◌, ◌<◌, ◌≤◌, length, get_or, set, drop};
ghost use Rattle.std.proofs.Math.Seq.{paste};
ghost use Rattle.rules.specs.Table.{entry};
ghost use Rattle.rules.specs.Board.{Board, most_committees, most_members, on_committees};
ghost use Rattle.tables.specs.Rows.{insert_at, remove_at};
ghost use Rattle.board.specs.Layout.{board_size};
ghost use Rattle.board.specs.Held.{Holds, no_committee};
ghost use Rattle.folding.specs.Freed.{freed};

use board::committees;
use board::layout::{COMMITTEE_WIDTH, COMMITTEES_AT, MEMBERS_AT, MOST_COMMITTEES, MOST_MEMBERS};
use types::ShardId;

// ---- one row over another

// The n words at `from` are written at `to` too: the place is before them, or past them all. By an index, as the two places may overlap.
fn copy_words(ws: &mut [u64], from: usize, to: usize, n: usize)
    requires { (from + n ≤ length ws.old) × (to + n ≤ length ws.old) × (from < to → from + n ≤ to) }
    ensures { ws.new ≡ paste ws.old to (drop from ws.old) n }
{
    for k in 0..n {
        ws[to + k] = ws[from + k];
    }
}

// As many members as each of two committees has, or more.
fn most_members(ws: &[u64], i: usize, j: usize) -> usize
    requires { (length ws.now ≡ board_size) × (i < most_committees) × (j < most_committees) }
    ensures { (result ≤ most_members) × ((b : Board) → Holds ws.now b → i < length b.committees → j < length b.committees →
        (length (get_or b.committees i no_committee).val ≤ result) × (length (get_or b.committees j no_committee).val ≤ result)) }
{
    let m = steps::rows_within(committees::member_count(ws, i), MOST_MEMBERS);
    let n = steps::rows_within(committees::member_count(ws, j), MOST_MEMBERS);
    m.max(n)
}

// The committee at i is written over the one at j.
fn copy_row(ws: &mut [u64], i: usize, j: usize)
    requires { (length ws.old ≡ board_size) × (i < most_committees) × (j < most_committees) }
    ensures { (b : Board) → Holds ws.old b → i < length b.committees → j < length b.committees →
        Holds ws.new (on_committees (λ t. set t j (get_or t i no_committee)) b) }
{
    let n = most_members(ws, i, j);
    let from = COMMITTEES_AT + 1 + i * COMMITTEE_WIDTH;
    let to = COMMITTEES_AT + 1 + j * COMMITTEE_WIDTH;
    copy_words(ws, from, to, MEMBERS_AT + 1 + n);
}

// The committee at j becomes another shard's, with no members.
fn rename(ws: &mut [u64], j: usize, shard: ShardId)
    requires { (length ws.old ≡ board_size) × (j < most_committees) }
    ensures { (b : Board) → Holds ws.old b → j < length b.committees →
        Holds ws.new (on_committees (λ t. set t j (entry shard.0 [])) b) }
{
    committees::clear_members(ws, j);
    let a = COMMITTEES_AT + 1 + j * COMMITTEE_WIDTH;
    ws[a] = shard.0;
}

// ---- row j is free, and row k is to be: those between move by one

fn free_lower(ws: &mut [u64], j: usize, k: usize)
    requires { (length ws.old ≡ board_size) × (k ≤ j) × (j < most_committees) }
    ensures { (b : Board) → Holds ws.old b → j < length b.committees → Holds ws.new (on_committees (freed j k) b) }
{
    for i in (k..j).rev() {
        copy_row(ws, i, i + 1);
    }
}

fn free_higher(ws: &mut [u64], j: usize, k: usize)
    requires { (length ws.old ≡ board_size) × (j ≤ k) × (k < most_committees) }
    ensures { (b : Board) → Holds ws.old b → k < length b.committees → Holds ws.new (on_committees (freed j k) b) }
{
    for i in j..k {
        copy_row(ws, i + 1, i);
    }
}

// ---- committees opened, closed and replaced

// The committee at j goes.
pub fn close(ws: &mut [u64], j: usize)
    requires { length ws.old ≡ board_size }
    ensures { (b : Board) → Holds ws.old b → j < length b.committees → Holds ws.new (on_committees (λ t. remove_at t j) b) }
{
    let n = committees::count(ws);
    if MOST_COMMITTEES < n {
        return;
    }
    if n <= j {
        return;
    }
    free_higher(ws, j, n - 1);
    committees::close(ws, n - 1);
}

// A committee with no members, at j.
pub fn open(ws: &mut [u64], j: usize, shard: ShardId)
    requires { (length ws.old ≡ board_size) × (j < most_committees) }
    ensures { (b : Board) → Holds ws.old b → length b.committees < most_committees → j ≤ length b.committees →
        Holds ws.new (on_committees (λ t. insert_at t j (entry shard.0 [])) b) }
{
    let n = committees::count(ws);
    if MOST_COMMITTEES <= n {
        return;
    }
    if n < j {
        return;
    }
    committees::open(ws, n, shard);
    if n == j {
        return;
    }
    replace(ws, n, j, shard);
}

// The committee at j goes, and another shard's comes at k, with no members.
pub fn replace(ws: &mut [u64], j: usize, k: usize, shard: ShardId)
    requires { (length ws.old ≡ board_size) × (k ≤ j) × (j < most_committees) }
    ensures { (b : Board) → Holds ws.old b → j < length b.committees →
        Holds ws.new (on_committees (λ t. insert_at (remove_at t j) k (entry shard.0 [])) b) }
{
    free_lower(ws, j, k);
    rename(ws, k, shard);
}
