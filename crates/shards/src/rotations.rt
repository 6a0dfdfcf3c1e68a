// The table of rotations, by shard, then victim.
ghost use Rattle.std.specs.Prelude.{◌≡◌, ◌<◌, ◌≤◌, length, get_or, set, IfSome};
ghost use Rattle.rules.specs.Board as rules;
ghost use Rattle.rules.specs.Board.{Board, most_rotations, on_rotations};
ghost use Rattle.rules.specs.WellFormed.{rotation_before};
ghost use Rattle.rules.specs.Moves.{has_party, drop_rotations};
ghost use Rattle.rules.specs.Snapshot.{rotation_words};
ghost use Rattle.tables.specs.Rows.{first_where, insert_at, remove_at};
ghost use Rattle.board.specs.Layout.{board_size, rotation_width};
ghost use Rattle.board.specs.Held.{Holds, no_rotation};
ghost use Rattle.shards.specs.Rotations.{rotation_of, found_where};

use board::layout::{MOST_ROTATIONS, RESHAPES_AT, ROTATION_WIDTH, ROTATIONS_AT};
use types::{Epoch, ShardId, ValidatorId};

#[derive(Clone, Copy)]
pub struct Rotation {
    pub shard: ShardId,
    pub victim: ValidatorId,
    pub entrant: ValidatorId,
    pub opened: Epoch,
}

// ---- a rotation's row

fn load(t: &[u64]) -> Rotation
    requires { length t.now ≡ rotation_width }
    ensures { (q : rules.Rotation) → t.now ≡ rotation_words q → rotation_of result ≡ q }
{
    Rotation {
        shard: ShardId(t[0]),
        victim: ValidatorId(t[1]),
        entrant: ValidatorId(t[2]),
        opened: Epoch(t[3]),
    }
}

#[tactic(auto, unfolding(rules::specs::Snapshot::rotation_words))]
fn row(r: Rotation) -> [u64; ROTATION_WIDTH]
    ensures { result ≡ rotation_words (rotation_of r) }
{
    [r.shard.0, r.victim.0, r.entrant.0, r.opened.0]
}

// ---- the table

pub fn count(ws: &[u64]) -> usize
    requires { length ws.now ≡ board_size }
    ensures { (b : Board) → Holds ws.now b → result ≡ length b.rotations }
{
    ws[ROTATIONS_AT] as usize
}

pub fn at(ws: &[u64], i: usize) -> Rotation
    requires { (length ws.now ≡ board_size) × (i < most_rotations) }
    ensures { (b : Board) → Holds ws.now b → i < length b.rotations → rotation_of result ≡ get_or b.rotations i no_rotation }
{
    let a = ROTATIONS_AT + 1 + i * ROTATION_WIDTH;
    let e = a + ROTATION_WIDTH;
    load(&ws[a..e])
}

// Words that some board has are counted within their room; others by the room alone.
pub fn rows(ws: &[u64]) -> usize
    requires { length ws.now ≡ board_size }
    ensures { (result ≤ most_rotations) × ((b : Board) → Holds ws.now b → result ≡ length b.rotations) }
{
    let n = count(ws);
    if MOST_ROTATIONS < n {
        return MOST_ROTATIONS;
    }
    n
}

// The rotation goes before another.
fn is_before(shard: ShardId, victim: ValidatorId, q: Rotation) -> bool
    ensures { (p : rules.Rotation) → p.shard ≡ shard.0 → p.victim ≡ victim.0 → result ≡ rotation_before p (rotation_of q) }
{
    (shard < q.shard) | ((shard == q.shard) & (victim < q.victim))
}

// The rotation is on the shard, and the machine is its victim or its entrant.
fn has_party(shard: ShardId, id: ValidatorId, q: Rotation) -> bool
    ensures { result ≡ has_party shard.0 id.0 (rotation_of q) }
{
    (q.shard == shard) & ((q.victim == id) | (q.entrant == id))
}

// Where a rotation of the shard and the victim goes.
pub fn place_for(ws: &[u64], shard: ShardId, victim: ValidatorId) -> usize
    requires { length ws.now ≡ board_size }
    ensures { (result ≤ most_rotations) × ((b : Board) (p : rules.Rotation) → Holds ws.now b → p.shard ≡ shard.0 → p.victim ≡ victim.0 →
        result ≡ first_where (rotation_before p) b.rotations) }
{
    let n = rows(ws);
    for i in 0..n {
        if is_before(shard, victim, at(ws, i)) {
            return i;
        }
    }
    n
}

// The first rotation of the shard that the machine is a party of.
pub fn find_party(ws: &[u64], shard: ShardId, id: ValidatorId) -> Option<usize>
    requires { length ws.now ≡ board_size }
    ensures room { IfSome result (λ i. i < most_rotations) }
    ensures found { (b : Board) → Holds ws.now b → result ≡ found_where (has_party shard.0 id.0) b.rotations }
{
    let n = rows(ws);
    for i in 0..n {
        if has_party(shard, id, at(ws, i)) {
            return Some(i);
        }
    }
    None
}

pub fn put(ws: &mut [u64], i: usize, r: Rotation)
    requires { (length ws.old ≡ board_size) × (i < most_rotations) }
    ensures { (b : Board) → Holds ws.old b → i < length b.rotations → Holds ws.new (on_rotations (λ t. set t i (rotation_of r)) b) }
{
    let a = ROTATIONS_AT + 1 + i * ROTATION_WIDTH;
    let e = a + ROTATION_WIDTH;
    ws[a..e].copy_from_slice(&row(r));
}

// A rotation more, at i.
pub fn open(ws: &mut [u64], i: usize, r: Rotation)
    requires { (length ws.old ≡ board_size) × (i < most_rotations) }
    ensures { (b : Board) → Holds ws.old b → length b.rotations < most_rotations → i ≤ length b.rotations →
        Holds ws.new (on_rotations (λ t. insert_at t i (rotation_of r)) b) }
{
    tables::open_row(
        &mut ws[ROTATIONS_AT..RESHAPES_AT],
        ROTATION_WIDTH,
        MOST_ROTATIONS,
        i,
    );
    put(ws, i, r);
}

// The rotation at i goes.
pub fn close(ws: &mut [u64], i: usize)
    requires { length ws.old ≡ board_size }
    ensures { (b : Board) → Holds ws.old b → i < length b.rotations → Holds ws.new (on_rotations (λ t. remove_at t i) b) }
{
    tables::remove_row(
        &mut ws[ROTATIONS_AT..RESHAPES_AT],
        ROTATION_WIDTH,
        MOST_ROTATIONS,
        i,
    );
}

// The shard's rotations go.
pub fn drop_of(ws: &mut [u64], shard: ShardId)
    requires { length ws.old ≡ board_size }
    ensures { (b : Board) → Holds ws.old b → Holds ws.new (on_rotations (drop_rotations shard.0) b) }
{
    tables::drop_rows(
        &mut ws[ROTATIONS_AT..RESHAPES_AT],
        ROTATION_WIDTH,
        MOST_ROTATIONS,
        shard.0,
    );
}
