// The table of boundaries, by rising shard.
ghost use Rattle.std.specs.Prelude.{◌≡◌, ◌<◌, ◌≤◌, length, get_or, set};
ghost use Rattle.rules.specs.Table.{Entry, entry};
ghost use Rattle.rules.specs.Board.{Board, Boundary, most_bounds, last_epoch, on_bounds};
ghost use Rattle.rules.specs.Moves.{new_boundary, marked_boundary};
ghost use Rattle.rules.specs.Snapshot.{boundary_words};
ghost use Rattle.tables.specs.Rows.{Rising, key_of, place_of, insert_at};
ghost use Rattle.board.specs.Layout.{board_size, boundary_width};
ghost use Rattle.board.specs.Held.{Holds, no_boundary};
ghost use Rattle.board.specs.Leaves.{change_at};

use board::layout::{BOUNDARY_WIDTH, BOUNDS_AT, MOST_BOUNDS, ROTATIONS_AT};
use types::{BlockHeight, Epoch, ShardId};

pub fn count(ws: &[u64]) -> usize
    requires { length ws.now ≡ board_size }
    ensures { (b : Board) → Holds ws.now b → result ≡ length b.bounds }
{
    ws[BOUNDS_AT] as usize
}

pub fn shard_at(ws: &[u64], i: usize) -> ShardId
    requires { (length ws.now ≡ board_size) × (i < most_bounds) }
    ensures { (b : Board) → Holds ws.now b → i < length b.bounds → result.0 ≡ (get_or b.bounds i no_boundary).key }
{
    let a = BOUNDS_AT + 1 + i * BOUNDARY_WIDTH;
    ShardId(ws[a])
}

pub fn height_at(ws: &[u64], i: usize) -> BlockHeight
    requires { (length ws.now ≡ board_size) × (i < most_bounds) }
    ensures { (b : Board) → Holds ws.now b → i < length b.bounds → result.0 ≡ (get_or b.bounds i no_boundary).val.height }
{
    let a = BOUNDS_AT + 1 + i * BOUNDARY_WIDTH;
    BlockHeight(ws[a + 1])
}

// Where the boundary of a shard stands, or would.
pub fn place_of(ws: &[u64], shard: ShardId) -> usize
    requires { length ws.now ≡ board_size }
    ensures { (result ≤ most_bounds) × ((b : Board) → Holds ws.now b → Rising key_of b.bounds → result ≡ place_of key_of shard.0 b.bounds) }
{
    tables::place_of(
        &ws[BOUNDS_AT..ROTATIONS_AT],
        BOUNDARY_WIDTH,
        MOST_BOUNDS,
        shard.0,
    )
}

// The row of a boundary as a cut makes it: formed in the next epoch, with no marks.
#[tactic(auto, unfolding(rules::specs::Snapshot::boundary_words, rules::specs::Snapshot::flag_of, rules::specs::Snapshot::value_of))]
fn new_row(shard: ShardId, height: BlockHeight, epoch: Epoch) -> [u64; BOUNDARY_WIDTH]
    requires { epoch.0 ≤ last_epoch }
    ensures { result ≡ boundary_words (entry shard.0 (new_boundary height.0 epoch.0)) }
{
    let formed = epoch.0 + 1;
    [shard.0, height.0, formed, epoch.0, 0, 0, 0, 0]
}

// The row gets the terminal and the admitted epoch.
fn store_marks(t: &mut [u64], terminal: Epoch, admitted: Epoch)
    requires { length t.old ≡ boundary_width }
    ensures { (e : Entry Boundary) → t.old ≡ boundary_words e →
        t.new ≡ boundary_words (entry e.key (marked_boundary terminal.0 admitted.0 e.val)) }
{
    t[4] = 1;
    t[5] = terminal.0;
    t[6] = 1;
    t[7] = admitted.0;
}

// The boundary at i is a new one.
pub fn renew(ws: &mut [u64], i: usize, shard: ShardId, height: BlockHeight, epoch: Epoch)
    requires { (length ws.old ≡ board_size) × (i < most_bounds) × (epoch.0 ≤ last_epoch) }
    ensures { (b : Board) → Holds ws.old b → i < length b.bounds →
        Holds ws.new (on_bounds (λ t. set t i (entry shard.0 (new_boundary height.0 epoch.0))) b) }
{
    let a = BOUNDS_AT + 1 + i * BOUNDARY_WIDTH;
    let e = a + BOUNDARY_WIDTH;
    ws[a..e].copy_from_slice(&new_row(shard, height, epoch));
}

// A new boundary more, at i.
pub fn open(ws: &mut [u64], i: usize, shard: ShardId, height: BlockHeight, epoch: Epoch)
    requires { (length ws.old ≡ board_size) × (i < most_bounds) × (epoch.0 ≤ last_epoch) }
    ensures { (b : Board) → Holds ws.old b → length b.bounds < most_bounds → i ≤ length b.bounds →
        Holds ws.new (on_bounds (λ t. insert_at t i (entry shard.0 (new_boundary height.0 epoch.0))) b) }
{
    tables::open_row(
        &mut ws[BOUNDS_AT..ROTATIONS_AT],
        BOUNDARY_WIDTH,
        MOST_BOUNDS,
        i,
    );
    renew(ws, i, shard, height, epoch);
}

// The boundary at i gets the terminal and the admitted epoch.
pub fn mark(ws: &mut [u64], i: usize, terminal: Epoch, admitted: Epoch)
    requires { (length ws.old ≡ board_size) × (i < most_bounds) }
    ensures { (b : Board) → Holds ws.old b → i < length b.bounds →
        Holds ws.new (on_bounds (change_at no_boundary i (marked_boundary terminal.0 admitted.0)) b) }
{
    let a = BOUNDS_AT + 1 + i * BOUNDARY_WIDTH;
    let e = a + BOUNDARY_WIDTH;
    store_marks(&mut ws[a..e], terminal, admitted);
}
