// A reshape's first nine words, and the table's rows.
ghost use Rattle.std.specs.Prelude.{◌≡◌, ◌<◌, ◌≤◌, length, get_or, set};
ghost use Rattle.rules.specs.Table.{Entry, entry, is_some};
ghost use Rattle.rules.specs.Board.{Board, Reshape, merge, most_reshapes, on_reshapes};
ghost use Rattle.rules.specs.Moves.{is_kind, with_drain_by};
ghost use Rattle.rules.specs.Snapshot.{value_of};
ghost use Rattle.tables.specs.Rows.{Rising, key_of, place_of, insert_at, remove_at};
ghost use Rattle.board.specs.Layout.{board_size, reshape_width, reshape_row};
ghost use Rattle.board.specs.Held.{Holds, no_reshape};
ghost use Rattle.board.specs.Leaves.{change_at};
ghost use Rattle.reshapes.specs.Changes.{kind_of, quiet_of, with_quiet_on, at_terminal, newly_admitted};

use super::Side;
use board::layout::{
    ADMITTED, BOARD_SIZE, DRAIN_BY, DRAIN_FLAG, KIND, MOST_RESHAPES, RESHAPE_WIDTH, RESHAPES_AT,
    SCHEDULED_FLAG, TERMINAL,
};
use types::{Epoch, ShardId};

pub fn count(ws: &[u64]) -> usize
    requires { length ws.now ≡ board_size }
    ensures { (b : Board) → Holds ws.now b → result ≡ length b.reshapes }
{
    ws[RESHAPES_AT] as usize
}

pub fn target_at(ws: &[u64], i: usize) -> ShardId
    requires { (length ws.now ≡ board_size) × (i < most_reshapes) }
    ensures { (b : Board) → Holds ws.now b → i < length b.reshapes → result.0 ≡ (get_or b.reshapes i no_reshape).key }
{
    let a = RESHAPES_AT + 1 + i * RESHAPE_WIDTH;
    ShardId(ws[a])
}

// Where the reshape of a target stands, or would.
pub fn place_of(ws: &[u64], target: ShardId) -> usize
    requires { length ws.now ≡ board_size }
    ensures { (result ≤ most_reshapes) × ((b : Board) → Holds ws.now b → Rising key_of b.reshapes → result ≡ place_of key_of target.0 b.reshapes) }
{
    tables::place_of(
        &ws[RESHAPES_AT..BOARD_SIZE],
        RESHAPE_WIDTH,
        MOST_RESHAPES,
        target.0,
    )
}

// ---- fields read

pub fn is_merge(ws: &[u64], i: usize) -> bool
    requires { (length ws.now ≡ board_size) × (i < most_reshapes) }
    ensures { (b : Board) → Holds ws.now b → i < length b.reshapes → result ≡ is_kind merge (get_or b.reshapes i no_reshape).val }
{
    let a = RESHAPES_AT + 1 + i * RESHAPE_WIDTH;
    ws[a + KIND] == 1
}

pub fn admitted_at(ws: &[u64], i: usize) -> Epoch
    requires { (length ws.now ≡ board_size) × (i < most_reshapes) }
    ensures { (b : Board) → Holds ws.now b → i < length b.reshapes → result.0 ≡ (get_or b.reshapes i no_reshape).val.admitted }
{
    let a = RESHAPES_AT + 1 + i * RESHAPE_WIDTH;
    Epoch(ws[a + ADMITTED])
}

pub fn is_draining(ws: &[u64], i: usize) -> bool
    requires { (length ws.now ≡ board_size) × (i < most_reshapes) }
    ensures { (b : Board) → Holds ws.now b → i < length b.reshapes → result ≡ is_some (get_or b.reshapes i no_reshape).val.drain_by }
{
    let a = RESHAPES_AT + 1 + i * RESHAPE_WIDTH;
    ws[a + DRAIN_FLAG] == 1
}

pub fn is_scheduled(ws: &[u64], i: usize) -> bool
    requires { (length ws.now ≡ board_size) × (i < most_reshapes) }
    ensures { (b : Board) → Holds ws.now b → i < length b.reshapes → result ≡ is_some (get_or b.reshapes i no_reshape).val.terminal }
{
    let a = RESHAPES_AT + 1 + i * RESHAPE_WIDTH;
    ws[a + SCHEDULED_FLAG] == 1
}

// The terminal; 0 where none is scheduled.
pub fn terminal_at(ws: &[u64], i: usize) -> Epoch
    requires { (length ws.now ≡ board_size) × (i < most_reshapes) }
    ensures { (b : Board) → Holds ws.now b → i < length b.reshapes → result.0 ≡ value_of (get_or b.reshapes i no_reshape).val.terminal }
{
    let a = RESHAPES_AT + 1 + i * RESHAPE_WIDTH;
    Epoch(ws[a + TERMINAL])
}

pub fn is_quiet(ws: &[u64], i: usize, side: Side) -> bool
    requires { (length ws.now ≡ board_size) × (i < most_reshapes) }
    ensures { (b : Board) → Holds ws.now b → i < length b.reshapes → result ≡ quiet_of side (get_or b.reshapes i no_reshape).val }
{
    let a = RESHAPES_AT + 1 + i * RESHAPE_WIDTH;
    ws[a + side.quiet_at()] == 1
}

// ---- fields written

pub fn set_quiet(ws: &mut [u64], i: usize, side: Side)
    requires { (length ws.old ≡ board_size) × (i < most_reshapes) }
    ensures { (b : Board) → Holds ws.old b → i < length b.reshapes →
        Holds ws.new (on_reshapes (change_at no_reshape i (with_quiet_on side)) b) }
{
    let a = RESHAPES_AT + 1 + i * RESHAPE_WIDTH;
    ws[a + side.quiet_at()] = 1;
}

fn store_drain(t: &mut [u64], by: Epoch)
    requires { length t.old ≡ reshape_width }
    ensures { (e : Entry Reshape) → t.old ≡ reshape_row e → t.new ≡ reshape_row (entry e.key (with_drain_by by.0 e.val)) }
{
    t[DRAIN_FLAG] = 1;
    t[DRAIN_BY] = by.0;
}

fn store_terminal(t: &mut [u64], terminal: Epoch)
    requires { length t.old ≡ reshape_width }
    ensures { (e : Entry Reshape) → t.old ≡ reshape_row e → t.new ≡ reshape_row (entry e.key (at_terminal terminal.0 e.val)) }
{
    t[SCHEDULED_FLAG] = 1;
    t[TERMINAL] = terminal.0;
}

fn store_new(t: &mut [u64], target: ShardId, merging: bool, admitted: Epoch)
    requires { length t.old ≡ reshape_width }
    ensures { t.old ≡ reshape_row no_reshape → t.new ≡ reshape_row (entry target.0 (newly_admitted (kind_of merging) admitted.0)) }
{
    t[0] = target.0;
    t[KIND] = u64::from(merging);
    t[ADMITTED] = admitted.0;
}

pub fn set_drain_by(ws: &mut [u64], i: usize, by: Epoch)
    requires { (length ws.old ≡ board_size) × (i < most_reshapes) }
    ensures { (b : Board) → Holds ws.old b → i < length b.reshapes →
        Holds ws.new (on_reshapes (change_at no_reshape i (with_drain_by by.0)) b) }
{
    let a = RESHAPES_AT + 1 + i * RESHAPE_WIDTH;
    let e = a + RESHAPE_WIDTH;
    store_drain(&mut ws[a..e], by);
}

pub fn set_terminal(ws: &mut [u64], i: usize, terminal: Epoch)
    requires { (length ws.old ≡ board_size) × (i < most_reshapes) }
    ensures { (b : Board) → Holds ws.old b → i < length b.reshapes →
        Holds ws.new (on_reshapes (change_at no_reshape i (at_terminal terminal.0)) b) }
{
    let a = RESHAPES_AT + 1 + i * RESHAPE_WIDTH;
    let e = a + RESHAPE_WIDTH;
    store_terminal(&mut ws[a..e], terminal);
}

// ---- rows

// The row at i, just opened, is that of a reshape just admitted, with no seats.
fn fill(ws: &mut [u64], i: usize, target: ShardId, merging: bool, admitted: Epoch)
    requires { (length ws.old ≡ board_size) × (i < most_reshapes) }
    ensures { (b : Board) → Holds ws.old b → i < length b.reshapes → get_or b.reshapes i no_reshape ≡ no_reshape →
        Holds ws.new (on_reshapes (λ t. set t i (entry target.0 (newly_admitted (kind_of merging) admitted.0))) b) }
{
    let a = RESHAPES_AT + 1 + i * RESHAPE_WIDTH;
    let e = a + RESHAPE_WIDTH;
    store_new(&mut ws[a..e], target, merging, admitted);
}

// A reshape just admitted, with no seats, at i.
pub fn open(ws: &mut [u64], i: usize, target: ShardId, merging: bool, admitted: Epoch)
    requires { (length ws.old ≡ board_size) × (i < most_reshapes) }
    ensures { (b : Board) → Holds ws.old b → length b.reshapes < most_reshapes → i ≤ length b.reshapes →
        Holds ws.new (on_reshapes (λ t. insert_at t i (entry target.0 (newly_admitted (kind_of merging) admitted.0))) b) }
{
    tables::open_row(
        &mut ws[RESHAPES_AT..BOARD_SIZE],
        RESHAPE_WIDTH,
        MOST_RESHAPES,
        i,
    );
    fill(ws, i, target, merging, admitted);
}

// The reshape at i goes.
pub fn close(ws: &mut [u64], i: usize)
    requires { length ws.old ≡ board_size }
    ensures { (b : Board) → Holds ws.old b → i < length b.reshapes → Holds ws.new (on_reshapes (λ t. remove_at t i) b) }
{
    tables::remove_row(
        &mut ws[RESHAPES_AT..BOARD_SIZE],
        RESHAPE_WIDTH,
        MOST_RESHAPES,
        i,
    );
}
