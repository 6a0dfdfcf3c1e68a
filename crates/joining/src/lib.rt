// A machine joins a committee: its place replaced, whether it may join, and the member more.
#![tactic(auto)]

ghost use Rattle.std.specs.Prelude.{◌≡◌, [], ◌∷◌, true, ◌<◌, length, get_or};
ghost use Rattle.rules.specs.Board.{Board, most_machines, most_committees};
ghost use Rattle.rules.specs.Moves as moves;
ghost use Rattle.rules.specs.Moves.{place, may_join};
ghost use Rattle.rules.specs.Places.{leave_seat};
ghost use Rattle.tables.specs.Rows.{Rising, key_of};
ghost use Rattle.board.specs.Layout.{board_size};
ghost use Rattle.board.specs.Held.{Holds, no_machine};
ghost use Rattle.joining.specs.Stands.{stands_at};

use board::layout::{MOST_COMMITTEES, MOST_MEMBERS};
use board::{committees, machines};
use types::{Machine, Place, ShardId, ValidatorId};

// The place of the machine at row i is replaced.
pub fn put_place(ws: &mut [u64], i: usize, p: Place)
    requires { (length ws.old ≡ board_size) × (i < most_machines) }
    ensures { (b : Board) → Holds ws.old b → Rising key_of b.machines → i < length b.machines →
        Holds ws.new (place (get_or b.machines i no_machine).key (λ q. p) b) }
{
    let m = machines::at(ws, i);
    machines::put(ws, i, Machine { id: m.id, place: p });
}

// ---- onto a shard

// The shard's committee is at the row.
pub fn stands_at(ws: &[u64], row: usize, shard: ShardId) -> bool
    requires { length ws.now ≡ board_size }
    ensures { (result ≡ true → row < most_committees) × ((b : Board) → Holds ws.now b → result ≡ stands_at row shard.0 b) }
{
    if MOST_COMMITTEES <= row {
        return false;
    }
    if committees::count(ws) <= row {
        return false;
    }
    committees::shard_at(ws, row) == shard
}

pub fn may_join(ws: &[u64], shard: ShardId, id: ValidatorId) -> bool
    requires { length ws.now ≡ board_size }
    ensures { (b : Board) → Holds ws.now b → Rising key_of b.committees → result ≡ may_join shard.0 (id.0 ∷ []) b }
{
    let j = committees::place_of(ws, shard);
    if stands_at(ws, j, shard) {
        if committees::has_member(ws, j, id) {
            return false;
        }
        return committees::member_count(ws, j) < MOST_MEMBERS;
    }
    committees::count(ws) < MOST_COMMITTEES
}

// Whether another may join once a machine is off the shard.
pub fn may_replace(ws: &[u64], shard: ShardId, old: ValidatorId, new: ValidatorId) -> bool
    requires { length ws.now ≡ board_size }
    ensures { (b : Board) → Holds ws.now b → Rising key_of b.committees → result ≡ may_join shard.0 (new.0 ∷ []) (leave_seat shard.0 old.0 b) }
{
    let j = committees::place_of(ws, shard);
    if stands_at(ws, j, shard) {
        if committees::has_member(ws, j, new) & (new != old) {
            return false;
        }
        if committees::has_member(ws, j, old) {
            return true;
        }
        let members = committees::member_count(ws, j);
        return members < MOST_MEMBERS;
    }
    committees::count(ws) < MOST_COMMITTEES
}

// A member more, of a committee that is opened if it is missing.
pub fn join(ws: &mut [u64], shard: ShardId, id: ValidatorId)
    requires { length ws.old ≡ board_size }
    ensures { (b : Board) → Holds ws.old b → Rising key_of b.committees → may_join shard.0 (id.0 ∷ []) b ≡ true →
        Holds ws.new (moves.join shard.0 id.0 b) }
{
    let j = committees::place_of(ws, shard);
    if MOST_COMMITTEES <= j {
        return;
    }
    if stands_at(ws, j, shard) {
        committees::push_member(ws, j, id);
        return;
    }
    committees::open(ws, j, shard);
    committees::push_member(ws, j, id);
}
