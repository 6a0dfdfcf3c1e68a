// What both cuts share: a machine that comes to a new shard, and the records of those who have a seat.
#![tactic(auto)]

ghost use Rattle.std.specs.Prelude.{◌≡◌, [], ◌∷◌, true, ◌<◌, length, get_or};
ghost use Rattle.rules.specs.Lists.{every};
ghost use Rattle.rules.specs.Table.{stands, keys_of};
ghost use Rattle.rules.specs.Board.{Board, most_machines, most_reshapes};
ghost use Rattle.rules.specs.WellFormed.{well_formed};
ghost use Rattle.rules.specs.Moves.{join, may_join, put_on};
ghost use Rattle.tables.specs.Rows.{Rising, key_of};
ghost use Rattle.board.specs.Layout.{board_size};
ghost use Rattle.board.specs.Held.{Holds, no_machine};
ghost use Rattle.arriving.specs.Coming.{reshape_in};

use board::layout::MOST_SEATS;
use board::{committees, machines};
use reshapes::seats;
use types::{Place, ShardId, ValidatorId};

// ---- a machine comes

// A member more; the committee is looked for at row near first.
fn join_near(board: &mut [u64], near: usize, shard: ShardId, id: ValidatorId)
    requires { length board.old ≡ board_size }
    ensures { (b : Board) → Holds board.old b → Rising key_of b.committees → may_join shard.0 (id.0 ∷ []) b ≡ true →
        Holds board.new (join shard.0 id.0 b) }
{
    if joining::stands_at(board, near, shard) {
        committees::push_member(board, near, id);
        return;
    }
    joining::join(board, shard, id);
}

// The machine at a row gets a new place, and joins the shard, whose committee is looked for at row near first.
pub fn put_on(board: &mut [u64], near: usize, row: usize, shard: ShardId, place: Place)
    requires { (length board.old ≡ board_size) × (row < most_machines) }
    ensures { (b : Board) → Holds board.old b → well_formed b ≡ true → row < length b.machines → may_join shard.0 ((get_or b.machines row no_machine).key ∷ []) b ≡ true →
        Holds board.new (put_on shard.0 (λ q. place) (get_or b.machines row no_machine).key b) }
{
    let m = machines::at(board, row);
    joining::put_place(board, row, place);
    join_near(board, near, shard, m.id);
}

// ---- those who have a seat

// Every machine that has a seat in the reshape at i has a record.
pub fn seats_recorded(board: &[u64], i: usize) -> bool
    requires { (length board.now ≡ board_size) × (i < most_reshapes) }
    ensures { (b : Board) → Holds board.now b → well_formed b ≡ true → i < length b.reshapes →
        result ≡ every (λ x. stands x b.machines) (keys_of (reshape_in i b).seats) }
{
    let n = steps::rows_within(seats::count(board, i), MOST_SEATS);
    for k in 0..n {
        let seat = seats::at(board, i, k);
        if rows::find_machine(board, seat.id).is_none() {
            return false;
        }
    }
    true
}
