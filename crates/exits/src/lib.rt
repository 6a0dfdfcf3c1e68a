// A machine leaves its place: what is asked before the first write, and what is then written.
#![tactic(auto)]

ghost use Rattle.std.specs.Prelude.{◌≡◌, true, false, ◌<◌, ◌≤◌, length, get_or, drop};
ghost use Rattle.types.specs.Places.{is_pooled, short};
ghost use Rattle.rules.specs.Board.{Board, split, most_machines};
ghost use Rattle.rules.specs.WellFormed.{well_formed};
ghost use Rattle.rules.specs.Moves.{says, take_off, give_up_seat};
ghost use Rattle.rules.specs.Turns.{pool_draw};
ghost use Rattle.rules.specs.Places.{is_carved, leave_seat, leave_from_seat, leave_from};
ghost use Rattle.board.specs.Layout.{board_size};
ghost use Rattle.board.specs.Held.{Holds, no_machine};
ghost use Rattle.pool.specs.Told.{TurnTells};

use board::machines;
use moves::Exit;
use pool::Turn;
use reshapes::fields;
use sampling::Reader;
use shards::rotations;
use types::{Answer, Place, ShardId, ValidatorId};

// A scheduled split stands there, and leaves no seat to refill.
fn is_carved(ws: &[u64], shard: ShardId) -> bool
    requires { length ws.now ≡ board_size }
    ensures { (b : Board) → Holds ws.now b → well_formed b ≡ true → result ≡ is_carved shard.0 b }
{
    let Some(i) = rows::find_reshape(ws, shard) else {
        return false;
    };
    if fields::is_merge(ws, i) {
        return false;
    }
    fields::is_scheduled(ws, i)
}

// Off its seat, and out of the keepers of a merge at the shard's parent.
fn leave_seat(ws: &mut [u64], shard: ShardId, id: ValidatorId)
    requires { length ws.old ≡ board_size }
    ensures { (b : Board) → Holds ws.old b → well_formed b ≡ true → Holds ws.new (leave_seat shard.0 id.0 b) }
{
    moves::take_off(ws, Exit::Short, shard, id);
    moves::give_up_seat(ws, true, shard.parent(), id);
}

// Off its watch, and out of the cohort of the split there.
fn leave_watch(ws: &mut [u64], shard: ShardId, id: ValidatorId)
    requires { length ws.old ≡ board_size }
    ensures { (b : Board) → Holds ws.old b → well_formed b ≡ true → Holds ws.new (give_up_seat split shard.0 id.0 (take_off shard.0 short id.0 b)) }
{
    moves::take_off(ws, Exit::Short, shard, id);
    moves::give_up_seat(ws, false, shard, id);
}

// Its seat goes to one drawn from the pool; the draw and the room are asked on the board as it stands.
fn refill(
    ws: &mut [u64],
    shard: ShardId,
    id: ValidatorId,
    draws: &[u64],
    at: Reader,
) -> Result<Turn, Answer>
    requires { (length ws.old ≡ board_size) × (at.at ≤ length draws.now) }
    ensures { (b : Board) → Holds ws.old b → well_formed b ≡ true → says is_pooled b id.0 ≡ false →
        TurnTells draws.now ws.new b (pool_draw shard.0 false (λ y c. c) (drop at.at draws.now) (leave_seat shard.0 id.0 b)) result }
{
    let Some((k, left)) = pool::draw_one(ws, draws, at)? else {
        leave_seat(ws, shard, id);
        return Ok(Turn {
            handled: 0,
            left: at,
        });
    };
    let m = machines::at(ws, k);
    if !joining::may_replace(ws, shard, id, m.id) {
        return Err(Answer::NoRoom);
    }
    leave_seat(ws, shard, id);
    pool::seat_drawn(ws, shard, k);
    Ok(Turn { handled: 1, left })
}

// Off a seat: nobody is drawn for a party of a rotation, which goes with it, nor onto a shard that is carved.
fn exit_seat(
    ws: &mut [u64],
    shard: ShardId,
    id: ValidatorId,
    draws: &[u64],
    at: Reader,
) -> Result<Turn, Answer>
    requires { (length ws.old ≡ board_size) × (at.at ≤ length draws.now) }
    ensures { (b : Board) → Holds ws.old b → well_formed b ≡ true → says is_pooled b id.0 ≡ false →
        TurnTells draws.now ws.new b (leave_from_seat shard.0 id.0 (drop at.at draws.now) b) result }
{
    if let Some(k) = rotations::find_party(ws, shard, id) {
        leave_seat(ws, shard, id);
        rotations::close(ws, k);
        return Ok(Turn {
            handled: 0,
            left: at,
        });
    }
    if is_carved(ws, shard) {
        leave_seat(ws, shard, id);
        return Ok(Turn {
            handled: 0,
            left: at,
        });
    }
    refill(ws, shard, id, draws, at)
}

// The machine at row i leaves its place, short of stake.
pub fn exit_placement(ws: &mut [u64], i: usize, draws: &[u64], at: Reader) -> Result<Turn, Answer>
    requires { (length ws.old ≡ board_size) × (i < most_machines) × (at.at ≤ length draws.now) }
    ensures { (b : Board) → Holds ws.old b → well_formed b ≡ true → i < length b.machines →
        TurnTells draws.now ws.new b (leave_from (get_or b.machines i no_machine).val (get_or b.machines i no_machine).key (drop at.at draws.now) b) result }
{
    let m = machines::at(ws, i);
    match m.place {
        Place::Seated { shard, .. } => return exit_seat(ws, shard, m.id, draws, at),
        Place::Observing { shard, .. } => leave_watch(ws, shard, m.id),
        _ => joining::put_place(ws, i, m.place.short()),
    }
    Ok(Turn {
        handled: 0,
        left: at,
    })
}
