// Rotate: one shard's turn, with a victim given. It plans, then applies: every refusal comes before the first write.
ghost use Rattle.std.specs.Prelude.{◌≡◌, [], ◌∷◌, true, not, ◌≤◌, ◌<◌, ◌%◌, eqb, length, get_or, drop, IfSome};
ghost use Rattle.rules.specs.Lists.{◌and◌};
ghost use Rattle.rules.specs.Board.{Board, most_machines, most_rotations, epoch_of};
ghost use Rattle.rules.specs.WellFormed.{is_shard, well_formed};
ghost use Rattle.rules.specs.Moves.{may_join};
ghost use Rattle.rules.specs.Places.{may_rotate, victim_fit, rotate_turn, rotate};
ghost use Rattle.board.specs.Layout.{board_size};
ghost use Rattle.board.specs.Held.{Holds, no_machine};
ghost use Rattle.pool.specs.Told.{TurnTells};
ghost use Rattle.steps.specs.Inner.{Steps};
ghost use Rattle.committee.specs.Opened.{Goes, RowFor, opened};

use super::reads;
use super::reads::Counted;
use board::layout::{LAST_SHARD, MOST_ROTATIONS};
use board::{machines, settings};
use pool::Turn;
use sampling::Reader;
use shards::rotations;
use shards::rotations::Rotation;
use types::{Answer, Outcome, ShardId, ValidatorId};

fn is_shard(shard: ShardId) -> bool
    ensures { result ≡ is_shard shard.0 }
{
    let s = shard.0;
    (1 <= s) & (s <= LAST_SHARD)
}

// The epoch is a nonzero multiple of the interval, which is 0 on no well-formed board.
fn at_interval(board: &[u64]) -> bool
    requires { length board.now ≡ board_size }
    ensures { (b : Board) → Holds board.now b → well_formed b ≡ true → result ≡ (not (eqb (epoch_of b) 0) and eqb (epoch_of b % b.settings.interval) 0) }
{
    let epoch = settings::epoch(board);
    let interval = settings::shuffle_interval(board);
    if epoch.0 == 0 {
        return false;
    }
    if interval == 0 {
        return false;
    }
    epoch.0 % interval == 0
}

fn may_rotate(board: &[u64], shard: ShardId) -> bool
    requires { length board.now ≡ board_size }
    ensures { (b : Board) → Holds board.now b → well_formed b ≡ true → result ≡ may_rotate shard.0 b }
{
    if !at_interval(board) {
        return false;
    }
    if rows::find_committee(board, shard).is_none() {
        return false;
    }
    if reads::is_splitting(board, shard) {
        return false;
    }
    let open = reads::rotations_on(board, Counted::InFlight, shard);
    (open as u64) < settings::most_in_flight(board)
}

// The victim is seated there, and no party of a rotation there.
fn victim_fit(board: &[u64], shard: ShardId, victim: ValidatorId) -> bool
    requires { length board.now ≡ board_size }
    ensures { (b : Board) → Holds board.now b → well_formed b ≡ true → result ≡ victim_fit shard.0 victim.0 b }
{
    if !rows::place_of(board, victim).is_seated_on(shard) {
        return false;
    }
    rotations::find_party(board, shard, victim).is_none()
}

// The row that a rotation of the shard and the victim goes to; none where all are taken.
fn row_for(board: &[u64], shard: ShardId, victim: ValidatorId) -> Option<usize>
    requires { length board.now ≡ board_size }
    ensures room { IfSome result (λ k. k < most_rotations) }
    ensures goes { (b : Board) → Holds board.now b → RowFor shard.0 victim.0 b result }
{
    if MOST_ROTATIONS <= rotations::count(board) {
        return None;
    }
    let k = rotations::place_for(board, shard, victim);
    if MOST_ROTATIONS <= k {
        return None;
    }
    Some(k)
}

// The machine at row i is seated on the shard, as the entrant of a rotation at row k.
fn open_at(board: &mut [u64], shard: ShardId, victim: ValidatorId, i: usize, k: usize)
    requires { (length board.old ≡ board_size) × (i < most_machines) × (k < most_rotations) }
    ensures { (b : Board) → Holds board.old b → well_formed b ≡ true → i < length b.machines → may_join shard.0 ((get_or b.machines i no_machine).key ∷ []) b ≡ true →
        Goes shard.0 victim.0 b k → Holds board.new (opened shard.0 victim.0 (get_or b.machines i no_machine).key b) }
{
    let m = machines::at(board, i);
    let opened = settings::epoch(board);
    let entrant = m.id;
    pool::seat_drawn(board, shard, i);
    rotations::open(
        board,
        k,
        Rotation {
            shard,
            victim,
            entrant,
            opened,
        },
    );
}

// The victim check, then one pool draw; where the turn is refused, every word is as before.
pub fn rotate_turn(
    board: &mut [u64],
    shard: ShardId,
    victim: ValidatorId,
    draws: &[u64],
    at: Reader,
) -> Result<Turn, Answer>
    requires { (length board.old ≡ board_size) × (at.at ≤ length draws.now) }
    ensures { (b : Board) → Holds board.old b → well_formed b ≡ true →
        TurnTells draws.now board.new b (rotate_turn shard.0 victim.0 (drop at.at draws.now) b) result }
{
    if !victim_fit(board, shard, victim) {
        return Err(Answer::VictimUnfit);
    }
    let Some((i, left)) = pool::draw_one(board, draws, at)? else {
        return Ok(Turn {
            handled: 0,
            left: at,
        });
    };
    let m = machines::at(board, i);
    if !joining::may_join(board, shard, m.id) {
        return Err(Answer::NoRoom);
    }
    let Some(k) = row_for(board, shard, victim) else {
        return Err(Answer::NoRoom);
    };
    open_at(board, shard, victim, i, k);
    Ok(Turn { handled: 1, left })
}

// Rotate, for words that are known to hold a well-formed board.
pub fn run_shuffle_step_held(
    board: &mut [u64],
    shard: ShardId,
    machine: ValidatorId,
    draws: &[u64],
) -> Outcome
    requires { length board.old ≡ board_size }
    ensures { Steps (rotate shard.0 machine.0 draws.now) board.old board.new result }
{
    if !is_shard(shard) {
        return steps::refusal(Answer::OutOfRange);
    }
    if !may_rotate(board, shard) {
        return steps::done(0, 0);
    }
    let turn = rotate_turn(board, shard, machine, draws, Reader::start());
    pool::told(turn)
}
