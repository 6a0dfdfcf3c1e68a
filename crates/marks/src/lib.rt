// The marks on a reshape: a seat ready, a side quiet. Each step plans, then applies: every refusal comes before the first write.
#![tactic(auto)]

ghost use Rattle.std.specs.Prelude.{◌≡◌, ◌<◌, eqb, length, get_or, MatchOption};
ghost use Rattle.rules.specs.Lists.{◌or◌};
ghost use Rattle.rules.specs.Board.{Board, merge, most_reshapes, most_seats, on_reshapes};
ghost use Rattle.rules.specs.Moves.{is_kind, with_seats};
ghost use Rattle.rules.specs.Reshapes.{ready_seat, mark_seat_ready, mark_quiet};
ghost use Rattle.board.specs.Layout.{board_size};
ghost use Rattle.board.specs.Held.{Holds, no_reshape, no_seat};
ghost use Rattle.board.specs.Leaves.{change_at};
ghost use Rattle.steps.specs.Inner.{Steps};
ghost use Rattle.marks.specs.Sides.{side_number};

use reshapes::seats::Seat;
use reshapes::{Side, fields, seats};
use types::{Answer, Outcome, ShardId, ValidatorId};

// ---- A side quiet

fn side_of(side: u64) -> Option<Side>
    ensures { MatchOption result (1 < side) (λ s. side ≡ side_number s) }
{
    match side {
        0 => Some(Side::Left),
        1 => Some(Side::Right),
        _ => None,
    }
}

// A split has its left side only.
fn has_side(board: &[u64], i: usize, side: Side) -> bool
    requires { (length board.now ≡ board_size) × (i < most_reshapes) }
    ensures { (b : Board) → Holds board.now b → i < length b.reshapes →
        result ≡ (eqb (side_number side) 0 or is_kind merge (get_or b.reshapes i no_reshape).val) }
{
    match side {
        Side::Left => true,
        Side::Right => fields::is_merge(board, i),
    }
}

// Mark quiet, for words that are known to hold a well-formed board.
pub fn mark_quiet_held(board: &mut [u64], target: ShardId, side: u64) -> Outcome
    requires { length board.old ≡ board_size }
    ensures { Steps (mark_quiet target.0 side) board.old board.new result }
{
    if !rows::is_target(target) {
        return steps::refusal(Answer::OutOfRange);
    }
    let Some(side) = side_of(side) else {
        return steps::refusal(Answer::OutOfRange);
    };
    let Some(i) = rows::find_reshape(board, target) else {
        return steps::refusal(Answer::NotThere);
    };
    if !has_side(board, i, side) {
        return steps::refusal(Answer::NotThere);
    }
    fields::set_quiet(board, i, side);
    steps::done(1, 0)
}

// ---- A seat ready

fn ready_seat(board: &mut [u64], i: usize, k: usize)
    requires { (length board.old ≡ board_size) × (i < most_reshapes) × (k < most_seats) }
    ensures { (b : Board) → Holds board.old b → i < length b.reshapes → k < length (get_or b.reshapes i no_reshape).val.seats →
        Holds board.new (on_reshapes (change_at no_reshape i (with_seats (change_at no_seat k ready_seat))) b) }
{
    let seat = seats::at(board, i, k);
    let ready = Seat {
        ready: true,
        ..seat
    };
    seats::put(board, i, k, ready);
}

// Mark seat ready, for words that are known to hold a well-formed board.
pub fn mark_seat_ready_held(board: &mut [u64], target: ShardId, machine: ValidatorId) -> Outcome
    requires { length board.old ≡ board_size }
    ensures { Steps (mark_seat_ready target.0 machine.0) board.old board.new result }
{
    if !rows::is_target(target) {
        return steps::refusal(Answer::OutOfRange);
    }
    let Some(i) = rows::find_reshape(board, target) else {
        return steps::refusal(Answer::NotThere);
    };
    let Some(k) = rows::find_seat(board, i, machine) else {
        return steps::refusal(Answer::NotThere);
    };
    ready_seat(board, i, k);
    steps::done(1, 0)
}
