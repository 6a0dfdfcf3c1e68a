// A snapshot read, a step made on its board and the next snapshot written: the board's rules are asked once.
#![tactic(auto)]

ghost use Rattle.std.specs.Prelude.{◌≡◌, true, ◌≤◌, length, MatchOption};
ghost use Rattle.std.proofs.Math.Option.{none, some};
ghost use Rattle.rules.specs.Board.{Board};
ghost use Rattle.rules.specs.Calls.{answer_to};
ghost use Rattle.rules.specs.WellFormed.{well_formed};
ghost use Rattle.board.specs.Held.{Holds};
ghost use Rattle.board.specs.Layout.{board_size};
ghost use Rattle.board.specs.Permitted.{WellHeld};
ghost use Rattle.steps.specs.Inner.{Steps};
ghost use Rattle.applying.specs.Asked.{asked, call_of};
ghost use Rattle.applying.specs.Applied.{most_bytes, StepTold, Applied};

use board::layout::BOARD_SIZE;
use types::{Answer, Outcome, ShardId, ValidatorId};

// The most bytes that a snapshot has.
pub const MOST_BYTES: usize = 46816;

// The answer to a number that is no step's: a number of the C interface, for no step answers so.
const NO_SUCH_STEP: u64 = 15;

// A step with its arguments and its draws.
#[derive(Clone, Copy)]
enum Call<'a> {
    Tick,
    AdmitSplit(ShardId),
    AdmitMerge(ShardId, &'a [u64]),
    MarkSeatReady(ShardId, ValidatorId),
    MarkQuiet(ShardId, u64),
    DrawCohort(ShardId, &'a [u64]),
    Lapse(ShardId),
    ScheduleSplits(&'a [u64]),
    ScheduleMerges,
    CutSplits,
    CutMerges,
    Leave(ValidatorId, &'a [u64]),
    Rotate(ShardId, ValidatorId, &'a [u64]),
    Resolve,
    TimeOut,
}

// The call that the numbers ask for, each step with the arguments that its export takes.
#[tactic(auto, unfolding(crate::specs::Asked::call_at))]
fn call_of<'a>(step: u64, first: u64, second: u64, draws: &'a [u64]) -> Option<Call<'a>>
    ensures { MatchOption result (call_of step first second draws.now ≡ none) (λ call. call_of step first second draws.now ≡ some (asked call)) }
{
    let shard = ShardId(first);
    match step {
        1 => Some(Call::Tick),
        2 => Some(Call::AdmitSplit(shard)),
        3 => Some(Call::AdmitMerge(shard, draws)),
        4 => Some(Call::MarkSeatReady(shard, ValidatorId(second))),
        5 => Some(Call::MarkQuiet(shard, second)),
        6 => Some(Call::DrawCohort(shard, draws)),
        7 => Some(Call::Lapse(shard)),
        8 => Some(Call::ScheduleSplits(draws)),
        9 => Some(Call::ScheduleMerges),
        10 => Some(Call::CutSplits),
        11 => Some(Call::CutMerges),
        12 => Some(Call::Leave(ValidatorId(first), draws)),
        13 => Some(Call::Rotate(shard, ValidatorId(second), draws)),
        14 => Some(Call::Resolve),
        15 => Some(Call::TimeOut),
        _ => None,
    }
}

// A call's step, for words that are known to hold a well-formed board.
#[tactic(auto, unfolding(rules::specs::Calls::answer_to))]
fn answer_held(board: &mut [u64], call: Call<'_>) -> Outcome
    requires { length board.old ≡ board_size }
    ensures { Steps (answer_to (asked call.entry)) board.old board.new result }
{
    match call {
        Call::Tick => lifecycle::tick_held(board),
        Call::AdmitSplit(target) => admissions::admit_split_held(board, target),
        Call::AdmitMerge(target, draws) => admissions::admit_merge_held(board, target, draws),
        Call::MarkSeatReady(target, machine) => marks::mark_seat_ready_held(board, target, machine),
        Call::MarkQuiet(target, side) => marks::mark_quiet_held(board, target, side),
        Call::DrawCohort(target, draws) => cohorts::draw::draw_split_cohort_held(
            board, target, draws,
        ),
        Call::Lapse(target) => lapses::lapse_split_held(board, target),
        Call::ScheduleSplits(draws) => schedule_splits::schedule_ready_splits_held(board, draws),
        Call::ScheduleMerges => schedule_merges::schedule_ready_merges_held(board),
        Call::CutSplits => cut_splits::apply_scheduled_splits_held(board),
        Call::CutMerges => cut_merges::apply_scheduled_merges_held(board),
        Call::Leave(machine, draws) => withdrawals::deactivate_to_insufficient_stake_held(
            board, machine, draws,
        ),
        Call::Rotate(shard, machine, draws) => committee::rotate::run_shuffle_step_held(
            board, shard, machine, draws,
        ),
        Call::Resolve => resolving::resolve_pending_rotations_held(board),
        Call::TimeOut => lifecycle::auto_ready_timeout_held(board),
    }
}

// The step, then its board's snapshot: it fits, and is not asked again, as every step keeps a board well-formed.
fn apply_held(board: &mut [u64], call: Call<'_>, after: &mut [u8], results: &mut [u64; 3]) -> u64
    requires { WellHeld board.old × (most_bytes ≤ length after.old) }
    ensures { (b : Board) → Holds board.old b → well_formed b ≡ true → StepTold (answer_to (asked call.entry) b) board.new after.old after.new results.new result }
{
    let told = answer_held(board, call);
    let long = packing::put_board(board, after);
    *results = [told.handled, told.draws_used, long as u64];
    u64::from(told.answer)
}

// Every refusal is before the first word or byte that is written. C passes each number and slice alone, so they come as eight.
pub fn apply(
    snapshot: &[u8],
    step: u64,
    first: u64,
    second: u64,
    draws: &[u64],
    board: &mut [u64],
    after: &mut [u8],
    results: &mut [u64; 3],
) -> u64
    ensures { Applied (call_of step first second draws.now) snapshot.now board.old after.old results.old
        board.new after.new results.new result }
{
    let Some(call) = call_of(step, first, second, draws) else {
        return NO_SUCH_STEP;
    };
    if after.len() < MOST_BYTES {
        return u64::from(Answer::NoRoom);
    }
    let read = u64::from(reading::read_snapshot(snapshot, board));
    if read != 0 {
        return read;
    }
    apply_held(&mut board[..BOARD_SIZE], call, after, results)
}
