// The door of the library: functions of numbers and slices, for the exports of `roster_c` to call.
#![tactic(auto)]

ghost use Rattle.std.specs.Prelude.{◌≡◌, [], ◌∷◌, length};
ghost use Rattle.std.specs.Fn.{FnOnceTakesAtMut, FnOnceReturnsAtMut};
ghost use Rattle.types.specs.Answers.{number_of};
ghost use Rattle.board.specs.Layout.{board_size};
ghost use Rattle.board.specs.Permitted.{WellHeld};
ghost use Rattle.rules.specs.Board.{Board};
ghost use Rattle.rules.specs.Turns.{Result};
ghost use Rattle.rules.specs.Places.{tick, leave, rotate, resolve, time_out};
ghost use Rattle.rules.specs.Reshapes.{admit_split, admit_merge, mark_seat_ready, mark_quiet, draw_cohort, lapse};
ghost use Rattle.rules.specs.Schedule.{schedule_splits, schedule_merges};
ghost use Rattle.rules.specs.Cut.{cut_splits, cut_merges};
ghost use Rattle.applying.specs.Asked.{call_of};
ghost use Rattle.applying.specs.Applied.{Applied};
ghost use Rattle.seats.specs.Tells.{SeatedWell};
ghost use Rattle.roster.specs.Exported.{ExportedStep, Makes, ExportedCheck, ExportedWrite, ExportedRead};

use board::layout::BOARD_SIZE;
use types::{Answer, Outcome, ShardId, ValidatorId};

// How many words a board is: lend exactly as many.
pub fn roster_words() -> u64
    ensures { result ≡ board_size }
{
    BOARD_SIZE as u64
}

// The most bytes that a snapshot has.
pub fn roster_snapshot_most() -> u64
    ensures { result ≡ 46816 }
{
    applying::MOST_BYTES as u64
}

// 1 if the words hold a well-formed board, else 0.
pub fn roster_well_formed(board: &[u64]) -> u64
    ensures { ExportedCheck WellHeld board.now result }
{
    u64::from(wellformed::well_formed(board))
}

// 1 if the words hold a board that passes the seat check, else 0.
pub fn roster_seat_check(board: &[u64]) -> u64
    ensures { ExportedCheck SeatedWell board.now result }
{
    u64::from(seats::seat_check(board))
}

// The board whose snapshot the bytes are, into lent words; words past the board stay as they are.
pub fn roster_read(snapshot: &[u8], board: &mut [u64]) -> u64
    ensures { ExportedRead snapshot.now board.old board.new result }
{
    u64::from(reading::read_snapshot(snapshot, board))
}

// The board's snapshot into lent bytes, and how many it has.
pub fn roster_write(board: &[u64], snapshot: &mut [u8], length: &mut u64) -> u64
    ensures { ExportedWrite board.now snapshot.old length.old snapshot.new length.new result }
{
    u64::from(snapshot::write_snapshot(board, snapshot, length))
}

// What a step told, in numbers.
fn tell(told: Outcome, results: &mut [u64; 2]) -> u64
    ensures { (result ≡ number_of told.answer) × (results.new ≡ told.handled ∷ told.draws_used ∷ []) }
{
    *results = [told.handled, told.draws_used];
    u64::from(told.answer)
}

// A step made where the words hold a well-formed board, and told in numbers; else refused, with every word as before.
fn answered<F: FnOnce(&mut [u64]) -> Outcome>(
    board: &mut [u64],
    results: &mut [u64; 2],
    step: F,
) -> u64
    requires { length board.old ≡ board_size → FnOnceTakesAtMut F.FnOnce step board.old }
    ensures { (made : Board → Result) → Makes made board.old (FnOnceReturnsAtMut F.FnOnce step board.old) →
        ExportedStep made board.old board.new result results.new }
{
    if !wellformed::well_formed(board) {
        return tell(steps::refusal(Answer::NotWellFormed), results);
    }
    let told = step(board);
    tell(told, results)
}

pub fn roster_tick(board: &mut [u64], results: &mut [u64; 2]) -> u64
    ensures { ExportedStep tick board.old board.new result results.new }
{
    answered(board, results, lifecycle::tick_held)
}

pub fn roster_time_out(board: &mut [u64], results: &mut [u64; 2]) -> u64
    ensures { ExportedStep time_out board.old board.new result results.new }
{
    answered(board, results, lifecycle::auto_ready_timeout_held)
}

pub fn roster_mark_seat_ready(
    board: &mut [u64],
    target: u64,
    machine: u64,
    results: &mut [u64; 2],
) -> u64
    ensures { ExportedStep (mark_seat_ready target machine) board.old board.new result results.new }
{
    answered(
        board,
        results,
        |words| marks::mark_seat_ready_held(words, ShardId(target), ValidatorId(machine)),
    )
}

pub fn roster_mark_quiet(board: &mut [u64], target: u64, side: u64, results: &mut [u64; 2]) -> u64
    ensures { ExportedStep (mark_quiet target side) board.old board.new result results.new }
{
    answered(
        board,
        results,
        |words| marks::mark_quiet_held(words, ShardId(target), side),
    )
}

pub fn roster_leave(board: &mut [u64], machine: u64, draws: &[u64], results: &mut [u64; 2]) -> u64
    ensures { ExportedStep (leave machine draws.now) board.old board.new result results.new }
{
    answered(
        board,
        results,
        |words| withdrawals::deactivate_to_insufficient_stake_held(
            words,
            ValidatorId(machine),
            draws,
        ),
    )
}

pub fn roster_rotate(
    board: &mut [u64],
    shard: u64,
    machine: u64,
    draws: &[u64],
    results: &mut [u64; 2],
) -> u64
    ensures { ExportedStep (rotate shard machine draws.now) board.old board.new result results.new }
{
    answered(
        board,
        results,
        |words| committee::rotate::run_shuffle_step_held(
            words,
            ShardId(shard),
            ValidatorId(machine),
            draws,
        ),
    )
}

pub fn roster_resolve(board: &mut [u64], results: &mut [u64; 2]) -> u64
    ensures { ExportedStep resolve board.old board.new result results.new }
{
    answered(board, results, resolving::resolve_pending_rotations_held)
}

pub fn roster_admit_split(board: &mut [u64], target: u64, results: &mut [u64; 2]) -> u64
    ensures { ExportedStep (admit_split target) board.old board.new result results.new }
{
    answered(
        board,
        results,
        |words| admissions::admit_split_held(words, ShardId(target)),
    )
}

pub fn roster_admit_merge(
    board: &mut [u64],
    target: u64,
    draws: &[u64],
    results: &mut [u64; 2],
) -> u64
    ensures { ExportedStep (admit_merge target draws.now) board.old board.new result results.new }
{
    answered(
        board,
        results,
        |words| admissions::admit_merge_held(words, ShardId(target), draws),
    )
}

pub fn roster_draw_cohort(
    board: &mut [u64],
    target: u64,
    draws: &[u64],
    results: &mut [u64; 2],
) -> u64
    ensures { ExportedStep (draw_cohort target draws.now) board.old board.new result results.new }
{
    answered(
        board,
        results,
        |words| cohorts::draw::draw_split_cohort_held(words, ShardId(target), draws),
    )
}

pub fn roster_lapse(board: &mut [u64], target: u64, results: &mut [u64; 2]) -> u64
    ensures { ExportedStep (lapse target) board.old board.new result results.new }
{
    answered(
        board,
        results,
        |words| lapses::lapse_split_held(words, ShardId(target)),
    )
}

pub fn roster_schedule_splits(board: &mut [u64], draws: &[u64], results: &mut [u64; 2]) -> u64
    ensures { ExportedStep (schedule_splits draws.now) board.old board.new result results.new }
{
    answered(
        board,
        results,
        |words| schedule_splits::schedule_ready_splits_held(words, draws),
    )
}

pub fn roster_schedule_merges(board: &mut [u64], results: &mut [u64; 2]) -> u64
    ensures { ExportedStep schedule_merges board.old board.new result results.new }
{
    answered(board, results, schedule_merges::schedule_ready_merges_held)
}

pub fn roster_cut_splits(board: &mut [u64], results: &mut [u64; 2]) -> u64
    ensures { ExportedStep cut_splits board.old board.new result results.new }
{
    answered(board, results, cut_splits::apply_scheduled_splits_held)
}

pub fn roster_cut_merges(board: &mut [u64], results: &mut [u64; 2]) -> u64
    ensures { ExportedStep cut_merges board.old board.new result results.new }
{
    answered(board, results, cut_merges::apply_scheduled_merges_held)
}

// A read, the step of that number on the board read, and a write of what it left: as the three one after another, but that
// the board's rules are asked once. The results are those of the step and the length of the snapshot.
pub fn roster_apply(
    snapshot: &[u8],
    step: u64,
    first: u64,
    second: u64,
    draws: &[u64],
    board: &mut [u64],
    after: &mut [u8],
    results: &mut [u64; 3],
) -> u64
    ensures { Applied (call_of step first second draws.now) snapshot.now board.old after.old results.old
        board.new after.new results.new result }
{
    applying::apply(snapshot, step, first, second, draws, board, after, results)
}
