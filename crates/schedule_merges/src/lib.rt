// Schedule merges: where all ready keepers together reach quorum, the merge drains, then gets its terminal.
#![tactic(auto)]

ghost use Rattle.std.specs.Prelude.{◌≡◌, [], true, ◌<◌, ◌≤◌, length, get_or};
ghost use Rattle.rules.specs.Board.{Board, most_reshapes};
ghost use Rattle.rules.specs.WellFormed.{well_formed};
ghost use Rattle.rules.specs.Turns.{batch};
ghost use Rattle.rules.specs.Schedule.{merge_gate, schedule_merge, schedule_merges};
ghost use Rattle.board.specs.Layout.{board_size};
ghost use Rattle.board.specs.Held.{Holds, no_reshape};
ghost use Rattle.steps.specs.Inner.{Step, Steps};
ghost use Rattle.pool.specs.Told.{TurnTells};
ghost use Rattle.batches.specs.Underway.{Within};

use batches::Which;
use drains::{Plan, Whose};
use pool::Turn;
use sampling::Reader;
use types::{Answer, Outcome, ShardId};

fn passes_gate(board: &[u64], i: usize) -> bool
    requires { (length board.now ≡ board_size) × (i < most_reshapes) }
    ensures { (b : Board) → Holds board.now b → well_formed b ≡ true → i < length b.reshapes → result ≡ merge_gate (get_or b.reshapes i no_reshape).val b }
{
    let ready = drains::ready_seats(board, i, Whose::All);
    drains::reaches_quorum(board, ready)
}

// One merge's turn; where it is refused, every word is as before.
fn try_schedule_merge(board: &mut [u64], target: ShardId) -> Result<Turn, Answer>
    requires { length board.old ≡ board_size }
    ensures { Within 0 result × ((b : Board) → Holds board.old b → well_formed b ≡ true → TurnTells [] board.new b (schedule_merge target.0 [] b) result) }
{
    let left = Reader::start();
    let passed_over = Turn { handled: 0, left };
    if !rows::is_target(target) {
        return Ok(passed_over);
    }
    let Some(i) = rows::find_reshape(board, target) else {
        return Ok(passed_over);
    };
    if !passes_gate(board, i) {
        return Ok(passed_over);
    }
    match drains::plan_at(board, target, i) {
        Plan::Stamp => {
            drains::stamp(board, i);
            Ok(passed_over)
        }
        Plan::Wait => Ok(passed_over),
        Plan::Schedule => {
            drains::schedule(board, target, i);
            Ok(Turn { handled: 1, left })
        }
        Plan::Unbounded => Err(Answer::NoBoundary),
    }
}

// The turns of those targets, up to the first that is refused.
fn in_turn(board: &mut [u64], targets: &[u64]) -> Outcome
    requires { (length board.old ≡ board_size) × (length targets.now ≤ most_reshapes) }
    ensures { (b : Board) → Holds board.old b → well_formed b ≡ true → Step (λ c. batch schedule_merge targets.now [] b) b board.new result }
{
    let mut handled: u64 = 0;
    for target in targets {
        match try_schedule_merge(board, ShardId(*target)) {
            Ok(turn) => handled += turn.handled,
            Err(answer) => {
                return Outcome {
                    answer,
                    handled,
                    draws_used: 0,
                };
            }
        }
    }
    steps::done(handled, 0)
}

// Schedule merges, for words that are known to hold a well-formed board.
pub fn schedule_ready_merges_held(board: &mut [u64]) -> Outcome
    requires { length board.old ≡ board_size }
    ensures { Steps schedule_merges board.old board.new result }
{
    let mut targets = [0u64; 8];
    let n = batches::targets(board, Which::MergesToSchedule, &mut targets);
    in_turn(board, &targets[..n])
}
