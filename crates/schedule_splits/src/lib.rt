// Schedule splits: those who stay are shuffled and halved; where each half reaches quorum, the split drains, then gets its terminal.
#![tactic(auto)]

ghost use Rattle.std.specs.Prelude.{◌≡◌, List, true, ℕ, ◌≤◌, length, drop};
ghost use Rattle.rules.specs.Board.{Board, split, most_members, most_reshapes};
ghost use Rattle.rules.specs.WellFormed.{well_formed};
ghost use Rattle.rules.specs.Moves.{abort_rotations};
ghost use Rattle.rules.specs.Schedule.{unscheduled, pass_gate, schedule_split, schedule_splits};
ghost use Rattle.board.specs.Layout.{board_size};
ghost use Rattle.board.specs.Held.{Holds};
ghost use Rattle.steps.specs.Inner.{Step, Steps};
ghost use Rattle.pool.specs.Told.{TurnTells};
ghost use Rattle.gathering.specs.Gathered.{Staying, gathered};
ghost use Rattle.batches.specs.Underway.{Within};
ghost use Rattle.halving.specs.Gate.{lefts, rights};
ghost use Rattle.schedule_splits.specs.Stay.{Stay};

use batches::Which;
use committee::abort;
use drains::Plan;
use pool::Turn;
use sampling::Reader;
use types::{Answer, Outcome, ShardId};

// ---- one split's turn

// With those who stay in the order that was drawn. A refusal comes before the abort.
fn schedule_halves(
    board: &mut [u64],
    target: ShardId,
    ids: &[u64],
    left: Reader,
) -> Result<Turn, Answer>
    requires { (length board.old ≡ board_size) × (length ids.now ≤ most_members) }
    ensures { Within left.at result × ((b : Board) → Holds board.old b → well_formed b ≡ true → Stay target.0 ids.now b → (draws : List ℕ) → left.at ≤ length draws →
        TurnTells draws board.new b (pass_gate target.0 (lefts ids.now) (rights ids.now) (drop left.at draws) (abort_rotations target.0 b)) result) }
{
    let Some(i) = halving::find_gated(board, target, ids) else {
        abort::abort_rotations(board, target);
        return Ok(Turn { handled: 0, left });
    };
    match drains::plan_at(board, target, i) {
        Plan::Stamp => {
            abort::abort_rotations(board, target);
            drains::stamp(board, i);
            Ok(Turn { handled: 0, left })
        }
        Plan::Wait => {
            abort::abort_rotations(board, target);
            Ok(Turn { handled: 0, left })
        }
        Plan::Schedule => {
            abort::abort_rotations(board, target);
            halving::schedule(board, target, i, ids);
            Ok(Turn { handled: 1, left })
        }
        Plan::Unbounded => Err(Answer::NoBoundary),
    }
}

fn split_among(
    board: &mut [u64],
    target: ShardId,
    ids: &mut [u64],
    draws: &[u64],
    at: Reader,
) -> Result<Turn, Answer>
    requires { (length board.old ≡ board_size) × (length ids.old ≤ most_members) × (at.at ≤ length draws.now) }
    ensures { Within (length draws.now) result × ((b : Board) → Holds board.old b → well_formed b ≡ true → ids.old ≡ gathered Staying target.0 b →
        TurnTells draws.now board.new b (schedule_split target.0 (drop at.at draws.now) b) result) }
{
    let left = gathering::sort_and_shuffle(ids, draws, at)?;
    schedule_halves(board, target, ids, left)
}

// One split's turn; where it is refused, every word is as before.
fn try_schedule_split(
    board: &mut [u64],
    target: ShardId,
    draws: &[u64],
    at: Reader,
) -> Result<Turn, Answer>
    requires { (length board.old ≡ board_size) × (at.at ≤ length draws.now) }
    ensures { Within (length draws.now) result × ((b : Board) → Holds board.old b → well_formed b ≡ true →
        TurnTells draws.now board.new b (schedule_split target.0 (drop at.at draws.now) b) result) }
{
    let mut ids = [0u64; 96];
    let n = gathering::gather_staying(board, target, &mut ids);
    split_among(board, target, &mut ids[..n], draws, at)
}

// ---- the step

// The turns of those targets, up to the first that is refused.
fn in_turn(board: &mut [u64], targets: &[u64], draws: &[u64]) -> Outcome
    requires { (length board.old ≡ board_size) × (length targets.now ≤ most_reshapes) }
    ensures { (b : Board) → Holds board.old b → well_formed b ≡ true → targets.now ≡ unscheduled split b →
        Step (schedule_splits draws.now) b board.new result }
{
    let mut handled: u64 = 0;
    let mut at = Reader::start();
    for target in targets {
        match try_schedule_split(board, ShardId(*target), draws, at) {
            Ok(turn) => {
                handled += turn.handled;
                at = turn.left;
            }
            Err(answer) => {
                return Outcome {
                    answer,
                    handled,
                    draws_used: at.at as u64,
                };
            }
        }
    }
    steps::done(handled, at.at as u64)
}

// Schedule splits, for words that are known to hold a well-formed board.
pub fn schedule_ready_splits_held(board: &mut [u64], draws: &[u64]) -> Outcome
    requires { length board.old ≡ board_size }
    ensures { Steps (schedule_splits draws.now) board.old board.new result }
{
    let mut targets = [0u64; 8];
    let n = batches::targets(board, Which::SplitsToSchedule, &mut targets);
    in_turn(board, &targets[..n], draws)
}
