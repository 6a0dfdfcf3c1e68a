// Cut splits: the children take over, shard by shard. A turn plans, then applies: every refusal comes before the first write.
#![tactic(auto)]

ghost use Rattle.std.specs.Prelude.{◌≡◌, [], ◌++◌, true, ◌≤◌, ◌<◌, length, get_or};
ghost use Rattle.rules.specs.Lists.{every};
ghost use Rattle.rules.specs.Table.{stands, keys_of};
ghost use Rattle.rules.specs.Board.{Board, split, most_reshapes, last_target};
ghost use Rattle.rules.specs.WellFormed.{is_word, well_formed};
ghost use Rattle.rules.specs.Turns.{batch};
ghost use Rattle.rules.specs.Cut.{recast, fits, cut_split, cut_splits};
ghost use Rattle.board.specs.Layout.{board_size};
ghost use Rattle.board.specs.Held.{Holds, no_reshape};
ghost use Rattle.pool.specs.Told.{TurnTells};
ghost use Rattle.steps.specs.Inner.{Step, Steps};
ghost use Rattle.arriving.specs.Coming.{reshape_in};
ghost use Rattle.batches.specs.Underway.{Within};
ghost use Rattle.cut_splits.specs.Settled.{cut_board};

use batches::Which;
use pool::Turn;
use reshapes::{Side, fields};
use sampling::Reader;
use shards::bounds;
use types::{Answer, BlockHeight, Outcome, ShardId};

pub mod halves;
pub mod settle;

// Every machine of the halves and of the seats has a record.
fn all_recorded(board: &[u64], i: usize) -> bool
    requires { (length board.now ≡ board_size) × (i < most_reshapes) }
    ensures { (b : Board) → Holds board.now b → well_formed b ≡ true → i < length b.reshapes →
        result ≡ every (λ x. stands x b.machines) ((reshape_in i b).left ++ ((reshape_in i b).right ++ keys_of (reshape_in i b).seats)) }
{
    if !halves::half_recorded(board, i, Side::Left) {
        return false;
    }
    if !halves::half_recorded(board, i, Side::Right) {
        return false;
    }
    arriving::seats_recorded(board, i)
}

// The split at row i is carried out; its row goes last, since its lists are read till then.
fn cut_at(board: &mut [u64], i: usize, target: ShardId, height: BlockHeight)
    requires { (length board.old ≡ board_size) × (i < most_reshapes) × (target.0 ≤ last_target) }
    ensures { (b : Board) → Holds board.old b → well_formed b ≡ true → i < length b.reshapes → (get_or b.reshapes i no_reshape).key ≡ target.0 →
        is_word height.0 ≡ true → fits (recast split target.0 height.0 b) ≡ true →
        Holds board.new (cut_board target.0 (reshape_in i b) height.0 b) }
{
    recasting::split_family(board, target, height);
    settle::settle_child(board, i, target, Side::Left);
    settle::settle_child(board, i, target, Side::Right);
    fields::close(board, i);
}

// A shard's turn; where it is refused, every word is as before.
fn cut_split(board: &mut [u64], target: ShardId) -> Result<Turn, Answer>
    requires { length board.old ≡ board_size }
    ensures { Within 0 result × ((b : Board) → Holds board.old b → well_formed b ≡ true → TurnTells [] board.new b (cut_split target.0 [] b) result) }
{
    let left = Reader::start();
    if !rows::is_target(target) {
        return Ok(Turn { handled: 0, left });
    }
    let Some(i) = rows::find_reshape(board, target) else {
        return Ok(Turn { handled: 0, left });
    };
    let Some(v) = rows::find_bound(board, target) else {
        return Err(Answer::NoBoundary);
    };
    if !all_recorded(board, i) {
        return Err(Answer::NoRecord);
    }
    if !recasting::split_fits(board, target) {
        return Err(Answer::NoRoom);
    }
    let height = bounds::height_at(board, v);
    cut_at(board, i, target, height);
    Ok(Turn { handled: 1, left })
}

// The turns of those targets, up to the first that is refused.
fn in_turn(board: &mut [u64], targets: &[u64]) -> Outcome
    requires { (length board.old ≡ board_size) × (length targets.now ≤ most_reshapes) }
    ensures { (b : Board) → Holds board.old b → well_formed b ≡ true → Step (λ c. batch cut_split targets.now [] b) b board.new result }
{
    let mut handled: u64 = 0;
    for target in targets {
        match cut_split(board, ShardId(*target)) {
            Ok(turn) => handled += turn.handled,
            Err(answer) => {
                return Outcome {
                    answer,
                    handled,
                    draws_used: 0,
                };
            }
        }
    }
    steps::done(handled, 0)
}

// Cut splits, for words that are known to hold a well-formed board.
pub fn apply_scheduled_splits_held(board: &mut [u64]) -> Outcome
    requires { length board.old ≡ board_size }
    ensures { Steps cut_splits board.old board.new result }
{
    let mut targets = [0u64; 8];
    let n = batches::targets(board, Which::SplitsDue, &mut targets);
    in_turn(board, &targets[..n])
}
