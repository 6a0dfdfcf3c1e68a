// Cut merges: the parent takes over, shard by shard. A turn plans, then applies: every refusal comes before the first write.
#![tactic(auto)]

ghost use Rattle.std.specs.Prelude.{◌≡◌, [], true, ◌≤◌, ◌<◌, length, get_or};
ghost use Rattle.rules.specs.Board.{Board, merge, most_reshapes, last_target};
ghost use Rattle.rules.specs.WellFormed.{is_word, well_formed};
ghost use Rattle.rules.specs.Turns.{batch};
ghost use Rattle.rules.specs.Cut as cut;
ghost use Rattle.rules.specs.Cut.{recast, fits, cut_merge, cut_merges};
ghost use Rattle.board.specs.Layout.{board_size};
ghost use Rattle.board.specs.Held.{Holds, no_reshape};
ghost use Rattle.pool.specs.Told.{TurnTells};
ghost use Rattle.steps.specs.Inner.{Step, Steps};
ghost use Rattle.arriving.specs.Coming.{reshape_in};
ghost use Rattle.batches.specs.Underway.{Within};
ghost use Rattle.cut_merges.specs.Merged.{cut_board};

use batches::Which;
use pool::Turn;
use reshapes::fields;
use sampling::Reader;
use shards::bounds;
use types::{Answer, BlockHeight, Outcome, ShardId};

pub mod keepers;
pub mod others;

// The merge at row i is carried out. Members go to the pool while their committees stand; the row goes last, since its seats are read till then.
fn cut_at(board: &mut [u64], i: usize, target: ShardId, height: BlockHeight)
    requires { (length board.old ≡ board_size) × (i < most_reshapes) × (target.0 ≤ last_target) }
    ensures { (b : Board) → Holds board.old b → well_formed b ≡ true → i < length b.reshapes → (get_or b.reshapes i no_reshape).key ≡ target.0 →
        is_word height.0 ≡ true → fits (recast merge target.0 height.0 b) ≡ true →
        Holds board.new (cut_board target.0 (reshape_in i b) height.0 b) }
{
    let left = target.left();
    let right = target.right();
    others::pool_others(board, i, left);
    others::pool_others(board, i, right);
    recasting::merge_family(board, target, height);
    keepers::rejoin_all(board, i, target);
    fields::close(board, i);
}

// A shard's turn; where it is refused, every word is as before.
fn cut_merge(board: &mut [u64], target: ShardId) -> Result<Turn, Answer>
    requires { length board.old ≡ board_size }
    ensures { Within 0 result × ((b : Board) → Holds board.old b → well_formed b ≡ true → TurnTells [] board.new b (cut_merge target.0 [] b) result) }
{
    let left = Reader::start();
    if !rows::is_target(target) {
        return Ok(Turn { handled: 0, left });
    }
    let Some(i) = rows::find_reshape(board, target) else {
        return Ok(Turn { handled: 0, left });
    };
    let Some(first) = rows::find_bound(board, target.left()) else {
        return Err(Answer::NoBoundary);
    };
    let Some(second) = rows::find_bound(board, target.right()) else {
        return Err(Answer::NoBoundary);
    };
    if !arriving::seats_recorded(board, i) {
        return Err(Answer::NoRecord);
    }
    if !recasting::merge_fits(board, target) {
        return Err(Answer::NoRoom);
    }
    let height = bounds::height_at(board, first).max(bounds::height_at(board, second));
    cut_at(board, i, target, height);
    Ok(Turn { handled: 1, left })
}

// The turns of those targets, up to the first that is refused.
fn in_turn(board: &mut [u64], targets: &[u64]) -> Outcome
    requires { (length board.old ≡ board_size) × (length targets.now ≤ most_reshapes) }
    ensures { (b : Board) → Holds board.old b → well_formed b ≡ true → Step (λ c. batch cut.cut_merge targets.now [] b) b board.new result }
{
    let mut handled: u64 = 0;
    for target in targets {
        match cut_merge(board, ShardId(*target)) {
            Ok(turn) => handled += turn.handled,
            Err(answer) => {
                return Outcome {
                    answer,
                    handled,
                    draws_used: 0,
                };
            }
        }
    }
    steps::done(handled, 0)
}

// Cut merges, for words that are known to hold a well-formed board.
pub fn apply_scheduled_merges_held(board: &mut [u64]) -> Outcome
    requires { length board.old ≡ board_size }
    ensures { Steps cut_merges board.old board.new result }
{
    let mut targets = [0u64; 8];
    let n = batches::targets(board, Which::MergesDue, &mut targets);
    in_turn(board, &targets[..n])
}
