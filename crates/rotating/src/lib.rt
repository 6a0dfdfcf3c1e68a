// Rotate with its draws from a reader: the step on the draws that are not yet read, and the reader moved on by those it used.
#![tactic(auto)]

ghost use Rattle.std.specs.Prelude.{◌≡◌, ◌+◌, ◌≤◌, length, drop};
ghost use Rattle.rules.specs.Places.{rotate};
ghost use Rattle.board.specs.Permitted.{PermittedStep};
ghost use Rattle.rotating.specs.Rotated.{unread, draws_used_by, advanced};

use committee::rotate;
use draw_readers::DrawReader;
use types::{Answer, Outcome, ShardId, ValidatorId};

// A rotate's outcome, and how far the lent draws are read then.
#[derive(Clone, Copy)]
pub struct RotatedAt {
    pub outcome: Outcome,
    pub at: usize,
}

// Where the draws that are not yet read begin; past the end none is left.
fn unread_from(draws: &[u64], at: usize) -> usize
    ensures { (result ≤ length draws.now) × (drop result draws.now ≡ drop at draws.now) }
{
    at.min(draws.len())
}

// The work: the step on the draws from a position on.
pub fn rotate_from(
    board: &mut [u64],
    shard: ShardId,
    machine: ValidatorId,
    draws: &[u64],
    at: usize,
) -> RotatedAt
    ensures { PermittedStep (rotate shard.0 machine.0 (drop at draws.now)) board.old board.new result.outcome
        × (result.at ≡ at + draws_used_by result.outcome) }
{
    if !wellformed::well_formed(board) {
        return RotatedAt {
            outcome: steps::refusal(Answer::NotWellFormed),
            at,
        };
    }
    let from = unread_from(draws, at);
    let outcome = rotate::run_shuffle_step_held(board, shard, machine, &draws[from..]);
    let used = outcome.draws_used as usize;
    RotatedAt {
        outcome,
        at: at + used,
    }
}

// The step on the draws that the reader has not yet read; it moves on by those used.
pub fn rotate_reading(
    board: &mut [u64],
    shard: ShardId,
    machine: ValidatorId,
    reader: &mut DrawReader<'_>,
) -> Outcome
    ensures permitted { PermittedStep (rotate shard.0 machine.0 (unread reader.old)) board.old board.new result }
    ensures moved_on { reader.new ≡ advanced reader.old (draws_used_by result) }
{
    let step = rotate_from(board, shard, machine, reader.draws, reader.at);
    reader.at = step.at;
    step.outcome
}
