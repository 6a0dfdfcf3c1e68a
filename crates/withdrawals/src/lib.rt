// A machine that is short of stake leaves. The step plans, then applies: every refusal comes before the first write.
#![tactic(auto)]

ghost use Rattle.std.specs.Prelude.{◌≡◌, length};
ghost use Rattle.rules.specs.Places.{leave};
ghost use Rattle.board.specs.Layout.{board_size};
ghost use Rattle.steps.specs.Inner.{Steps};

use sampling::Reader;
use types::{Answer, Outcome, ValidatorId};

// Leave, for words that are known to hold a well-formed board.
pub fn deactivate_to_insufficient_stake_held(
    board: &mut [u64],
    machine: ValidatorId,
    draws: &[u64],
) -> Outcome
    requires { length board.old ≡ board_size }
    ensures { Steps (leave machine.0 draws.now) board.old board.new result }
{
    let Some(i) = rows::find_machine(board, machine) else {
        return steps::refusal(Answer::NoRecord);
    };
    let turn = exits::exit_placement(board, i, draws, Reader::start());
    pool::told(turn)
}
