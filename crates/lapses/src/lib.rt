// A cohort sent back: pooled where it observes the target, and struck from the target's committee.
#![tactic(auto)]

ghost use Rattle.std.specs.Prelude.{◌≡◌, true, ◌<◌, ◌≤◌, length, get_or};
ghost use Rattle.types.specs.Places.{observes};
ghost use Rattle.rules.specs.Lists.{bit_of, count};
ghost use Rattle.rules.specs.Table.{keys_of};
ghost use Rattle.rules.specs.Board.{Board, most_reshapes};
ghost use Rattle.rules.specs.WellFormed.{well_formed};
ghost use Rattle.rules.specs.Moves.{says, place, for_all, pooled_from};
ghost use Rattle.rules.specs.Reshapes.{released, lapse};
ghost use Rattle.board.specs.Layout.{board_size};
ghost use Rattle.board.specs.Held.{Holds, no_reshape};
ghost use Rattle.steps.specs.Inner.{Steps};

use board::layout::MOST_SEATS;
use board::machines;
use reshapes::{fields, seats};
use types::{Answer, Machine, Outcome, ShardId, ValidatorId};

// The machine is pooled, where it observes the target: 1 for one that is.
fn send_back(board: &mut [u64], target: ShardId, id: ValidatorId) -> u64
    requires { length board.old ≡ board_size }
    ensures { (result ≤ 1) × ((b : Board) → Holds board.old b → well_formed b ≡ true →
        (result ≡ bit_of (says (observes target.0) b id.0)) × Holds board.new (place id.0 (pooled_from (observes target.0)) b)) }
{
    let Some(i) = rows::find_machine(board, id) else {
        return 0;
    };
    let before = machines::at(board, i).place;
    if !before.observes_shard(target) {
        return 0;
    }
    let place = before.pooled();
    machines::put(board, i, Machine { id, place });
    1
}

// Those with a seat in the reshape at i are pooled where they observe its target: how many.
fn send_all_back(board: &mut [u64], target: ShardId, i: usize) -> u64
    requires { (length board.old ≡ board_size) × (i < most_reshapes) }
    ensures { (b : Board) → Holds board.old b → well_formed b ≡ true → i < length b.reshapes →
        (result ≡ count (says (observes target.0) b) (keys_of (get_or b.reshapes i no_reshape).val.seats))
        × Holds board.new (for_all (λ x. place x (pooled_from (observes target.0))) (keys_of (get_or b.reshapes i no_reshape).val.seats) b) }
{
    let n = steps::rows_within(seats::count(board, i), MOST_SEATS);
    let mut r: u64 = 0;
    for k in 0..n {
        let seat = seats::at(board, i, k);
        r += send_back(board, target, seat.id);
    }
    r
}

// The target's cohort goes; its reshape stands at i. How many observed the target.
pub fn release_cohort(board: &mut [u64], target: ShardId, i: usize) -> u64
    requires { (length board.old ≡ board_size) × (i < most_reshapes) }
    ensures { (b : Board) → Holds board.old b → well_formed b ≡ true → i < length b.reshapes → (get_or b.reshapes i no_reshape).key ≡ target.0 →
        (result ≡ count (says (observes target.0) b) (keys_of (get_or b.reshapes i no_reshape).val.seats)) × Holds board.new (released target.0 b) }
{
    let r = send_all_back(board, target, i);
    striking::strike_seated(board, target, i);
    seats::clear(board, i);
    r
}

// Lapse, for words that are known to hold a well-formed board.
pub fn lapse_split_held(board: &mut [u64], target: ShardId) -> Outcome
    requires { length board.old ≡ board_size }
    ensures { Steps (lapse target.0) board.old board.new result }
{
    if !rows::is_target(target) {
        return steps::refusal(Answer::OutOfRange);
    }
    let Some(i) = rows::find_reshape(board, target) else {
        return steps::refusal(Answer::NotThere);
    };
    if fields::is_merge(board, i) {
        return steps::refusal(Answer::NotThere);
    }
    let n = release_cohort(board, target, i);
    steps::done(n, 0)
}
