// The admissions of a split and of a merge. Each step plans, then applies: every refusal comes before the first write.
#![tactic(auto)]

ghost use Rattle.std.specs.Prelude.{◌≡◌, true, List, ℕ, ◌+◌, ◌≤◌, leb, length};
ghost use Rattle.std.proofs.Math.Option.{none};
ghost use Rattle.rules.specs.Table.{at};
ghost use Rattle.rules.specs.Board.{Board, most_reshapes, most_seats, last_target};
ghost use Rattle.rules.specs.WellFormed.{well_formed};
ghost use Rattle.rules.specs.Reshapes.{admit_split, admit_merge};
ghost use Rattle.board.specs.Layout.{board_size};
ghost use Rattle.board.specs.Held.{Holds};
ghost use Rattle.steps.specs.Inner.{Step, Steps, step_told};
ghost use Rattle.keepers.specs.Kept.{keepers_room};
ghost use Rattle.admissions.specs.Granted.{admits_kept, merge_granted};

use board::layout::MOST_RESHAPES;
use keepers::{KEEPERS_ROOM, Keepers};
use reshapes::{fields, seats};
use types::{Answer, Outcome, ShardId};

mod seating;

// No reshape more has room.
fn is_full(board: &[u64]) -> bool
    requires { length board.now ≡ board_size }
    ensures { (b : Board) → Holds board.now b → result ≡ leb most_reshapes (length b.reshapes) }
{
    MOST_RESHAPES <= fields::count(board)
}

// ---- A split

fn admit_split(board: &mut [u64], target: ShardId) -> Result<Outcome, Answer>
    requires { length board.old ≡ board_size }
    ensures { Steps (admit_split target.0) board.old board.new (step_told result) }
{
    families::admission_faults(board, false, target)?;
    if is_full(board) {
        return Err(Answer::NoRoom);
    }
    seating::open_reshape(board, false, target);
    Ok(steps::done(1, 0))
}

// Admit split, for words that are known to hold a well-formed board.
pub fn admit_split_held(board: &mut [u64], target: ShardId) -> Outcome
    requires { length board.old ≡ board_size }
    ensures { Steps (admit_split target.0) board.old board.new result }
{
    steps::told(admit_split(board, target))
}

// ---- A merge

// With the keepers of both children, if there is room for a reshape more.
fn admit_kept(
    board: &mut [u64],
    target: ShardId,
    ids: &[u64],
    kept: Keepers,
) -> Result<Outcome, Answer>
    requires { (length board.old ≡ board_size) × (target.0 ≤ last_target) × (kept.from_left + kept.from_right ≤ most_seats) × (length ids.now ≡ keepers_room) }
    ensures { (b : Board) → Holds board.old b → well_formed b ≡ true → at target.0 b.reshapes ≡ none →
        (draws : List ℕ) → kept.left.at ≤ length draws → Step (admits_kept target.0 ids.now kept.from_left kept.from_right kept.left.at draws) b board.new (step_told result) }
{
    if is_full(board) {
        return Err(Answer::NoRoom);
    }
    let i = seating::open_reshape(board, true, target);
    let n = kept.from_left;
    let e = n + kept.from_right;
    seating::seat_all(board, i, target.left(), &ids[..n]);
    seating::seat_all(board, i, target.right(), &ids[n..e]);
    Ok(steps::done(seats::count(board, i) as u64, kept.left.at as u64))
}

// The draws of a merge that nothing is against.
fn merge_granted(board: &mut [u64], target: ShardId, draws: &[u64]) -> Result<Outcome, Answer>
    requires { (length board.old ≡ board_size) × (target.0 ≤ last_target) }
    ensures { (b : Board) → Holds board.old b → well_formed b ≡ true → at target.0 b.reshapes ≡ none →
        Step (merge_granted target.0 draws.now) b board.new (step_told result) }
{
    let mut ids: [u64; KEEPERS_ROOM] = [0; KEEPERS_ROOM];
    let kept = keepers::draw_merge_keepers(board, target, draws, &mut ids)?;
    admit_kept(board, target, &ids, kept)
}

fn admit_merge(board: &mut [u64], target: ShardId, draws: &[u64]) -> Result<Outcome, Answer>
    requires { length board.old ≡ board_size }
    ensures { Steps (admit_merge target.0 draws.now) board.old board.new (step_told result) }
{
    families::admission_faults(board, true, target)?;
    merge_granted(board, target, draws)
}

// Admit merge, for words that are known to hold a well-formed board.
pub fn admit_merge_held(board: &mut [u64], target: ShardId, draws: &[u64]) -> Outcome
    requires { length board.old ≡ board_size }
    ensures { Steps (admit_merge target.0 draws.now) board.old board.new result }
{
    steps::told(admit_merge(board, target, draws))
}
