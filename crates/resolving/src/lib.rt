// Resolve: the list is fixed when the call begins, by a mark for each rotation; then those marked are closed in order.
#![tactic(auto)]

ghost use Rattle.std.specs.Prelude.{◌≡◌, true, ◌+◌, ◌≤◌, ◌<◌, length, get_or};
ghost use Rattle.rules.specs.Board.{Board, most_rotations};
ghost use Rattle.rules.specs.WellFormed.{well_formed};
ghost use Rattle.rules.specs.Moves.{for_all};
ghost use Rattle.rules.specs.Places as rules;
ghost use Rattle.rules.specs.Places.{is_resolved, has_seats_free, resolved, resolve};
ghost use Rattle.board.specs.Layout.{board_size};
ghost use Rattle.board.specs.Held.{Holds, no_rotation};
ghost use Rattle.steps.specs.Inner.{Steps};
ghost use Rattle.resolving.specs.Walked.{Marked, Turned};

use board::layout::MOST_ROTATIONS;
use board::{committees, settings};
use committee::reads;
use committee::reads::Counted;
use moves::Exit;
use shards::rotations;
use types::{Outcome, ShardId, ValidatorId};

// ---- the list

// The entrant of the rotation at row i is ready, and seated on its shard.
fn is_resolved(board: &[u64], i: usize) -> bool
    requires { (length board.now ≡ board_size) × (i < most_rotations) }
    ensures { (b : Board) → Holds board.now b → well_formed b ≡ true → i < length b.rotations → result ≡ is_resolved b (get_or b.rotations i no_rotation) }
{
    let r = rotations::at(board, i);
    let p = rows::place_of(board, r.entrant);
    let seated = p.is_seated_on(r.shard);
    let ready = p.is_ready();
    seated & ready
}

// Whether the rotation of each row is resolved.
fn marks_of(board: &[u64]) -> [bool; MOST_ROTATIONS]
    requires { length board.now ≡ board_size }
    ensures { (b : Board) → Holds board.now b → well_formed b ≡ true → Marked b result }
{
    let n = rotations::rows(board);
    let mut marks = [false; MOST_ROTATIONS];
    for i in 0..n {
        marks[i] = is_resolved(board, i);
    }
    marks
}

// ---- one rotation closed

// The committee has no more members than seats, with one more for each rotation still open; no sum here can pass 64 bits.
fn has_seats_free(board: &[u64], shard: ShardId) -> bool
    requires { length board.now ≡ board_size }
    ensures { (b : Board) → Holds board.now b → well_formed b ≡ true → result ≡ has_seats_free shard.0 b }
{
    let Some(j) = rows::find_committee(board, shard) else {
        return false;
    };
    let members = committees::member_count(board, j);
    let open = reads::rotations_on(board, Counted::Open, shard);
    members.saturating_sub(open) as u64 <= settings::shard_size(board)
}

fn retire(board: &mut [u64], shard: ShardId, victim: ValidatorId)
    requires { length board.old ≡ board_size }
    ensures { (b : Board) → Holds board.old b → well_formed b ≡ true → Holds board.new (rules.retire shard.0 victim.0 b) }
{
    if has_seats_free(board, shard) {
        return;
    }
    moves::take_off(board, Exit::FromSeat(shard), shard, victim);
}

// The rotation at row i goes, then its victim.
fn close_at(board: &mut [u64], i: usize)
    requires { (length board.old ≡ board_size) × (i < most_rotations) }
    ensures { (b : Board) → Holds board.old b → well_formed b ≡ true → i < length b.rotations →
        Holds board.new (rules.close (get_or b.rotations i no_rotation) b) }
{
    let r = rotations::at(board, i);
    rotations::close(board, i);
    retire(board, r.shard, r.victim);
}

// ---- the walk

// The rotation at row i is closed where it is marked, else passed; where the next one stands.
fn turn_at(board: &mut [u64], i: usize, marked: bool) -> usize
    requires { (length board.old ≡ board_size) × (i < most_rotations) }
    ensures { (result ≤ i + 1) × ((b : Board) → Holds board.old b → well_formed b ≡ true → i < length b.rotations →
        Turned b i marked board.new result) }
{
    if marked {
        close_at(board, i);
        return i;
    }
    i + 1
}

// Those marked are closed; how many.
fn close_marked(board: &mut [u64], marks: [bool; MOST_ROTATIONS]) -> usize
    requires { length board.old ≡ board_size }
    ensures { (b : Board) → Holds board.old b → well_formed b ≡ true → Marked b marks →
        (result ≡ length (resolved b)) × Holds board.new (for_all rules.close (resolved b) b) }
{
    let n = rotations::rows(board);
    let mut row: usize = 0;
    for i in 0..n {
        row = turn_at(board, row, marks[i]);
    }
    n - row
}

// Resolve, for words that are known to hold a well-formed board.
pub fn resolve_pending_rotations_held(board: &mut [u64]) -> Outcome
    requires { length board.old ≡ board_size }
    ensures { Steps resolve board.old board.new result }
{
    let marks = marks_of(board);
    let handled = close_marked(board, marks);
    steps::done(handled as u64, 0)
}
