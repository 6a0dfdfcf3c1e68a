// A cohort drawn: the pool shuffled, and the first S of it set to watch the target. It plans, then applies: every refusal comes before the first write.
ghost use Rattle.std.specs.Prelude.{◌≡◌, true, cond, not, ◌<◌, ◌≤◌, length, get_or, take, IfSome};
ghost use Rattle.rules.specs.Lists.{every, has, is_empty};
ghost use Rattle.rules.specs.Board.{Board, most_machines, most_committees, most_reshapes, most_seats, size_of};
ghost use Rattle.rules.specs.WellFormed.{is_target, good_ids, well_formed};
ghost use Rattle.rules.specs.Moves.{pool_of, may_join};
ghost use Rattle.rules.specs.Reshapes.{awaits_cohort, watch_all, draw_cohort};
ghost use Rattle.board.specs.Layout.{board_size};
ghost use Rattle.board.specs.Held.{Holds, no_committee, no_reshape};
ghost use Rattle.steps.specs.Inner.{outcome, step_told, Step, Steps};
ghost use Rattle.cohorts.specs.Awaiting.{Awaiting};

use super::watch;
use board::layout::{MOST_COMMITTEES, MOST_MACHINES, MOST_MEMBERS};
use board::{committees, machines};
use reshapes::{fields, seats};
use sampling::Reader;
use types::{Answer, Outcome, ShardId, ValidatorId};

// ---- what is asked

// The pool by rising id, into the first of 256 words; how many.
fn pool_ids(board: &[u64], out: &mut [u64]) -> usize
    requires { (length board.now ≡ board_size) × (length out.old ≡ most_machines) }
    ensures { (result ≤ most_machines) × ((b : Board) → Holds board.now b → take result out.new ≡ pool_of b) }
{
    let n = steps::rows_within(machines::count(board), MOST_MACHINES);
    let mut k: usize = 0;
    for i in 0..n {
        let m = machines::at(board, i);
        // Whoever is not pooled is written over by the next.
        out[k] = m.id.0;
        k += usize::from(m.place.is_pooled());
    }
    k
}

// An unscheduled split with an empty cohort.
fn awaits_cohort(board: &[u64], i: usize) -> bool
    requires { (length board.now ≡ board_size) × (i < most_reshapes) }
    ensures { (b : Board) → Holds board.now b → i < length b.reshapes → result ≡ awaits_cohort (get_or b.reshapes i no_reshape).val }
{
    if fields::is_merge(board, i) {
        return false;
    }
    if fields::is_scheduled(board, i) {
        return false;
    }
    seats::count(board, i) == 0
}

// The row of the target's split, if it awaits its cohort.
fn find_awaiting(board: &[u64], target: ShardId) -> Option<usize>
    requires { length board.now ≡ board_size }
    ensures room { IfSome result (λ i. i < most_reshapes) }
    ensures found { (b : Board) → Holds board.now b → well_formed b ≡ true → Awaiting target.0 b result }
{
    let i = rows::find_reshape(board, target)?;
    if awaits_cohort(board, i) {
        Some(i)
    } else {
        None
    }
}

// No id is a member of the committee at j.
fn none_joined(board: &[u64], j: usize, ids: &[u64]) -> bool
    requires { (length board.now ≡ board_size) × (j < most_committees) }
    ensures { (b : Board) → Holds board.now b → j < length b.committees →
        result ≡ every (λ x. not (has x (get_or b.committees j no_committee).val)) ids.now }
{
    for id in ids {
        if committees::has_member(board, j, ValidatorId(*id)) {
            return false;
        }
    }
    true
}

fn may_join_all(board: &[u64], target: ShardId, ids: &[u64]) -> bool
    requires { (length board.now ≡ board_size) × (length ids.now ≤ most_seats) }
    ensures { (b : Board) → Holds board.now b → well_formed b ≡ true → result ≡ may_join target.0 ids.now b }
{
    let Some(j) = rows::find_committee(board, target) else {
        return committees::count(board) < MOST_COMMITTEES;
    };
    if none_joined(board, j, ids) {
        return committees::member_count(board, j) <= MOST_MEMBERS - ids.len();
    }
    false
}

// ---- the step

// The ids are the cohort of the split at i, if the committee has room for all of them.
fn enlist(
    board: &mut [u64],
    i: usize,
    target: ShardId,
    ids: &[u64],
    used: u64,
) -> Result<Outcome, Answer>
    requires { (length board.old ≡ board_size) × (i < most_reshapes) × (target.0 ≤ 65535) × (length ids.now ≤ most_seats) }
    ensures { (b : Board) → Holds board.old b → well_formed b ≡ true → i < length b.reshapes → (get_or b.reshapes i no_reshape).key ≡ target.0 →
        is_empty (get_or b.reshapes i no_reshape).val.seats ≡ true → good_ids most_seats ids.now ≡ true →
        (step_told result ≡ cond (may_join target.0 ids.now b) (outcome Answer.Done (length ids.now) used) (outcome Answer.NoRoom 0 0))
        × Holds board.new (cond (may_join target.0 ids.now b) (watch_all target.0 ids.now b) b) }
{
    if !may_join_all(board, target, ids) {
        return Err(Answer::NoRoom);
    }
    watch::watch_all(board, i, target, ids);
    Ok(steps::done(ids.len() as u64, used))
}

// The draw for a split that awaits its cohort at i, from the pool, which has enough.
fn draw_from(
    board: &mut [u64],
    i: usize,
    target: ShardId,
    size: usize,
    draws: &[u64],
    pool: &mut [u64],
) -> Result<Outcome, Answer>
    requires { (length board.old ≡ board_size) × (i < most_reshapes) × (target.0 ≤ 65535) × (size ≤ most_seats) × (size ≤ length pool.old) }
    ensures { (b : Board) → Holds board.old b → well_formed b ≡ true → is_target target.0 ≡ true → i < length b.reshapes → (get_or b.reshapes i no_reshape).key ≡ target.0 →
        awaits_cohort (get_or b.reshapes i no_reshape).val ≡ true → size ≡ size_of b → pool.old ≡ pool_of b → Step (draw_cohort target.0 draws.now) b board.new (step_told result) }
{
    let left = Reader::start().shuffled(pool, draws)?;
    enlist(board, i, target, &pool[..size], left.at as u64)
}

// The same, if the pool has enough.
fn draw_for(board: &mut [u64], i: usize, target: ShardId, draws: &[u64]) -> Result<Outcome, Answer>
    requires { (length board.old ≡ board_size) × (i < most_reshapes) × (target.0 ≤ 65535) }
    ensures { (b : Board) → Holds board.old b → well_formed b ≡ true → is_target target.0 ≡ true → i < length b.reshapes → (get_or b.reshapes i no_reshape).key ≡ target.0 →
        awaits_cohort (get_or b.reshapes i no_reshape).val ≡ true → Step (draw_cohort target.0 draws.now) b board.new (step_told result) }
{
    let mut ids: [u64; MOST_MACHINES] = [0; MOST_MACHINES];
    let n = pool_ids(board, &mut ids);
    let size = watch::cohort_size(board);
    if n < size {
        return Err(Answer::PoolTooSmall);
    }
    draw_from(board, i, target, size, draws, &mut ids[..n])
}

fn draw(board: &mut [u64], target: ShardId, draws: &[u64]) -> Result<Outcome, Answer>
    requires { length board.old ≡ board_size }
    ensures { Steps (draw_cohort target.0 draws.now) board.old board.new (step_told result) }
{
    if !rows::is_target(target) {
        return Err(Answer::OutOfRange);
    }
    let Some(i) = find_awaiting(board, target) else {
        return Err(Answer::NotThere);
    };
    draw_for(board, i, target, draws)
}

// Draw cohort, for words that are known to hold a well-formed board.
pub fn draw_split_cohort_held(board: &mut [u64], target: ShardId, draws: &[u64]) -> Outcome
    requires { length board.old ≡ board_size }
    ensures { Steps (draw_cohort target.0 draws.now) board.old board.new result }
{
    steps::told(draw(board, target, draws))
}
