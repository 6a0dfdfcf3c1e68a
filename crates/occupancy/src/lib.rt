// Who stands where: committees, machines and cohorts name each other.
#![tactic(auto)]

ghost use Rattle.std.specs.Prelude.{◌≡◌, true, ◌<◌, length, get_or};
ghost use Rattle.rules.specs.Lists.{has};
ghost use Rattle.rules.specs.Board.{Board, most_committees, most_reshapes};
ghost use Rattle.rules.specs.WellFormed.{well_formed};
ghost use Rattle.rules.specs.Moves.{members_of};
ghost use Rattle.rules.specs.SeatCheck.{members_are_there, has_cohort_seat, is_listed, machines_are_listed, cohorts_watch};
ghost use Rattle.board.specs.Layout.{board_size};
ghost use Rattle.board.specs.Held.{Holds, no_committee, no_reshape};
ghost use Rattle.occupancy.specs.Rows.{committee_is_there, cohort_watches};

use board::layout::{MOST_COMMITTEES, MOST_MACHINES, MOST_MEMBERS, MOST_RESHAPES, MOST_SEATS};
use board::{committees, machines};
use reshapes::{fields, seats};
use types::{Machine, Place, ShardId, ValidatorId};

// Loops that stop at the first row that fails: `all` is no plainer, and its closure would need clauses over the board.

// ---- members

// Each member of the committee at j is seated on its shard or observes it.
fn committee_is_there(board: &[u64], j: usize) -> bool
    requires { (length board.now ≡ board_size) × (j < most_committees) }
    ensures { (b : Board) → Holds board.now b → well_formed b ≡ true → j < length b.committees → result ≡ committee_is_there b (get_or b.committees j no_committee) }
{
    let shard = committees::shard_at(board, j);
    let n = steps::rows_within(committees::member_count(board, j), MOST_MEMBERS);
    for k in 0..n {
        let p = rows::place_of(board, committees::member_at(board, j, k));
        if !(p.is_seated_on(shard) | p.observes_shard(shard)) {
            return false;
        }
    }
    true
}

pub fn members_are_there(board: &[u64]) -> bool
    requires { length board.now ≡ board_size }
    ensures { (b : Board) → Holds board.now b → well_formed b ≡ true → result ≡ members_are_there b }
{
    let n = steps::rows_within(committees::count(board), MOST_COMMITTEES);
    for j in 0..n {
        if !committee_is_there(board, j) {
            return false;
        }
    }
    true
}

// ---- machines

pub fn is_member(board: &[u64], shard: ShardId, id: ValidatorId) -> bool
    requires { length board.now ≡ board_size }
    ensures { (b : Board) → Holds board.now b → well_formed b ≡ true → result ≡ has id.0 (members_of shard.0 b) }
{
    match rows::find_committee(board, shard) {
        Some(j) => committees::has_member(board, j, id),
        None => false,
    }
}

pub fn has_cohort_seat(board: &[u64], target: ShardId, id: ValidatorId) -> bool
    requires { length board.now ≡ board_size }
    ensures { (b : Board) → Holds board.now b → well_formed b ≡ true → result ≡ has_cohort_seat target.0 id.0 b }
{
    let Some(i) = rows::find_reshape(board, target) else {
        return false;
    };
    if fields::is_merge(board, i) {
        return false;
    }
    rows::find_seat(board, i, id).is_some()
}

// A machine on a shard is a member there; one that observes it has a seat in a split there too.
pub fn is_listed(board: &[u64], m: Machine) -> bool
    requires { length board.now ≡ board_size }
    ensures { (b : Board) → Holds board.now b → well_formed b ≡ true → result ≡ is_listed b m.id.0 m.place }
{
    match m.place {
        Place::Seated { shard, .. } => is_member(board, shard, m.id),
        Place::Observing { shard, .. } => {
            is_member(board, shard, m.id) & has_cohort_seat(board, shard, m.id)
        }
        Place::Pooled | Place::Short | Place::Other(_) => true,
    }
}

pub fn machines_are_listed(board: &[u64]) -> bool
    requires { length board.now ≡ board_size }
    ensures { (b : Board) → Holds board.now b → well_formed b ≡ true → result ≡ machines_are_listed b }
{
    let n = steps::rows_within(machines::count(board), MOST_MACHINES);
    for i in 0..n {
        if !is_listed(board, machines::at(board, i)) {
            return false;
        }
    }
    true
}

// ---- cohorts

// Each machine with a seat in the split at i observes its target; a merge's seats are its keepers'.
fn cohort_watches(board: &[u64], i: usize) -> bool
    requires { (length board.now ≡ board_size) × (i < most_reshapes) }
    ensures { (b : Board) → Holds board.now b → well_formed b ≡ true → i < length b.reshapes → result ≡ cohort_watches b (get_or b.reshapes i no_reshape) }
{
    if fields::is_merge(board, i) {
        return true;
    }
    let target = fields::target_at(board, i);
    let n = steps::rows_within(seats::count(board, i), MOST_SEATS);
    for k in 0..n {
        let seat = seats::at(board, i, k);
        let p = rows::place_of(board, seat.id);
        if !p.observes_shard(target) {
            return false;
        }
    }
    true
}

pub fn cohorts_watch(board: &[u64]) -> bool
    requires { length board.now ≡ board_size }
    ensures { (b : Board) → Holds board.now b → well_formed b ≡ true → result ≡ cohorts_watch b }
{
    let n = steps::rows_within(fields::count(board), MOST_RESHAPES);
    for i in 0..n {
        if !cohort_watches(board, i) {
            return false;
        }
    }
    true
}
