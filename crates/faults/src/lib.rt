// For each clause of the seat check the next row, from a place on, that breaks it; the end of the rows where none does.
// Which test of the row failed is asked of occupancy, parties, carved and families.
// A number and no option: the definitions name the end of the rows too, and a walk goes on from what it is told.
// Each finder has its loop: a closure in its place would need clauses of its own for what the board holds.
#![tactic(auto)]

ghost use Rattle.std.specs.Prelude.{◌≡◌, true, ◌<◌, ◌≤◌, length};
ghost use Rattle.rules.specs.Board.{Board, most_committees, most_rotations, most_reshapes};
ghost use Rattle.rules.specs.WellFormed.{well_formed};
ghost use Rattle.board.specs.Layout.{board_size};
ghost use Rattle.board.specs.Held.{Holds};
ghost use Rattle.faults.specs.Firsts.{stray_member, unlisted_machine, absent_seat, unseated_rotation, sharing_rotation, rotation_there, unhalved_machine, overlapping_reshape, unfounded_reshape};

use board::layout::{MOST_MACHINES, MOST_MEMBERS, MOST_RESHAPES, MOST_SEATS};
use board::{committees, machines};
use reshapes::{fields, seats as reshape_seats};
use shards::rotations;

// ---- members, machines and cohorts

// A member of the committee at j that is neither seated on its shard nor observes it.
pub fn next_stray_member(board: &[u64], j: usize, at: usize) -> usize
    requires { (length board.now ≡ board_size) × (j < most_committees) }
    ensures { (at ≤ result) × ((b : Board) → Holds board.now b → well_formed b ≡ true → j < length b.committees → result ≡ stray_member b j at) }
{
    let shard = committees::shard_at(board, j);
    let n = steps::rows_within(committees::member_count(board, j), MOST_MEMBERS);
    for k in at..n {
        let p = rows::place_of(board, committees::member_at(board, j, k));
        if !(p.is_seated_on(shard) | p.observes_shard(shard)) {
            return k;
        }
    }
    at.max(n)
}

// A machine on a shard that is not in its committee, or that observes it and has no seat in a split there.
pub fn next_unlisted_machine(board: &[u64], at: usize) -> usize
    requires { length board.now ≡ board_size }
    ensures { (at ≤ result) × ((b : Board) → Holds board.now b → well_formed b ≡ true → result ≡ unlisted_machine b at) }
{
    let n = steps::rows_within(machines::count(board), MOST_MACHINES);
    for i in at..n {
        if !occupancy::is_listed(board, machines::at(board, i)) {
            return i;
        }
    }
    at.max(n)
}

// A seat in the split at i whose machine does not observe its target.
pub fn next_absent_seat(board: &[u64], i: usize, at: usize) -> usize
    requires { (length board.now ≡ board_size) × (i < most_reshapes) }
    ensures { (at ≤ result) × ((b : Board) → Holds board.now b → well_formed b ≡ true → i < length b.reshapes → result ≡ absent_seat b i at) }
{
    let merging = fields::is_merge(board, i);
    let target = fields::target_at(board, i);
    let n = steps::rows_within(reshape_seats::count(board, i), MOST_SEATS);
    for k in at..n {
        let seat = reshape_seats::at(board, i, k);
        let p = rows::place_of(board, seat.id);
        if !(merging | p.observes_shard(target)) {
            return k;
        }
    }
    at.max(n)
}

// ---- rotations

// A rotation whose parties are one machine, or not both seated on its shard.
pub fn next_unseated_rotation(board: &[u64], at: usize) -> usize
    requires { length board.now ≡ board_size }
    ensures { (at ≤ result) × ((b : Board) → Holds board.now b → well_formed b ≡ true → result ≡ unseated_rotation b at) }
{
    let n = rotations::rows(board);
    for i in at..n {
        let r = rotations::at(board, i);
        let seated = parties::sits_on(board, r.shard, r.victim)
            & parties::sits_on(board, r.shard, r.entrant);
        if !((r.entrant != r.victim) & seated) {
            return i;
        }
    }
    at.max(n)
}

// A rotation that shares its shard and a party with the one at i.
pub fn next_sharing_rotation(board: &[u64], i: usize, at: usize) -> usize
    requires { (length board.now ≡ board_size) × (i < most_rotations) }
    ensures { (at ≤ result) × ((b : Board) → Holds board.now b → i < length b.rotations → result ≡ sharing_rotation b i at) }
{
    let p = rotations::at(board, i);
    let n = rotations::rows(board);
    for k in at..n {
        if parties::share_party(p, rotations::at(board, k)) {
            return k;
        }
    }
    at.max(n)
}

// ---- scheduled splits

// A rotation on the target of the reshape at i, where that is a scheduled split.
pub fn next_rotation_there(board: &[u64], i: usize, at: usize) -> usize
    requires { (length board.now ≡ board_size) × (i < most_reshapes) }
    ensures { (at ≤ result) × ((b : Board) → Holds board.now b → i < length b.reshapes → result ≡ rotation_there b i at) }
{
    let scheduled = !fields::is_merge(board, i) & fields::is_scheduled(board, i);
    let target = fields::target_at(board, i);
    let n = rotations::rows(board);
    for k in at..n {
        let r = rotations::at(board, k);
        if scheduled & (r.shard == target) {
            return k;
        }
    }
    at.max(n)
}

// A machine seated on the target of the reshape at i, where that is a scheduled split, and in no half of it or in both.
pub fn next_unhalved_machine(board: &[u64], i: usize, at: usize) -> usize
    requires { (length board.now ≡ board_size) × (i < most_reshapes) }
    ensures { (at ≤ result) × ((b : Board) → Holds board.now b → i < length b.reshapes → result ≡ unhalved_machine b i at) }
{
    let scheduled = !fields::is_merge(board, i) & fields::is_scheduled(board, i);
    let target = fields::target_at(board, i);
    let n = steps::rows_within(machines::count(board), MOST_MACHINES);
    for k in at..n {
        if scheduled & !carved::is_in_one_half(board, i, target, machines::at(board, k)) {
            return k;
        }
    }
    at.max(n)
}

// ---- reshapes

// A reshape whose family shares a shard with that of the one at i.
pub fn next_overlapping_reshape(board: &[u64], i: usize, at: usize) -> usize
    requires { (length board.now ≡ board_size) × (i < most_reshapes) }
    ensures { (at ≤ result) × ((b : Board) → Holds board.now b → i < length b.reshapes → result ≡ overlapping_reshape b i at) }
{
    let target = fields::target_at(board, i);
    let n = steps::rows_within(fields::count(board), MOST_RESHAPES);
    for k in at..n {
        if families::overlaps(target, fields::target_at(board, k)) {
            return k;
        }
    }
    at.max(n)
}

// A reshape that lacks a committee, a gap or a boundary that its admission asks for.
pub fn next_unfounded_reshape(board: &[u64], at: usize) -> usize
    requires { length board.now ≡ board_size }
    ensures { (at ≤ result) × ((b : Board) → Holds board.now b → well_formed b ≡ true → result ≡ unfounded_reshape b at) }
{
    let n = steps::rows_within(fields::count(board), MOST_RESHAPES);
    for i in at..n {
        if !seats::reshape_stands(board, i) {
            return i;
        }
    }
    at.max(n)
}
