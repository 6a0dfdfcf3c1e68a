// What a reshape that is not scheduled waits for. Ready seats are counted in drains; reshapes::fields tells whether it drains and is quiet.
#![tactic(auto)]

ghost use Rattle.std.specs.Prelude.{◌≡◌, true, ◌<◌, ◌≤◌, length, get_or};
ghost use Rattle.types.specs.Shards as shards;
ghost use Rattle.types.specs.Places.{is_seated_on};
ghost use Rattle.rules.specs.Lists.{count};
ghost use Rattle.rules.specs.Table.{count_where};
ghost use Rattle.rules.specs.Board.{Board, most_committees, most_members, most_reshapes, most_seats, size_of};
ghost use Rattle.rules.specs.WellFormed.{well_formed};
ghost use Rattle.rules.specs.Moves.{says};
ghost use Rattle.board.specs.Layout.{board_size};
ghost use Rattle.board.specs.Held.{Holds, no_committee, no_reshape};
ghost use Rattle.waits.specs.Counts.{is_for, is_ready_on, epoch_of, Mustered};

use board::layout::{DRAIN_BY, MOST_MEMBERS, MOST_SEATS, RESHAPE_WIDTH, RESHAPES_AT};
use board::{committees, settings};
use reshapes::{fields, seats};
use types::{Epoch, ShardId};

// ---- the gate

// How many ready ones each child of a split asks for, and a merge of both together.
pub fn quorum(board: &[u64]) -> u64
    requires { length board.now ≡ board_size }
    ensures { (b : Board) → Holds board.now b → well_formed b ≡ true → result ≡ shards.quorum (size_of b) }
{
    let size = settings::shard_size(board);
    if size == 0 {
        return 0;
    }
    types::quorum_of(size)
}

// How many seats of the reshape at i are for the child, ready or not.
pub fn seats_for(board: &[u64], i: usize, child: ShardId) -> usize
    requires { (length board.now ≡ board_size) × (i < most_reshapes) }
    ensures { (result ≤ most_seats) × ((b : Board) → Holds board.now b → i < length b.reshapes →
        result ≡ count_where (is_for child.0) (get_or b.reshapes i no_reshape).val.seats) }
{
    let n = steps::rows_within(seats::count(board, i), MOST_SEATS);
    // The seats stand as words of the board, so no iterator goes over them.
    let mut r = 0;
    for k in 0..n {
        let seat = seats::at(board, i, k);
        r += usize::from(seat.child == child);
    }
    r
}

// ---- members

// How many members are seated on a shard, and how many of them are ready.
#[derive(Clone, Copy)]
pub struct Members {
    pub seated: usize,
    pub ready: usize,
}

fn members_at(board: &[u64], j: usize, shard: ShardId) -> Members
    requires { (length board.now ≡ board_size) × (j < most_committees) }
    ensures { (result.seated ≤ most_members) × (result.ready ≤ most_members) × ((b : Board) → Holds board.now b → well_formed b ≡ true → j < length b.committees →
        (result.seated ≡ count (says (is_seated_on shard.0) b) (get_or b.committees j no_committee).val)
        × (result.ready ≡ count (says (is_ready_on shard.0) b) (get_or b.committees j no_committee).val)) }
{
    let n = steps::rows_within(committees::member_count(board, j), MOST_MEMBERS);
    // Both counts in one walk, so no `filter` and `count`.
    let mut seated = 0;
    let mut ready = 0;
    for k in 0..n {
        let p = rows::place_of(board, committees::member_at(board, j, k));
        let here = p.is_seated_on(shard);
        seated += usize::from(here);
        ready += usize::from(here & p.is_ready());
    }
    Members { seated, ready }
}

// Of the shard's committee; none where it has no committee.
pub fn members_on(board: &[u64], shard: ShardId) -> Members
    requires { length board.now ≡ board_size }
    ensures { (result.seated ≤ most_members) × (result.ready ≤ most_members) × ((b : Board) → Holds board.now b → well_formed b ≡ true → Mustered shard.0 b result) }
{
    match rows::find_committee(board, shard) {
        Some(j) => members_at(board, j, shard),
        None => Members {
            seated: 0,
            ready: 0,
        },
    }
}

// ---- the drain

// The epoch until which the reshape at i drains; none where its drain is not stamped.
pub fn drain_by(board: &[u64], i: usize) -> Option<Epoch>
    requires { (length board.now ≡ board_size) × (i < most_reshapes) }
    ensures { (b : Board) → Holds board.now b → i < length b.reshapes → epoch_of result ≡ (get_or b.reshapes i no_reshape).val.drain_by }
{
    if !fields::is_draining(board, i) {
        return None;
    }
    let a = RESHAPES_AT + 1 + i * RESHAPE_WIDTH;
    Some(Epoch(board[a + DRAIN_BY]))
}
