// A reshape on its way to its terminal: ready seats counted, the drain planned, then applied.
#![tactic(auto)]

ghost use Rattle.std.specs.Prelude.{◌≡◌, ◌+◌, ◌<◌, ◌≤◌, true, [], length, nat_le, slice_index_or, IfSome};
ghost use Rattle.types.specs.Numbers.{Shard};
ghost use Rattle.types.specs.Shards.{quorum};
ghost use Rattle.rules.specs.Table.{update, count_where};
ghost use Rattle.rules.specs.Board.{Board, most_bounds, most_reshapes, most_seats, last_epoch, last_target, on_bounds, on_reshapes, size_of};
ghost use Rattle.rules.specs.WellFormed.{is_stamp, well_formed};
ghost use Rattle.rules.specs.Moves.{for_all, with_drain_by, old_shards, marked_boundary};
ghost use Rattle.rules.specs.Schedule.{is_quiet, scheduled, drain_end};
ghost use Rattle.board.specs.Layout.{board_size};
ghost use Rattle.board.specs.Held.{Holds, no_boundary, no_reshape, no_seat};
ghost use Rattle.rows.specs.Finds.{FoundAt};
ghost use Rattle.drains.specs.Plans.{RowOf, counts_seat, plan_of};

use board::layout::MOST_SEATS;
use board::settings;
use reshapes::{Side, fields, halves, seats};
use shards::bounds;
use types::{Epoch, ShardId};

// ---- ready seats

// Whose ready seats are counted: all, or those of a child. Kept: an option would say none where all are meant.
#[derive(Clone, Copy)]
pub enum Whose {
    All,
    Of(ShardId),
}

fn counts_at(board: &[u64], i: usize, whose: Whose, k: usize) -> bool
    requires { (length board.now ≡ board_size) × (i < most_reshapes) × (k < most_seats) }
    ensures { (b : Board) → Holds board.now b → i < length b.reshapes → k < length (slice_index_or b.reshapes i no_reshape).val.seats →
        result ≡ counts_seat whose (slice_index_or (slice_index_or b.reshapes i no_reshape).val.seats k no_seat).val }
{
    let seat = seats::at(board, i, k);
    match whose {
        Whose::All => seat.ready,
        Whose::Of(child) => (seat.child == child) & seat.ready,
    }
}

// How many seats of the reshape at i are ready.
pub fn ready_seats(board: &[u64], i: usize, whose: Whose) -> usize
    requires { (length board.now ≡ board_size) × (i < most_reshapes) }
    ensures { (result ≤ most_seats) × ((b : Board) → Holds board.now b → i < length b.reshapes →
        result ≡ count_where (counts_seat whose) (slice_index_or b.reshapes i no_reshape).val.seats) }
{
    let n = steps::rows_within(seats::count(board, i), MOST_SEATS);
    let mut ready: usize = 0;
    for k in 0..n {
        ready += usize::from(counts_at(board, i, whose, k));
    }
    ready
}

// A size is 0 on no well-formed board.
pub fn reaches_quorum(board: &[u64], ready: usize) -> bool
    requires { length board.now ≡ board_size }
    ensures { (b : Board) → Holds board.now b → well_formed b ≡ true → result ≡ nat_le (quorum (size_of b)) ready }
{
    let size = settings::shard_size(board);
    if size == 0 {
        return false;
    }
    types::quorum_of(size) <= (ready as u64)
}

// ---- the plan

// What is to be done with a reshape that passed its gate.
#[derive(Clone, Copy)]
pub enum Plan {
    Stamp,
    Wait,
    Schedule,
    Unbounded,
}

// A split is quiet on its one side, a merge on both.
fn is_quiet(board: &[u64], i: usize) -> bool
    requires { (length board.now ≡ board_size) × (i < most_reshapes) }
    ensures { (b : Board) → Holds board.now b → i < length b.reshapes → result ≡ is_quiet (slice_index_or b.reshapes i no_reshape).val }
{
    let left = fields::is_quiet(board, i, Side::Left);
    let merging = fields::is_merge(board, i);
    if merging {
        return left & fields::is_quiet(board, i, Side::Right);
    }
    left
}

// What the reshape of the target, at i, is due.
pub fn plan_at(board: &[u64], target: ShardId, i: usize) -> Plan
    requires { (length board.now ≡ board_size) × (i < most_reshapes) × (target.0 ≤ last_target) }
    ensures { (b : Board) → Holds board.now b → well_formed b ≡ true → i < length b.reshapes →
        result ≡ plan_of target.0 (slice_index_or b.reshapes i no_reshape).val b }
{
    if !fields::is_draining(board, i) {
        return Plan::Stamp;
    }
    if !is_quiet(board, i) {
        return Plan::Wait;
    }
    let merging = fields::is_merge(board, i);
    if families::bounds_stand(board, merging, target) {
        return Plan::Schedule;
    }
    Plan::Unbounded
}

// ---- the plan applied

// On a well-formed board no such sum wraps.
fn later(epoch: Epoch, by: u64) -> Epoch
    ensures { epoch.0 ≤ last_epoch → by ≤ 1000000 → result.0 ≡ epoch.0 + by }
{
    Epoch(std::num::wrapping_add_u64(epoch.0, by))
}

// The reshape at i is to drain until the epoch plus D.
pub fn stamp(board: &mut [u64], i: usize)
    requires { (length board.old ≡ board_size) × (i < most_reshapes) }
    ensures { (b : Board) → Holds board.old b → well_formed b ≡ true → (t : Shard) → RowOf t i b →
        Holds board.new (on_reshapes (update t (with_drain_by (drain_end b))) b) }
{
    let by = later(settings::epoch(board), settings::drain_length(board));
    fields::set_drain_by(board, i, by);
}

// The boundary, where one was found for the shard.
fn mark_found(board: &mut [u64], found: Option<usize>, terminal: Epoch, admitted: Epoch)
    requires { (length board.old ≡ board_size) × IfSome found (λ k. k < most_bounds) }
    ensures { (b : Board) → Holds board.old b → well_formed b ≡ true → (s : Shard) → FoundAt s no_boundary b.bounds found →
        Holds board.new (on_bounds (update s (marked_boundary terminal.0 admitted.0)) b) }
{
    if let Some(k) = found {
        bounds::mark(board, k, terminal, admitted);
    }
}

// The boundaries of the shards that live before the cut get the terminal and the admitted epoch.
fn mark_bounds(board: &mut [u64], target: ShardId, i: usize, terminal: Epoch, admitted: Epoch)
    requires { (length board.old ≡ board_size) × (i < most_reshapes) × (target.0 ≤ last_target) }
    ensures { (b : Board) → Holds board.old b → well_formed b ≡ true → i < length b.reshapes → is_stamp terminal.0 ≡ true → is_stamp admitted.0 ≡ true →
        Holds board.new (for_all (λ s. on_bounds (update s (marked_boundary terminal.0 admitted.0))) (old_shards (slice_index_or b.reshapes i no_reshape).val.kind target.0) b) }
{
    let merging = fields::is_merge(board, i);
    if merging {
        let left = rows::find_bound(board, target.left());
        let right = rows::find_bound_beside(board, left, target.right());
        mark_found(board, left, terminal, admitted);
        mark_found(board, right, terminal, admitted);
        return;
    }
    let own = rows::find_bound(board, target);
    mark_found(board, own, terminal, admitted);
}

// The reshape at i gets its terminal, and no halves; the boundaries are marked.
pub fn schedule(board: &mut [u64], target: ShardId, i: usize)
    requires { (length board.old ≡ board_size) × (i < most_reshapes) × (target.0 ≤ last_target) }
    ensures { (b : Board) → Holds board.old b → well_formed b ≡ true → RowOf target.0 i b →
        Holds board.new (scheduled target.0 (slice_index_or b.reshapes i no_reshape).val [] [] b) }
{
    let terminal = later(settings::epoch(board), 1);
    let admitted = fields::admitted_at(board, i);
    mark_bounds(board, target, i, terminal, admitted);
    fields::set_terminal(board, i, terminal);
    halves::clear(board, i, Side::Left);
    halves::clear(board, i, Side::Right);
}
