// A committee without those who have a seat in a reshape: one pass over its members.
#![tactic(auto)]

ghost use Rattle.std.specs.Prelude.{◌≡◌, true, not, ◌<◌, ◌≤◌, length, get_or, set, take};
ghost use Rattle.rules.specs.Lists.{keep};
ghost use Rattle.rules.specs.Table.{stands, update};
ghost use Rattle.rules.specs.Board.{Board, most_committees, most_members, most_reshapes, on_committees};
ghost use Rattle.rules.specs.WellFormed.{well_formed};
ghost use Rattle.tables.specs.Rows.{Rising, key_of};
ghost use Rattle.board.specs.Layout.{board_size};
ghost use Rattle.board.specs.Held.{Holds, no_committee, no_reshape};
ghost use Rattle.board.specs.Leaves.{change_at};

use board::committees;
use board::layout::{COMMITTEE_WIDTH, COMMITTEES_AT, MEMBERS_AT, MEMBERS_SIZE, MOST_MEMBERS};
use reshapes::seats;
use types::{ShardId, ValidatorId};

// ---- a committee's members, at j

fn put_member(board: &mut [u64], j: usize, m: usize, id: ValidatorId)
    requires { (length board.old ≡ board_size) × (j < most_committees) × (m < most_members) }
    ensures { (b : Board) → Holds board.old b → j < length b.committees → m < length (get_or b.committees j no_committee).val →
        Holds board.new (on_committees (change_at no_committee j (λ l. set l m id.0)) b) }
{
    let a = COMMITTEES_AT + 1 + j * COMMITTEE_WIDTH + MEMBERS_AT;
    board[a + (1 + m)] = id.0;
}

// Only the first k stay.
fn cut_members(board: &mut [u64], j: usize, k: usize)
    requires { (length board.old ≡ board_size) × (j < most_committees) }
    ensures { (b : Board) → Holds board.old b → j < length b.committees → k ≤ length (get_or b.committees j no_committee).val →
        Holds board.new (on_committees (change_at no_committee j (take k)) b) }
{
    let a = COMMITTEES_AT + 1 + j * COMMITTEE_WIDTH + MEMBERS_AT;
    let e = a + MEMBERS_SIZE;
    tables::cut(&mut board[a..e], MOST_MEMBERS, k);
}

// ---- those with no seat

// The machine has a seat in the reshape at i. Of the board it asks only that these seats rise: a committee is halfway here.
fn has_seat(board: &[u64], i: usize, id: ValidatorId) -> bool
    requires { (length board.now ≡ board_size) × (i < most_reshapes) }
    ensures { (b : Board) → Holds board.now b → i < length b.reshapes → Rising key_of (get_or b.reshapes i no_reshape).val.seats →
        result ≡ stands id.0 (get_or b.reshapes i no_reshape).val.seats }
{
    seats::find(board, i, id).is_some()
}

// Those of the committee at j with no seat in the reshape at i close ranks, in their order.
fn keep_unseated(board: &mut [u64], j: usize, i: usize)
    requires { (length board.old ≡ board_size) × (j < most_committees) × (i < most_reshapes) }
    ensures { (b : Board) → Holds board.old b → j < length b.committees → i < length b.reshapes → Rising key_of (get_or b.reshapes i no_reshape).val.seats →
        Holds board.new (on_committees (change_at no_committee j (keep (λ x. not (stands x (get_or b.reshapes i no_reshape).val.seats)))) b) }
{
    let n = steps::rows_within(committees::member_count(board, j), MOST_MEMBERS);
    let mut k: usize = 0;
    for m in 0..n {
        let id = committees::member_at(board, j, m);
        put_member(board, j, k, id);
        k += usize::from(!has_seat(board, i, id));
    }
    cut_members(board, j, k);
}

// Those with a seat in the reshape at i are struck from the shard's committee.
pub fn strike_seated(board: &mut [u64], shard: ShardId, i: usize)
    requires { (length board.old ≡ board_size) × (i < most_reshapes) }
    ensures { (b : Board) → Holds board.old b → well_formed b ≡ true → i < length b.reshapes →
        Holds board.new (on_committees (update shard.0 (keep (λ x. not (stands x (get_or b.reshapes i no_reshape).val.seats)))) b) }
{
    let Some(j) = rows::find_committee(board, shard) else {
        return;
    };
    keep_unseated(board, j, i);
}
