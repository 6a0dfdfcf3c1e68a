// The table of committees, by rising shard; a committee's members are a table in its row.
ghost use Rattle.std.specs.Prelude.{◌≡◌, [], ◌∷◌, ◌++◌, ◌+◌, ◌<◌, ◌≤◌, length, get_or};
ghost use Rattle.rules.specs.Lists.{has, strike};
ghost use Rattle.rules.specs.Table.{entry};
ghost use Rattle.rules.specs.Board.{Board, most_committees, most_members, on_committees};
ghost use Rattle.tables.specs.Rows.{id_table, Rising, key_of, place_of, insert_at, remove_at};
ghost use Rattle.board.specs.Layout.{board_size};
ghost use Rattle.board.specs.Held.{Holds, no_committee};
ghost use Rattle.board.specs.Leaves.{change_at};

use super::layout::{
    BOUNDS_AT, COMMITTEE_WIDTH, COMMITTEES_AT, MEMBERS_AT, MEMBERS_SIZE, MOST_COMMITTEES,
    MOST_MEMBERS,
};
use types::{ShardId, ValidatorId};

pub fn count(ws: &[u64]) -> usize
    requires { length ws.now ≡ board_size }
    ensures { (b : Board) → Holds ws.now b → result ≡ length b.committees }
{
    ws[COMMITTEES_AT] as usize
}

pub fn shard_at(ws: &[u64], j: usize) -> ShardId
    requires { (length ws.now ≡ board_size) × (j < most_committees) }
    ensures { (b : Board) → Holds ws.now b → j < length b.committees → result.0 ≡ (get_or b.committees j no_committee).key }
{
    let a = COMMITTEES_AT + 1 + j * COMMITTEE_WIDTH;
    ShardId(ws[a])
}

// Where the committee of a shard stands, or would.
pub fn place_of(ws: &[u64], shard: ShardId) -> usize
    requires { length ws.now ≡ board_size }
    ensures { (result ≤ most_committees) × ((b : Board) → Holds ws.now b → Rising key_of b.committees → result ≡ place_of key_of shard.0 b.committees) }
{
    tables::place_of(
        &ws[COMMITTEES_AT..BOUNDS_AT],
        COMMITTEE_WIDTH,
        MOST_COMMITTEES,
        shard.0,
    )
}

// ---- members

// The words of the members of the committee at j.
fn members(ws: &[u64], j: usize) -> &[u64]
    requires { (length ws.now ≡ board_size) × (j < most_committees) }
    ensures wide { length result.now ≡ 1 + most_members }
    ensures held { (b : Board) → Holds ws.now b → j < length b.committees → result.now ≡ id_table most_members (get_or b.committees j no_committee).val }
{
    let a = COMMITTEES_AT + 1 + j * COMMITTEE_WIDTH + MEMBERS_AT;
    let e = a + MEMBERS_SIZE;
    &ws[a..e]
}

pub fn member_count(ws: &[u64], j: usize) -> usize
    requires { (length ws.now ≡ board_size) × (j < most_committees) }
    ensures { (b : Board) → Holds ws.now b → j < length b.committees → result ≡ length (get_or b.committees j no_committee).val }
{
    members(ws, j)[0] as usize
}

pub fn member_at(ws: &[u64], j: usize, i: usize) -> ValidatorId
    requires { (length ws.now ≡ board_size) × (j < most_committees) × (i < most_members) }
    ensures { (b : Board) → Holds ws.now b → j < length b.committees → i < length (get_or b.committees j no_committee).val →
        result.0 ≡ get_or (get_or b.committees j no_committee).val i 0 }
{
    ValidatorId(members(ws, j)[1 + i])
}

pub fn has_member(ws: &[u64], j: usize, id: ValidatorId) -> bool
    requires { (length ws.now ≡ board_size) × (j < most_committees) }
    ensures { (b : Board) → Holds ws.now b → j < length b.committees → result ≡ has id.0 (get_or b.committees j no_committee).val }
{
    tables::contains(members(ws, j), MOST_MEMBERS, id.0)
}

// A member more, at the end.
pub fn push_member(ws: &mut [u64], j: usize, id: ValidatorId)
    requires { (length ws.old ≡ board_size) × (j < most_committees) }
    ensures { (b : Board) → Holds ws.old b → j < length b.committees → length (get_or b.committees j no_committee).val < most_members →
        Holds ws.new (on_committees (change_at no_committee j (λ l. l ++ (id.0 ∷ []))) b) }
{
    let a = COMMITTEES_AT + 1 + j * COMMITTEE_WIDTH + MEMBERS_AT;
    let e = a + MEMBERS_SIZE;
    tables::push(&mut ws[a..e], MOST_MEMBERS, id.0);
}

// A member is struck.
pub fn strike_member(ws: &mut [u64], j: usize, id: ValidatorId)
    requires { (length ws.old ≡ board_size) × (j < most_committees) }
    ensures { (b : Board) → Holds ws.old b → j < length b.committees →
        Holds ws.new (on_committees (change_at no_committee j (strike id.0)) b) }
{
    let a = COMMITTEES_AT + 1 + j * COMMITTEE_WIDTH + MEMBERS_AT;
    let e = a + MEMBERS_SIZE;
    tables::strike_id(&mut ws[a..e], MOST_MEMBERS, id.0);
}

// All members go.
pub fn clear_members(ws: &mut [u64], j: usize)
    requires { (length ws.old ≡ board_size) × (j < most_committees) }
    ensures { (b : Board) → Holds ws.old b → j < length b.committees →
        Holds ws.new (on_committees (change_at no_committee j (λ l. [])) b) }
{
    let a = COMMITTEES_AT + 1 + j * COMMITTEE_WIDTH + MEMBERS_AT;
    let e = a + MEMBERS_SIZE;
    tables::empty(&mut ws[a..e], 1, MOST_MEMBERS);
}

// ---- committees opened and closed

// A committee with no members, at j.
pub fn open(ws: &mut [u64], j: usize, shard: ShardId)
    requires { (length ws.old ≡ board_size) × (j < most_committees) }
    ensures { (b : Board) → Holds ws.old b → length b.committees < most_committees → j ≤ length b.committees →
        Holds ws.new (on_committees (λ t. insert_at t j (entry shard.0 [])) b) }
{
    tables::open_row(
        &mut ws[COMMITTEES_AT..BOUNDS_AT],
        COMMITTEE_WIDTH,
        MOST_COMMITTEES,
        j,
    );
    let a = COMMITTEES_AT + 1 + j * COMMITTEE_WIDTH;
    ws[a] = shard.0;
}

// The committee at j goes.
pub fn close(ws: &mut [u64], j: usize)
    requires { length ws.old ≡ board_size }
    ensures { (b : Board) → Holds ws.old b → j < length b.committees → Holds ws.new (on_committees (λ t. remove_at t j) b) }
{
    tables::remove_row(
        &mut ws[COMMITTEES_AT..BOUNDS_AT],
        COMMITTEE_WIDTH,
        MOST_COMMITTEES,
        j,
    );
}
