// A reshape's seats: a table in its row, by rising id.
ghost use Rattle.std.specs.Prelude.{◌≡◌, [], ◌+◌, ◌*◌, ◌<◌, ◌≤◌, length, get_or, set, IfSome};
ghost use Rattle.rules.specs.Table.{Entry, Table};
ghost use Rattle.rules.specs.Board as rules;
ghost use Rattle.rules.specs.Board.{Board, most_reshapes, most_seats, on_reshapes};
ghost use Rattle.rules.specs.Moves.{with_seats};
ghost use Rattle.rules.specs.Snapshot.{seat_words};
ghost use Rattle.tables.specs.Rows.{Rising, key_of, place_of, find_row, insert_at, remove_at};
ghost use Rattle.board.specs.Layout.{board_size, seat_width, seat_table};
ghost use Rattle.board.specs.Held.{Holds, no_reshape, no_seat};
ghost use Rattle.board.specs.Leaves.{change_at};
ghost use Rattle.reshapes.specs.Changes.{seat_entry};

use board::layout::{MOST_SEATS, RESHAPE_WIDTH, RESHAPES_AT, SEAT_WIDTH, SEATS_AT, SEATS_SIZE};
use types::{ShardId, ValidatorId};

#[derive(Clone, Copy)]
pub struct Seat {
    pub id: ValidatorId,
    pub child: ShardId,
    pub ready: bool,
}

// ---- a table of seats

fn load(t: &[u64]) -> Seat
    requires { length t.now ≡ seat_width }
    ensures { (e : Entry rules.Seat) → t.now ≡ seat_words e → seat_entry result ≡ e }
{
    Seat {
        id: ValidatorId(t[0]),
        child: ShardId(t[1]),
        ready: t[2] == 1,
    }
}

#[tactic(auto, using(board::proofs::Bits::bit_is), unfolding(rules::specs::Snapshot::seat_words))]
fn row(q: Seat) -> [u64; SEAT_WIDTH]
    ensures { result ≡ seat_words (seat_entry q) }
{
    [q.id.0, q.child.0, u64::from(q.ready)]
}

fn load_from(t: &[u64], k: usize) -> Seat
    requires { (length t.now ≡ 1 + most_seats * seat_width) × (k < most_seats) }
    ensures { (xs : Table rules.Seat) → t.now ≡ seat_table xs → length xs ≤ most_seats → k < length xs → seat_entry result ≡ get_or xs k no_seat }
{
    let a = 1 + k * SEAT_WIDTH;
    let e = a + SEAT_WIDTH;
    load(&t[a..e])
}

fn put_in(t: &mut [u64], k: usize, q: Seat)
    requires { (length t.old ≡ 1 + most_seats * seat_width) × (k < most_seats) }
    ensures { (xs : Table rules.Seat) → t.old ≡ seat_table xs → length xs ≤ most_seats → k < length xs → t.new ≡ seat_table (set xs k (seat_entry q)) }
{
    let a = 1 + k * SEAT_WIDTH;
    let e = a + SEAT_WIDTH;
    t[a..e].copy_from_slice(&row(q));
}

fn open_in(t: &mut [u64], k: usize, q: Seat)
    requires { (length t.old ≡ 1 + most_seats * seat_width) × (k < most_seats) }
    ensures { (xs : Table rules.Seat) → t.old ≡ seat_table xs → length xs < most_seats → k ≤ length xs → t.new ≡ seat_table (insert_at xs k (seat_entry q)) }
{
    tables::open_row(t, SEAT_WIDTH, MOST_SEATS, k);
    put_in(t, k, q);
}

// ---- the seats of the reshape at i

pub fn count(ws: &[u64], i: usize) -> usize
    requires { (length ws.now ≡ board_size) × (i < most_reshapes) }
    ensures { (b : Board) → Holds ws.now b → i < length b.reshapes → result ≡ length (get_or b.reshapes i no_reshape).val.seats }
{
    let a = RESHAPES_AT + 1 + i * RESHAPE_WIDTH + SEATS_AT;
    ws[a] as usize
}

pub fn at(ws: &[u64], i: usize, k: usize) -> Seat
    requires { (length ws.now ≡ board_size) × (i < most_reshapes) × (k < most_seats) }
    ensures { (b : Board) → Holds ws.now b → i < length b.reshapes → k < length (get_or b.reshapes i no_reshape).val.seats →
        seat_entry result ≡ get_or (get_or b.reshapes i no_reshape).val.seats k no_seat }
{
    let a = RESHAPES_AT + 1 + i * RESHAPE_WIDTH + SEATS_AT;
    let e = a + SEATS_SIZE;
    load_from(&ws[a..e], k)
}

// Where the seat of an id stands, or would.
pub fn place_of(ws: &[u64], i: usize, id: ValidatorId) -> usize
    requires { (length ws.now ≡ board_size) × (i < most_reshapes) }
    ensures { (result ≤ most_seats) × ((b : Board) → Holds ws.now b → i < length b.reshapes → Rising key_of (get_or b.reshapes i no_reshape).val.seats →
        result ≡ place_of key_of id.0 (get_or b.reshapes i no_reshape).val.seats) }
{
    let a = RESHAPES_AT + 1 + i * RESHAPE_WIDTH + SEATS_AT;
    let e = a + SEATS_SIZE;
    tables::place_of(&ws[a..e], SEAT_WIDTH, MOST_SEATS, id.0)
}

// The row of an id's seat, where it has one.
pub fn find(ws: &[u64], i: usize, id: ValidatorId) -> Option<usize>
    requires { (length ws.now ≡ board_size) × (i < most_reshapes) }
    ensures room { IfSome result (λ k. k < most_seats) }
    ensures found { (b : Board) → Holds ws.now b → i < length b.reshapes → Rising key_of (get_or b.reshapes i no_reshape).val.seats →
        result ≡ find_row key_of id.0 (get_or b.reshapes i no_reshape).val.seats }
{
    let a = RESHAPES_AT + 1 + i * RESHAPE_WIDTH + SEATS_AT;
    let e = a + SEATS_SIZE;
    tables::find_row(&ws[a..e], SEAT_WIDTH, MOST_SEATS, id.0)
}

pub fn put(ws: &mut [u64], i: usize, k: usize, q: Seat)
    requires { (length ws.old ≡ board_size) × (i < most_reshapes) × (k < most_seats) }
    ensures { (b : Board) → Holds ws.old b → i < length b.reshapes → k < length (get_or b.reshapes i no_reshape).val.seats →
        Holds ws.new (on_reshapes (change_at no_reshape i (with_seats (λ t. set t k (seat_entry q)))) b) }
{
    let a = RESHAPES_AT + 1 + i * RESHAPE_WIDTH + SEATS_AT;
    let e = a + SEATS_SIZE;
    put_in(&mut ws[a..e], k, q);
}

// A seat more, at k.
pub fn open(ws: &mut [u64], i: usize, k: usize, q: Seat)
    requires { (length ws.old ≡ board_size) × (i < most_reshapes) × (k < most_seats) }
    ensures { (b : Board) → Holds ws.old b → i < length b.reshapes → length (get_or b.reshapes i no_reshape).val.seats < most_seats →
        k ≤ length (get_or b.reshapes i no_reshape).val.seats → Holds ws.new (on_reshapes (change_at no_reshape i (with_seats (λ t. insert_at t k (seat_entry q)))) b) }
{
    let a = RESHAPES_AT + 1 + i * RESHAPE_WIDTH + SEATS_AT;
    let e = a + SEATS_SIZE;
    open_in(&mut ws[a..e], k, q);
}

// The seat at k goes.
pub fn close(ws: &mut [u64], i: usize, k: usize)
    requires { (length ws.old ≡ board_size) × (i < most_reshapes) }
    ensures { (b : Board) → Holds ws.old b → i < length b.reshapes → k < length (get_or b.reshapes i no_reshape).val.seats →
        Holds ws.new (on_reshapes (change_at no_reshape i (with_seats (λ t. remove_at t k))) b) }
{
    let a = RESHAPES_AT + 1 + i * RESHAPE_WIDTH + SEATS_AT;
    let e = a + SEATS_SIZE;
    tables::remove_row(&mut ws[a..e], SEAT_WIDTH, MOST_SEATS, k);
}

// All seats go.
pub fn clear(ws: &mut [u64], i: usize)
    requires { (length ws.old ≡ board_size) × (i < most_reshapes) }
    ensures { (b : Board) → Holds ws.old b → i < length b.reshapes →
        Holds ws.new (on_reshapes (change_at no_reshape i (with_seats (λ t. []))) b) }
{
    let a = RESHAPES_AT + 1 + i * RESHAPE_WIDTH + SEATS_AT;
    let e = a + SEATS_SIZE;
    tables::empty(&mut ws[a..e], SEAT_WIDTH, MOST_SEATS);
}
