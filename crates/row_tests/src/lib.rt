// Tests of a row's words, of each kind of table.
#![tactic(auto)]

ghost use Rattle.std.specs.Prelude.{◌≡◌, [], ◌∷◌, false, ◌≤◌, length};
ghost use Rattle.board.specs.Layout.{machine_width, committee_width, boundary_width, rotation_width, seat_width, seats_at, reshape_width};
ghost use Rattle.word_tests.specs.Tests.{at};
ghost use Rattle.row_tests.specs.Rows.{machine_ok, committee_ok, option_ok, boundary_ok, rotation_ok, seat_ok, seats_ok, epochs_ok, flags_ok, reshape_head_ok, scheduled_ok, halves_ok, reshape_ok, row_ok, width_of};

use board::layout::{
    COMMITTEE_WIDTH, LAST_SHARD, LAST_TARGET, LEFT_AT, MEMBERS_AT, MOST_HALF, MOST_MEMBERS,
    MOST_SEATS, RESHAPE_WIDTH, RIGHT_AT, SEAT_WIDTH, SEATS_AT,
};
use word_tests::{Marks, Row, table_ok};

mod kinds;

pub use kinds::{BoundaryRows, CommitteeRows, MachineRows, ReshapeRows, RotationRows};

// ---- The ranges of rules/specs/Board.antt

const LAST_STAMP: u64 = 8589934591;

const LAST_MARK: u64 = 255;

// ---- Rows

// By a place's code, a word of the board. A match, which becomes a table of constants where they are given; an array would be laid anew at each call.
// All five codes have an arm, so that the table has all five and nothing is asked before it.
fn by_code(code: u64, pooled: u64, seated: u64, observing: u64, short: u64, other: u64) -> u64
    requires { code ≤ 4 }
    ensures { result ≡ at (pooled ∷ seated ∷ observing ∷ short ∷ other ∷ []) code }
{
    match code {
        0 => pooled,
        1 => seated,
        2 => observing,
        3 => short,
        4 => other,
        _ => 0,
    }
}

// The words that a place does not use are 0. By branches: a good row takes none.
pub fn machine_ok(t: &[u64]) -> bool
    requires { length t.now ≡ machine_width }
    ensures { result ≡ machine_ok t.now }
{
    let code = t[1];
    if 4 < code {
        return false;
    }
    let mark_least = by_code(code, 0, 1, 1, 0, 1);
    let mark_most = by_code(code, 0, LAST_SHARD, LAST_SHARD, 0, LAST_MARK);
    let ready_most = by_code(code, 0, 1, 0, 0, 0);
    let stamp_most = by_code(code, 0, LAST_STAMP, LAST_STAMP, 0, 0);
    if !word_tests::inside(mark_least, mark_most, t[2]) {
        return false;
    }
    if ready_most < t[3] {
        return false;
    }
    t[4] <= stamp_most
}

// The shard, then the members; by marks that serve many committees.
pub fn committee_ok(marks: &mut Marks, t: &[u64]) -> bool
    requires { length t.now ≡ committee_width }
    ensures { result ≡ committee_ok t.now }
{
    let members = word_tests::ids_ok(marks, MOST_MEMBERS, &t[MEMBERS_AT..COMMITTEE_WIDTH]);
    word_tests::inside(1, LAST_SHARD, t[0]) & members
}

// A flag and a value, which are two words of the board: none has no value.
fn option_ok(f: u64, v: u64) -> bool
    ensures { result ≡ option_ok f v }
{
    ((f == 0) & (v == 0)) | ((f == 1) & (v <= LAST_STAMP))
}

// Shard, height, formed, last live, then terminal and admitted, each a flag and an epoch; a height is any word.
pub fn boundary_ok(t: &[u64]) -> bool
    requires { length t.now ≡ boundary_width }
    ensures { result ≡ boundary_ok t.now }
{
    word_tests::inside(1, LAST_SHARD, t[0])
        & (t[2] <= LAST_STAMP)
        & (t[3] <= LAST_STAMP)
        & option_ok(t[4], t[5])
        & option_ok(t[6], t[7])
}

// Shard, victim, entrant, opened; an id is any word.
fn rotation_ok(t: &[u64]) -> bool
    requires { length t.now ≡ rotation_width }
    ensures { result ≡ rotation_ok t.now }
{
    word_tests::inside(1, LAST_SHARD, t[0]) & (t[3] <= LAST_STAMP)
}

// ---- Reshapes

// Id, child, ready. The child is halved, and the target not doubled: it may be any number yet.
pub fn seat_ok(target: u64, t: &[u64]) -> bool
    requires { length t.now ≡ seat_width }
    ensures { result ≡ seat_ok target t.now }
{
    (t[1] / 2 == target) & (t[2] <= 1)
}

// The seats of a reshape with this target.
#[derive(Drop)]
struct SeatRows {
    target: u64,
}

impl Row for SeatRows {
    ghost passes = { λ s. seat_ok s.target };

    ghost WIDTH = { seat_width };

    ghost PAIRED = { false };

    const WIDTH: usize = SEAT_WIDTH;

    const PAIRED: bool = false;

    fn passes(&mut self, row: &[u64]) -> bool {
        seat_ok(self.target, row)
    }
}

// Target, admitted, drain-by and terminal.
fn epochs_ok(t: &[u64]) -> bool
    requires { seats_at ≤ length t.now }
    ensures { result ≡ epochs_ok t.now }
{
    word_tests::inside(1, LAST_TARGET, t[0])
        & (t[2] <= LAST_STAMP)
        & option_ok(t[3], t[4])
        & option_ok(t[5], t[6])
}

// Kind, quiet left and quiet right: the last is at most the kind, so 0 for a split.
fn flags_ok(t: &[u64]) -> bool
    requires { seats_at ≤ length t.now }
    ensures { result ≡ flags_ok t.now }
{
    (t[1] <= 1) & (t[7] <= 1) & (t[8] <= t[1])
}

// The words before the seats, whatever comes after them.
pub fn reshape_head_ok(t: &[u64]) -> bool
    requires { seats_at ≤ length t.now }
    ensures { result ≡ reshape_head_ok t.now }
{
    epochs_ok(t) & flags_ok(t)
}

// A split with a terminal, or halves of no ids.
pub fn scheduled_ok(kind: u64, flag: u64, left: u64, right: u64) -> bool
    ensures { result ≡ scheduled_ok kind flag left right }
{
    ((kind == 0) & (flag == 1)) | ((left == 0) & (right == 0))
}

// Distinct ids, and none unless a split has its terminal.
fn halves_ok(t: &[u64]) -> bool
    requires { length t.now ≡ reshape_width }
    ensures { result ≡ halves_ok t.now }
{
    let mut marks = Marks::new();
    let left = word_tests::ids_ok(&mut marks, MOST_HALF, &t[LEFT_AT..RIGHT_AT]);
    let right = word_tests::ids_ok(&mut marks, MOST_HALF, &t[RIGHT_AT..RESHAPE_WIDTH]);
    left & right & scheduled_ok(t[1], t[5], t[LEFT_AT], t[RIGHT_AT])
}

fn reshape_ok(t: &[u64]) -> bool
    requires { length t.now ≡ reshape_width }
    ensures { result ≡ reshape_ok t.now }
{
    let mut seats = SeatRows { target: t[0] };
    reshape_head_ok(t) & table_ok(&mut seats, MOST_SEATS, &t[SEATS_AT..LEFT_AT]) & halves_ok(t)
}

// ---- Any kind of rows

#[derive(Clone, Copy)]
pub enum RowKind {
    Machines,
    Committees,
    Boundaries,
    Rotations,
    Reshapes,
}

pub fn row_ok(k: RowKind, t: &[u64]) -> bool
    requires { length t.now ≡ width_of k }
    ensures { result ≡ row_ok k t.now }
{
    match k {
        RowKind::Machines => machine_ok(t),
        RowKind::Committees => committee_ok(&mut Marks::new(), t),
        RowKind::Boundaries => boundary_ok(t),
        RowKind::Rotations => rotation_ok(t),
        RowKind::Reshapes => reshape_ok(t),
    }
}
