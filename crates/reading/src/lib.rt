// Bytes to the lent words of a board: first whether they are a well-formed board's snapshot, then its words.
#![tactic(auto)]

ghost use Rattle.std.specs.Prelude.{◌≡◌, List, false, ℕ, ◌+◌, ◌*◌, ◌/◌, ◌%◌, ◌≤◌, eqb, length, drop, IfSome};
ghost use Rattle.word_tests.specs.Tests.{rises};
ghost use Rattle.rules.specs.Board.{most_machines};
ghost use Rattle.board.specs.Layout.{machine_width};
ghost use Rattle.row_tests.specs.declared.RowKind.{RowKind};
ghost use Rattle.row_tests.specs.Rows.{in_pairs, width_of};
ghost use Rattle.snapshot.specs.Written.{answer_of};
ghost use Rattle.snapshot.specs.ReadAs.{ReadAs};
ghost use Rattle.unpacking.specs.AsWords.{AsWords};
ghost use Rattle.reading.specs.Told.{TellsSnapshot};
ghost use Rattle.reading.specs.Stream.{TellsRow, TellsSection, TellsSections, TellsHead};

use board::layout::{
    BOARD_SIZE, BOUNDARY_WIDTH, LAST_SHARD, MACHINE_WIDTH, MACHINES_AT, MOST_BOUNDS,
    MOST_COMMITTEES, MOST_MACHINES, MOST_MEMBERS, MOST_RESHAPES, MOST_ROTATIONS, ROTATION_WIDTH,
    SETTINGS_END,
};
use bytes_words::{get_words, word_at};
use id_lists::id_list_end;
use reshape_rows::Reshapes;
use row_tests::{RowKind, machine_ok, row_ok};
use types::Answer;
use unpacking::{count_at, unpack_board, unpack_row, word};
use wellformed::settings_ok;
use word_tests::{Marks, inside, rises};

mod reshape_rows;

// ---- Rows

// By shard, then victim; other rows by their first word alone.
fn in_pairs(k: RowKind) -> bool
    ensures { result ≡ in_pairs k }
{
    matches!(k, RowKind::Rotations)
}

// The first words are below those at a place.
fn rises_to(pairs: bool, t: &[u64], bytes: &[u8], at: usize) -> bool
    requires { at ≤ length bytes.now }
    ensures { (ws : List ℕ) → AsWords bytes.now ws → result ≡ rises pairs t.now (drop at ws) }
{
    let next = [word(bytes, at), word(bytes, at + 1)];
    rises(pairs, t, &next)
}

// As `rises_to`, of rows that rise by their first word: no other is read.
fn first_rises_to(t: &[u64], bytes: &[u8], at: usize) -> bool
    requires { 1 ≤ length t.now }
    ensures { (ws : List ℕ) → AsWords bytes.now ws → result ≡ rises false t.now (drop at ws) }
{
    t[0] < word(bytes, at)
}

// As `row_end`, by the row in full width.
fn wide_end(k: RowKind, last: bool, bytes: &[u8], at: usize, out: &mut [u64]) -> Option<usize>
    requires { (length bytes.now % 8 ≡ 0) × (length out.old ≡ width_of k) }
    ensures { (ws : List ℕ) → AsWords bytes.now ws → TellsRow k last ws at result }
{
    let end = unpack_row(k, bytes, at, out)?;
    if !row_ok(k, out) {
        return None;
    }
    if last {
        return Some(end);
    }
    if !rises_to(in_pairs(k), out, bytes, end) {
        return None;
    }
    Some(end)
}

// ---- Committees: by marks that serve many of them

// As `row_end`, of a committee: its shard, then its members.
fn committee_end(last: bool, bytes: &[u8], at: usize, marks: &mut Marks) -> Option<usize>
    ensures { (ws : List ℕ) → AsWords bytes.now ws → TellsRow RowKind.Committees last ws at result }
{
    if bytes.len() / 8 <= at {
        return None;
    }
    let shard = word(bytes, at);
    if !inside(1, LAST_SHARD, shard) {
        return None;
    }
    let end = id_list_end(MOST_MEMBERS, marks, bytes, at + 1)?;
    if last {
        return Some(end);
    }
    if !(shard < word(bytes, end)) {
        return None;
    }
    Some(end)
}

fn lone_committee_end(last: bool, bytes: &[u8], at: usize) -> Option<usize>
    ensures { (ws : List ℕ) → AsWords bytes.now ws → TellsRow RowKind.Committees last ws at result }
{
    committee_end(last, bytes, at, &mut Marks::new())
}

// ---- A row of any kind

// Where the good row at a place ends, below the next row unless it is the last.
pub fn row_end(k: RowKind, last: bool, bytes: &[u8], at: usize, out: &mut [u64]) -> Option<usize>
    requires { (length bytes.now % 8 ≡ 0) × (length out.old ≡ width_of k) }
    ensures { (ws : List ℕ) → AsWords bytes.now ws → TellsRow k last ws at result }
{
    match k {
        RowKind::Machines => wide_end(k, last, bytes, at, out),
        RowKind::Committees => lone_committee_end(last, bytes, at),
        RowKind::Boundaries => wide_end(k, last, bytes, at, out),
        RowKind::Rotations => wide_end(k, last, bytes, at, out),
        RowKind::Reshapes => wide_end(k, last, bytes, at, out),
    }
}

// ---- Machines: by far the most rows, whose words are asked for once

// As `row_end`, of a machine at a place where the words of n stand.
fn machine_end(n: usize, bytes: &[u8], at: usize) -> Option<usize>
    requires { (1 ≤ n) × (at + n * machine_width ≤ length bytes.now / 8) }
    ensures place { IfSome result (λ next. next ≡ at + machine_width) }
    ensures told { (ws : List ℕ) → AsWords bytes.now ws → TellsRow RowKind.Machines (eqb n 1) ws at result }
{
    let mut t: [u64; MACHINE_WIDTH] = [0; MACHINE_WIDTH];
    get_words(bytes, 8 * at, &mut t);
    if !machine_ok(&t) {
        return None;
    }
    let next = at + MACHINE_WIDTH;
    if n == 1 {
        return Some(next);
    }
    if !(t[0] < word_at(bytes, 8 * next)) {
        return None;
    }
    Some(next)
}

// As `section_end`, of the machines. Kept: a loop of its own, since a look at each row for whether its words are there is slower.
fn machines_end(bytes: &[u8], at: usize) -> Option<usize>
    ensures { (ws : List ℕ) → AsWords bytes.now ws → TellsSection RowKind.Machines most_machines ws at result }
{
    let n = count_at(MOST_MACHINES, bytes, at)?;
    let first = at + 1;
    if bytes.len() / 8 - first < n * MACHINE_WIDTH {
        return None;
    }
    let mut next = first;
    for after in (0..n).rev() {
        next = machine_end(after + 1, bytes, next)?;
    }
    Some(next)
}

// ---- Sections

// Tells where each row of one kind ends, so that no kind is asked for at a row.
trait RowEnds {
    ghost kind: { RowKind };

    // Where the good row at a place ends, below the next row unless it is the last.
    fn row_end(&mut self, last: bool, bytes: &[u8], at: usize) -> Option<usize>
        requires { length bytes.now % 8 ≡ 0 }
        ensures { (ws : List ℕ) → AsWords bytes.now ws → TellsRow kind last ws at result };
}

#[derive(Drop)]
struct Committees<'a> {
    marks: &'a mut Marks,
}

impl<'a> RowEnds for Committees<'a> {
    ghost kind = { RowKind.Committees };

    fn row_end(&mut self, last: bool, bytes: &[u8], at: usize) -> Option<usize> {
        committee_end(last, bytes, at, self.marks)
    }
}

#[derive(Clone, Copy)]
struct Boundaries;

impl RowEnds for Boundaries {
    ghost kind = { RowKind.Boundaries };

    fn row_end(&mut self, last: bool, bytes: &[u8], at: usize) -> Option<usize> {
        let mut row: [u64; BOUNDARY_WIDTH] = [0; BOUNDARY_WIDTH];
        wide_end(RowKind::Boundaries, last, bytes, at, &mut row)
    }
}

#[derive(Clone, Copy)]
struct Rotations;

impl RowEnds for Rotations {
    ghost kind = { RowKind.Rotations };

    fn row_end(&mut self, last: bool, bytes: &[u8], at: usize) -> Option<usize> {
        let mut row: [u64; ROTATION_WIDTH] = [0; ROTATION_WIDTH];
        wide_end(RowKind::Rotations, last, bytes, at, &mut row)
    }
}

// Where the good section at a place ends.
fn section_end<R: RowEnds>(rows: &mut R, cap: usize, bytes: &[u8], at: usize) -> Option<usize>
    requires { length bytes.now % 8 ≡ 0 }
    ensures { (ws : List ℕ) → AsWords bytes.now ws → TellsSection R.kind cap ws at result }
{
    let n = count_at(cap, bytes, at)?;
    let mut next = at + 1;
    for after in (0..n).rev() {
        next = rows.row_end(after == 0, bytes, next)?;
    }
    Some(next)
}

// Where the sections end, one after another; the lists of all rows share one set of marks.
fn sections_end(bytes: &[u8], at: usize) -> Option<usize>
    requires { length bytes.now % 8 ≡ 0 }
    ensures { (ws : List ℕ) → AsWords bytes.now ws → TellsSections ws at result }
{
    let mut marks = Marks::new();
    let m = machines_end(bytes, at)?;
    let mut committees = Committees { marks: &mut marks };
    let c = section_end(&mut committees, MOST_COMMITTEES, bytes, m)?;
    let b = section_end(&mut Boundaries, MOST_BOUNDS, bytes, c)?;
    let o = section_end(&mut Rotations, MOST_ROTATIONS, bytes, b)?;
    let mut reshapes = Reshapes { marks: &mut marks };
    section_end(&mut reshapes, MOST_RESHAPES, bytes, o)
}

// The settings are tested as a board has them, with zeros in the room for more.
fn head_ok(bytes: &[u8]) -> bool
    ensures { (ws : List ℕ) → AsWords bytes.now ws → TellsHead ws result }
{
    if bytes.len() / 8 < SETTINGS_END {
        return false;
    }
    let mut t: [u64; MACHINES_AT] = [0; MACHINES_AT];
    get_words(bytes, 0, &mut t[..SETTINGS_END]);
    settings_ok(&t)
}

// ---- The read

// Whether the bytes, of any length, are a well-formed board's snapshot: one pass, no board.
pub fn is_snapshot(bytes: &[u8]) -> bool
    ensures { TellsSnapshot bytes.now result }
{
    if bytes.len() % 8 != 0 {
        return false;
    }
    let Some(end) = sections_end(bytes, SETTINGS_END) else {
        return false;
    };
    head_ok(bytes) & (end == bytes.len() / 8)
}

// Every refusal is before the first word that is written.
pub fn read_board(snapshot: &[u8], board: &mut [u64]) -> Result<(), Answer>
    ensures { ReadAs snapshot.now board.old board.new (answer_of result) }
{
    if !is_snapshot(snapshot) {
        return Err(Answer::NotASnapshot);
    }
    if board.len() < BOARD_SIZE {
        return Err(Answer::NoRoom);
    }
    unpack_board(snapshot, board);
    Ok(())
}

// The same by an answer. Kept: the exports answer so.
pub fn read_snapshot(snapshot: &[u8], board: &mut [u64]) -> Answer
    ensures { ReadAs snapshot.now board.old board.new result }
{
    match read_board(snapshot, board) {
        Ok(()) => Answer::Done,
        Err(answer) => answer,
    }
}
