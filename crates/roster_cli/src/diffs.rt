// `diff`, and what a step changed: machine by machine, shard by shard.
use crate::failure::Failure;
use crate::files::WORDS;
use crate::lined::put_place;
use crate::say::{WIDTH, end};
use crate::{args, facts, files, lined, lists, rows_of, say};
use differences::Difference;
use lines::put_text;
use rooms::Bytes;
use sections::Section;
use std::env::Env;
use std::fs::Files;
use std::io;
use templates::{fill, number_at};

// ---- a row in one board

// A row of a table of a board, or a board at any row.
#[derive(Clone, Copy)]
struct Row<'a> {
    board: &'a [u64; WORDS],
    at: usize,
}

fn put_machine(line: &mut [u8; WIDTH], before: &[u8], row: Row) -> usize {
    let a = put_text(line, 0, before);
    let words = facts::row(row.board, Section::Machines, 0, row.at);
    let b = fill(line, a, b"machine #: ", words);
    put_place(line, b, row.board, row.at)
}

fn machine(rt: &impl Print, before: &[u8], row: Row) -> io::Result<()> {
    let mut line = [0u8; WIDTH];
    let a = put_machine(&mut line, before, row);
    end(rt, &line, a)
}

fn head(rt: &impl Print, before: &[u8], template: &[u8], words: &[u64]) -> io::Result<()> {
    let mut line = [0u8; WIDTH];
    let a = put_text(&mut line, 0, before);
    let b = fill(&mut line, a, template, words);
    end(rt, &line, b)
}

fn committee(rt: &impl Print, before: &[u8], row: Row) -> io::Result<()> {
    let words = facts::row(row.board, Section::Committees, 0, row.at);
    head(rt, before, b"committee of shard #, members #", words)?;
    lists::list(rt, facts::ids(row.board, Section::Members, row.at))
}

fn boundary(rt: &impl Print, before: &[u8], row: Row) -> io::Result<()> {
    head(rt, before, b"boundary", &[])?;
    rows_of::boundary(rt, row.board, row.at)
}

fn rotation(rt: &impl Print, before: &[u8], row: Row) -> io::Result<()> {
    head(rt, before, b"rotation", &[])?;
    rows_of::rotation(rt, row.board, row.at)
}

fn reshape(rt: &impl Print, before: &[u8], row: Row) -> io::Result<()> {
    lined::reshape_head(rt, before, row.board, row.at)?;
    lined::reshape_state(rt, b"      ", row.board, row.at)?;
    rows_of::seats(rt, row.board, row.at)?;
    lists::list_halves(rt, row.board, row.at)
}

// After what stands before it.
fn alone(rt: &impl Print, which: Section, before: &[u8], row: Row) -> io::Result<()> {
    match which {
        Section::Machines => machine(rt, before, row),
        Section::Committees => committee(rt, before, row),
        Section::Boundaries => boundary(rt, before, row),
        Section::Rotations => rotation(rt, before, row),
        _ => reshape(rt, before, row),
    }
}

// ---- a row in both

fn became(rt: &impl Print, is: Row) -> io::Result<()> {
    let mut line = [0u8; WIDTH];
    let a = put_text(&mut line, 0, b"    -> ");
    let b = put_place(&mut line, a, is.board, is.at);
    end(rt, &line, b)
}

// On one line where both places fit.
fn changed_machine(rt: &impl Print, was: Row, is: Row) -> io::Result<()> {
    let mut line = [0u8; WIDTH];
    let a = put_machine(&mut line, b"  ", was);
    if 48 < a {
        end(rt, &line, a)?;
        return became(rt, is);
    }
    let b = put_text(&mut line, a, b" -> ");
    let c = put_place(&mut line, b, is.board, is.at);
    end(rt, &line, c)
}

fn seat_apart(rt: &impl Print, d: Difference, was: Row, is: Row) -> io::Result<()> {
    match d {
        Difference::Gone(k, _) => rows_of::seat(rt, b"    gone", was.board, was.at, k),
        Difference::New(_, l) => rows_of::seat(rt, b"    new ", is.board, is.at, l),
        Difference::Changed(k, l) => {
            rows_of::seat(rt, b"    was ", was.board, was.at, k)?;
            rows_of::seat(rt, b"    is  ", is.board, is.at, l)
        }
    }
}

// ---- the next difference of two tables

// More than two tables have rows.
const MOST_TURNS: u64 = 1024;

// From row k of the first table and row l of the second.
fn next(which: Section, was: Row, is: Row, k: usize, l: usize) -> Option<Difference> {
    let a = was.board;
    let b = is.board;
    differences::next_difference(
        which == Section::Rotations,
        which.row_width(),
        which.table(a, was.at),
        which.table(b, is.at),
        k,
        l,
    )
}

// Where the walk goes on: past both rows, or past the one that stands alone.
fn past(d: Difference) -> (usize, usize) {
    match d {
        Difference::Gone(k, l) => (k.saturating_add(1), l),
        Difference::New(k, l) => (k, l.saturating_add(1)),
        Difference::Changed(k, l) => (k.saturating_add(1), l.saturating_add(1)),
    }
}

// The seats of a reshape in both boards.
fn walk_seats(rt: &impl Print, was: Row, is: Row) -> io::Result<()> {
    let mut k = 0;
    let mut l = 0;
    for _ in 0..MOST_TURNS {
        let Some(d) = next(Section::Seats, was, is, k, l) else {
            break;
        };
        seat_apart(rt, d, was, is)?;
        (k, l) = past(d);
    }
    Ok(())
}

fn same_ids(which: Section, was: Row, is: Row) -> bool {
    facts::ids(was.board, which, was.at) == facts::ids(is.board, which, is.at)
}

fn changed_reshape(rt: &impl Print, was: Row, is: Row) -> io::Result<()> {
    lined::reshape_head(rt, b"  ", is.board, is.at)?;
    lined::reshape_state(rt, b"    was ", was.board, was.at)?;
    lined::reshape_state(rt, b"    is  ", is.board, is.at)?;
    walk_seats(rt, was, is)?;
    if same_ids(Section::Left, was, is) && same_ids(Section::Right, was, is) {
        return Ok(());
    }
    lists::list_halves(rt, is.board, is.at)
}

fn changed(rt: &impl Print, which: Section, was: Row, is: Row) -> io::Result<()> {
    match which {
        Section::Machines => changed_machine(rt, was, is),
        Section::Reshapes => changed_reshape(rt, was, is),
        _ => {
            alone(rt, which, b"  was: ", was)?;
            alone(rt, which, b"  is:  ", is)
        }
    }
}

fn row_apart(
    rt: &impl Print,
    which: Section,
    d: Difference,
    a: &[u64; WORDS],
    b: &[u64; WORDS],
) -> io::Result<()> {
    match d {
        Difference::Gone(k, _) => alone(rt, which, b"  gone: ", Row { board: a, at: k }),
        Difference::New(_, l) => alone(rt, which, b"  new: ", Row { board: b, at: l }),
        Difference::Changed(k, l) => {
            changed(rt, which, Row { board: a, at: k }, Row { board: b, at: l })
        }
    }
}

// ---- the whole

// The differences of a table: whether there is one.
fn walk(rt: &impl Print, which: Section, a: &[u64; WORDS], b: &[u64; WORDS]) -> io::Result<bool> {
    let was = Row { board: a, at: 0 };
    let is = Row { board: b, at: 0 };
    let mut k = 0;
    let mut l = 0;
    for turn in 0..MOST_TURNS {
        let Some(d) = next(which, was, is, k, l) else {
            return Ok(0 < turn);
        };
        row_apart(rt, which, d, a, b)?;
        (k, l) = past(d);
    }
    Ok(true)
}

// Whether it is another.
fn setting(rt: &impl Print, template: &[u8], k: usize, a: &[u64], b: &[u64]) -> io::Result<bool> {
    let was = number_at(a, k);
    let is = number_at(b, k);
    if was != is {
        say::row(rt, template, &[was, is])?;
    }
    Ok(was != is)
}

fn walk_settings(rt: &impl Print, a: &[u64; WORDS], b: &[u64; WORDS]) -> io::Result<bool> {
    let was = Section::Settings.table(a, 0);
    let is = Section::Settings.table(b, 0);
    let epoch = setting(rt, b"  epoch # -> #", 1, was, is)?;
    let size = setting(rt, b"  shard size # -> #", 2, was, is)?;
    let drain = setting(rt, b"  drain length # -> #", 3, was, is)?;
    let wait = setting(rt, b"  ready wait # -> #", 4, was, is)?;
    let interval = setting(rt, b"  shuffle interval # -> #", 5, was, is)?;
    let most = setting(rt, b"  most rotations in flight # -> #", 6, was, is)?;
    Ok(epoch | size | drain | wait | interval | most)
}

pub(crate) fn tell(rt: &impl Print, a: &[u64; WORDS], b: &[u64; WORDS]) -> io::Result<()> {
    println!(rt; "what changed:")?;
    let s = walk_settings(rt, a, b)?;
    let m = walk(rt, Section::Machines, a, b)?;
    let c = walk(rt, Section::Committees, a, b)?;
    let d = walk(rt, Section::Boundaries, a, b)?;
    let r = walk(rt, Section::Rotations, a, b)?;
    let q = walk(rt, Section::Reshapes, a, b)?;
    if !(s | m | c | d | r | q) {
        println!(rt; "  nothing")?;
    }
    Ok(())
}

pub(crate) fn run(rt: &(impl Env + Files + Print)) -> Result<(), Failure> {
    args::at_most(rt, 4)?;
    let mut file = Bytes::none();
    let mut a = [0u64; WORDS];
    files::read_board(rt, 2, &mut file, &mut a)?;
    let mut b = [0u64; WORDS];
    files::read_board(rt, 3, &mut file, &mut b)?;
    tell(rt, &a, &b)?;
    Ok(())
}
