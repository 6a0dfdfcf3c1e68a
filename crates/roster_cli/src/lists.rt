// Ids in lines, and machines by their place.
use crate::files::WORDS;
use crate::say::{WIDTH, end};
use crate::{facts, say};
use board::layout::MACHINE_WIDTH;
use sections::Section;
use std::io;
use templates::{fill, number_at};

// A machine's place, as the second word of its row tells it.
#[derive(Clone, Copy, PartialEq, Eq)]
pub enum Kind {
    Pooled = 0,
    Seated = 1,
    Watching = 2,
    Short = 3,
    Other = 4,
}

fn add_id(line: &mut [u8; WIDTH], at: usize, id: u64) -> usize {
    fill(line, at, b"  ##", &[id])
}

// An id on the line, or on a new one where the line is full.
fn put_id(rt: &impl Print, line: &mut [u8; WIDTH], at: usize, id: u64) -> io::Result<usize> {
    if at < 79 {
        return Ok(add_id(line, at, id));
    }
    end(rt, line, at)?;
    Ok(add_id(line, 4, id))
}

// A line that starts with blanks.
fn started() -> [u8; WIDTH] {
    [b' '; WIDTH]
}

pub(crate) fn list(rt: &impl Print, ids: &[u64]) -> io::Result<()> {
    if ids.is_empty() {
        return Ok(());
    }
    let mut line = started();
    let mut at: usize = 4;
    for id in ids {
        at = put_id(rt, &mut line, at, *id)?;
    }
    end(rt, &line, at)
}

// Those that a scheduled split sends to its left and to its right child.
pub(crate) fn list_halves(rt: &impl Print, board: &[u64; WORDS], i: usize) -> io::Result<()> {
    if facts::count(board, Section::Left, i) == 0 {
        return Ok(());
    }
    println!(rt; "  left half:")?;
    list(rt, facts::ids(board, Section::Left, i))?;
    println!(rt; "  right half:")?;
    list(rt, facts::ids(board, Section::Right, i))
}

// ---- machines by their place

pub(crate) fn count_of(board: &[u64; WORDS], kind: Kind) -> usize {
    let machines = Section::Machines.table(board, 0);
    sections::count_with(machines, MACHINE_WIDTH, 1, kind as u64)
}

fn is_of(kind: Kind, row: &[u64]) -> bool {
    number_at(row, 1) == kind as u64
}

fn list_ids(rt: &impl Print, kind: Kind, board: &[u64; WORDS]) -> io::Result<()> {
    let n = facts::count(board, Section::Machines, 0);
    let mut line = started();
    let mut at: usize = 4;
    for i in 0..n {
        let row = facts::row(board, Section::Machines, 0, i);
        if is_of(kind, row) {
            at = put_id(rt, &mut line, at, number_at(row, 0))?;
        }
    }
    end(rt, &line, at)
}

// A line for each, by a template.
fn list_rows(rt: &impl Print, kind: Kind, template: &[u8], board: &[u64; WORDS]) -> io::Result<()> {
    let n = facts::count(board, Section::Machines, 0);
    for i in 0..n {
        let row = facts::row(board, Section::Machines, 0, i);
        if is_of(kind, row) {
            say::row(rt, template, row)?;
        }
    }
    Ok(())
}

// Those of a kind: ids alone, or a line for each with what it watches or its mark.
pub(crate) fn list_kind(rt: &impl Print, kind: Kind, board: &[u64; WORDS]) -> io::Result<()> {
    match kind {
        Kind::Watching => list_rows(
            rt,
            kind,
            b"  ####################~  watches shard #####~  stamp ##########",
            board,
        ),
        Kind::Other => list_rows(rt, kind, b"  ####################~  mark ###", board),
        Kind::Pooled | Kind::Seated | Kind::Short => list_ids(rt, kind, board),
    }
}
