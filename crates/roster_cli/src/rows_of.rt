// The lines of a roster's tables: the rows are looked up, laid and written.
use crate::files::WORDS;
use crate::say::{WIDTH, end};
use crate::{facts, say};
use board::layout::{
    BOUNDARY_WIDTH, BOUNDS_AT, MOST_BOUNDS, MOST_COMMITTEES, MOST_MEMBERS, MOST_RESHAPES,
    MOST_ROTATIONS, MOST_SEATS,
};
use board::{committees, settings};
use lines::put_text;
use reshapes::{Side, fields, seats as cohort};
use row_lines::{Boundary, Progress};
use sections::Section;
use shards::rotations;
use std::io;
use types::{BlockHeight, Epoch, Machine, ShardId};

fn member_without(rt: &impl Print, id: u64) -> io::Result<()> {
    say::row(
        rt,
        b"######################  not here: it has no record",
        &[id],
    )
}

pub(crate) fn member(rt: &impl Print, board: &[u64; WORDS], j: usize, k: usize) -> io::Result<()> {
    if MOST_COMMITTEES <= j {
        return Ok(());
    }
    if MOST_MEMBERS <= k {
        return Ok(());
    }
    let id = committees::member_at(board, j, k);
    if !facts::has_record(board, id) {
        return member_without(rt, id.0);
    }
    let shard = committees::shard_at(board, j);
    let place = rows::place_of(board, id);
    let member = Machine { id, place };
    let mut line = [0u8; WIDTH];
    let a = row_lines::put_member_row(&mut line, 0, shard, member, settings::ready_wait(board));
    end(rt, &line, a)
}

// Eight bytes stand before it.
pub(crate) fn seat(
    rt: &impl Print,
    before: &[u8],
    board: &[u64; WORDS],
    i: usize,
    k: usize,
) -> io::Result<()> {
    if MOST_RESHAPES <= i {
        return Ok(());
    }
    if MOST_SEATS <= k {
        return Ok(());
    }
    let seat = cohort::at(board, i, k);
    let mut line = [0u8; WIDTH];
    let a = put_text(&mut line, 0, before);
    let b = row_lines::put_seat(&mut line, a, seat);
    end(rt, &line, b)
}

pub(crate) fn rotation(rt: &impl Print, board: &[u64; WORDS], i: usize) -> io::Result<()> {
    if MOST_ROTATIONS <= i {
        return Ok(());
    }
    let r = rotations::at(board, i);
    let mut line = [0u8; WIDTH];
    let a = row_lines::put_rotation(&mut line, 0, r);
    end(rt, &line, a)
}

// Word k of the boundary at i.
fn bound_word(board: &[u64; WORDS], i: usize, k: usize) -> u64 {
    if MOST_BOUNDS <= i {
        return 0;
    }
    if BOUNDARY_WIDTH <= k {
        return 0;
    }
    board[BOUNDS_AT + 1 + i * BOUNDARY_WIDTH + k]
}

// An epoch of a boundary, where the word before it says that there is one.
fn end_of(flag: u64, epoch: u64) -> Option<Epoch> {
    if flag == 0 { None } else { Some(Epoch(epoch)) }
}

pub(crate) fn boundary(rt: &impl Print, board: &[u64; WORDS], i: usize) -> io::Result<()> {
    let bound = Boundary {
        shard: ShardId(bound_word(board, i, 0)),
        height: BlockHeight(bound_word(board, i, 1)),
        formed: Epoch(bound_word(board, i, 2)),
        live: Epoch(bound_word(board, i, 3)),
        terminal: end_of(bound_word(board, i, 4), bound_word(board, i, 5)),
        admitted: end_of(bound_word(board, i, 6), bound_word(board, i, 7)),
    };
    let mut line = [0u8; WIDTH];
    let a = row_lines::put_boundary(&mut line, 0, bound);
    end(rt, &line, a)?;
    let mut more = [0u8; WIDTH];
    let b = row_lines::put_ends(&mut more, 0, bound);
    if bound.terminal.is_some() | bound.admitted.is_some() {
        end(rt, &more, b)?;
    }
    Ok(())
}

pub(crate) fn put_reshape(
    line: &mut [u8; WIDTH],
    at: usize,
    board: &[u64; WORDS],
    i: usize,
) -> usize {
    if MOST_RESHAPES <= i {
        return at;
    }
    let merge = fields::is_merge(board, i);
    let target = fields::target_at(board, i);
    let admitted = fields::admitted_at(board, i);
    row_lines::put_reshape(line, at, merge, target, admitted)
}

pub(crate) fn put_reshape_state(
    line: &mut [u8; WIDTH],
    at: usize,
    board: &[u64; WORDS],
    i: usize,
) -> usize {
    if MOST_RESHAPES <= i {
        return at;
    }
    let progress = Progress {
        merge: fields::is_merge(board, i),
        drain_by: waits::drain_by(board, i),
        left: fields::is_quiet(board, i, Side::Left),
        right: fields::is_quiet(board, i, Side::Right),
        terminal: if fields::is_scheduled(board, i) {
            Some(fields::terminal_at(board, i))
        } else {
            None
        },
    };
    row_lines::put_progress(line, at, progress)
}

// The seats of the reshape at i.
pub(crate) fn seats(rt: &impl Print, board: &[u64; WORDS], i: usize) -> io::Result<()> {
    for k in 0..facts::count(board, Section::Seats, i) {
        seat(rt, b"        ", board, i, k)?;
    }
    Ok(())
}
