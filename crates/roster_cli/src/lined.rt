// Rows after what stands before them: was, is, new or gone.
use crate::files::WORDS;
use crate::rows_of;
use crate::say::{WIDTH, end};
use board::layout::MOST_MACHINES;
use board::machines;
use lines::put_text;
use std::io;

// The place of the machine at i.
pub(crate) fn put_place(
    line: &mut [u8; WIDTH],
    at: usize,
    board: &[u64; WORDS],
    i: usize,
) -> usize {
    if MOST_MACHINES <= i {
        return at;
    }
    phrases::put_place(line, at, machines::at(board, i).place)
}

pub(crate) fn reshape_head(
    rt: &impl Print,
    before: &[u8],
    board: &[u64; WORDS],
    i: usize,
) -> io::Result<()> {
    let mut line = [0u8; WIDTH];
    let a = put_text(&mut line, 0, before);
    let b = rows_of::put_reshape(&mut line, a, board, i);
    end(rt, &line, b)
}

pub(crate) fn reshape_state(
    rt: &impl Print,
    before: &[u8],
    board: &[u64; WORDS],
    i: usize,
) -> io::Result<()> {
    let mut line = [0u8; WIDTH];
    let a = put_text(&mut line, 0, before);
    let b = rows_of::put_reshape_state(&mut line, a, board, i);
    end(rt, &line, b)
}
