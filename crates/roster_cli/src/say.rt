// What is written to standard output: lines of at most 100 bytes.
use std::io;
use templates::{fill, line_at};

pub const WIDTH: usize = 100;

// Bytes as they are: a word of the clerk's need not be text.
pub(crate) fn text(rt: &impl Print, words: &[u8]) -> io::Result<()> {
    rt.write_all(words)
}

// What is laid of the line.
pub(crate) fn laid(rt: &impl Print, line: &[u8; WIDTH], at: usize) -> io::Result<()> {
    text(rt, lines::said(line, at))
}

// The same, and a line end.
pub(crate) fn end(rt: &impl Print, line: &[u8; WIDTH], at: usize) -> io::Result<()> {
    laid(rt, line, at)?;
    text(rt, b"\n")
}

// A template with its numbers. Kept beside `println!`, whose line no contract holds within its width: all with a number goes by this.
pub(crate) fn row(rt: &impl Print, template: &[u8], numbers: &[u64]) -> io::Result<()> {
    let mut line = [0u8; WIDTH];
    let n = fill(&mut line, 0, template, numbers);
    end(rt, &line, n)
}

// The first n lines of a text.
pub(crate) fn all(rt: &impl Print, texts: &[u8], n: usize) -> io::Result<()> {
    for k in 0..n {
        row(rt, line_at(texts, k), &[])?;
    }
    Ok(())
}
