// The words that the program was started with.
use crate::failure::{Failure, Mistake};
use rooms::Bytes;
use std::env::{Env, FillError};

// Room for a word, which holds any path.
pub(crate) fn word(rt: &impl Env, i: usize) -> Bytes<4096> {
    Bytes::word(rt, i)
}

// The name of the new file that is written before it is put at a path.
pub(crate) fn new_beside(path: &[u8]) -> Bytes<4096> {
    let mut room = [0; 4096];
    let a = lines::put_text(&mut room, 0, path);
    let b = lines::put_text(&mut room, a, b".new");
    Bytes::of(room, b)
}

pub(crate) fn is_missing(rt: &impl Env, i: usize) -> bool {
    matches!(rt.arg(i, &mut []), Err(FillError::NotPresent))
}

// There are no more than n words, the program's own among them.
pub(crate) fn at_most(rt: &impl Env, n: usize) -> Result<(), Failure> {
    if is_missing(rt, n) {
        return Ok(());
    }
    Err(Failure::Mistake(Mistake::OneTooMany, Some(n)))
}

// The number that the word at i says.
pub(crate) fn number(rt: &impl Env, i: usize) -> Result<u64, Failure> {
    numerals::parse(word(rt, i).as_slice()).ok_or(Failure::Mistake(Mistake::NoNumber, Some(i)))
}
