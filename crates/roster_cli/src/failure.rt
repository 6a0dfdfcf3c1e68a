// What ends a run that did not do what was asked: it is told at the end, as the last line.
use crate::say::WIDTH;
use crate::{args, say};
use lines::put_text;
use std::env::Env;
use std::io;
use templates::fill;

#[derive(Clone, Copy)]
pub(crate) enum Mistake {
    NoSuchCommand,
    OneTooMany,
    NoNumber,
    NoSuchFile,
    NotRead,
    TooLong,
    // The word of the file at which reading stopped.
    NoSnapshot(usize),
    FileMissing,
    NotMade,
    NotWritten,
    NotPut,
    DrawsNoNumber,
    TooManyDraws,
    LongDraws,
    OutMissing,
    NumberMissing,
    NoDrawsTaken,
    StepMissing,
    NoSuchStep,
}

#[derive(Clone, Copy)]
pub(crate) enum Failure {
    // With the place of the clerk's word that it is about.
    Mistake(Mistake, Option<usize>),
    // Standard output cannot be written.
    Output(io::Error),
}

impl From<io::Error> for Failure {
    fn from(e: io::Error) -> Self {
        Failure::Output(e)
    }
}

impl Mistake {
    // '#' is the word at which reading stopped.
    fn template(self) -> &'static [u8] {
        match self {
            Mistake::NoSuchCommand => b"there is no such command (./roster help lists them): ",
            Mistake::OneTooMany => b"one argument too many: ",
            Mistake::NoNumber => b"this is no number from 0 to 18446744073709551615: ",
            Mistake::NoSuchFile => b"there is no such file: ",
            Mistake::NotRead => b"this file cannot be read: ",
            Mistake::TooLong => b"longer than any snapshot, which has at most 46816 bytes: ",
            Mistake::NoSnapshot(_) =>
                b"not a snapshot of a well-formed board; reading stopped at word #: ",
            Mistake::FileMissing => b"a snapshot's file is missing (./roster help)",
            Mistake::NotMade => b"this file cannot be made, or is there already: ",
            Mistake::NotWritten => b"the snapshot could not be written to ",
            Mistake::NotPut => b"the snapshot could not be put at ",
            Mistake::DrawsNoNumber => b"these draws have a word that is no number: ",
            Mistake::TooManyDraws => b"more than 4096 draws: ",
            Mistake::LongDraws => b"a file of draws has fewer than 65536 bytes: ",
            Mistake::OutMissing => b"a file's name is missing after --out",
            Mistake::NumberMissing =>
                b"a number is missing (./roster help says what a step takes): ",
            Mistake::NoDrawsTaken => b"this step takes no draws: ",
            Mistake::StepMissing => b"a step's name is missing (./roster help lists them)",
            Mistake::NoSuchStep => b"there is no such step (./roster help lists them): ",
        }
    }

    fn number(self) -> u64 {
        match self {
            Mistake::NoSnapshot(word) => word as u64,
            _ => 0,
        }
    }
}

// The clerk's word, or the name of the new file that was to be written before it.
fn tell_word(rt: &(impl Env + Print), what: Mistake, i: usize) -> io::Result<()> {
    let word = args::word(rt, i);
    if matches!(what, Mistake::NotMade | Mistake::NotWritten) {
        return say::text(rt, args::new_beside(word.as_slice()).as_slice());
    }
    say::text(rt, word.as_slice())
}

// The last line of a run: what is wrong, and with which word of the clerk's.
pub(crate) fn tell(rt: &(impl Env + Print), what: Mistake, about: Option<usize>) -> io::Result<()> {
    let mut line = [0u8; WIDTH];
    let a = put_text(&mut line, 0, b"mistake: ");
    let b = fill(&mut line, a, what.template(), &[what.number()]);
    say::laid(rt, &line, b)?;
    if let Some(i) = about {
        tell_word(rt, what, i)?;
    }
    say::text(rt, b"\n")
}
