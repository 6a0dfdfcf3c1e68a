// `step`: a step on a snapshot.
ghost use Rattle.std.specs.Prelude.{◌≤◌};

use crate::failure::{Failure, Mistake};
use crate::files::{MOST_READ, WORDS};
use crate::say::{WIDTH, end};
use crate::{args, calls, diffs, files, say};
use numerals::NumbersError;
use rooms::Bytes;
use std::env::Env;
use std::fs::Files;
use std::io;
use step_names::Step;
use templates::fill;

const MOST_DRAWS: usize = 4096;

#[derive(Clone, Copy)]
struct Draws {
    room: [u64; MOST_DRAWS],
    count: usize,
    ghost within: { count ≤ 4096 },
}

impl Draws {
    fn none() -> Self {
        Draws {
            room: [0; MOST_DRAWS],
            count: 0,
        }
    }

    fn as_slice(&self) -> &[u64] {
        &self.room[..self.count]
    }

    // The draws of a text, after those that are there.
    fn add(&mut self, written: &[u8]) -> Result<(), Mistake> {
        match numerals::numbers(written, &mut self.room[self.count..]) {
            Ok(more) => {
                self.count += more;
                Ok(())
            }
            Err(NumbersError::NotANumber(_)) => Err(Mistake::DrawsNoNumber),
            Err(NumbersError::TooMany) => Err(Mistake::TooManyDraws),
        }
    }
}

fn add_file(
    rt: &(impl Env + Files),
    i: usize,
    file: &mut Bytes<MOST_READ>,
    draws: &mut Draws,
) -> Result<(), Failure> {
    files::read(rt, i, file)?;
    if file.is_full() {
        return Err(Failure::Mistake(Mistake::LongDraws, Some(i)));
    }
    draws
        .add(file.as_slice())
        .map_err(|what| Failure::Mistake(what, Some(i)))
}

fn is_written_out(word: &[u8]) -> bool {
    match word.first() {
        Some(b) => b.is_ascii_digit(),
        None => true,
    }
}

// The draws that the word at i says, or the file that it names.
fn add_draws(
    rt: &(impl Env + Files),
    i: usize,
    file: &mut Bytes<MOST_READ>,
    draws: &mut Draws,
) -> Result<(), Failure> {
    let word = args::word(rt, i);
    if !is_written_out(word.as_slice()) {
        return add_file(rt, i, file, draws);
    }
    draws
        .add(word.as_slice())
        .map_err(|what| Failure::Mistake(what, Some(i)))
}

// What a word belongs to.
#[derive(Clone, Copy, PartialEq, Eq)]
enum Wanted {
    Nothing,
    Draws,
    NewFile,
}

// What the words after a step's numbers say, as far as they are read.
#[derive(Clone, Copy)]
struct Options {
    // Where the name of the new file stands.
    out: Option<usize>,
    // What the next word belongs to.
    next: Wanted,
}

// What the words from `from` on say: their draws are added, and where the name of the new file stands is told.
fn taken(
    rt: &(impl Env + Files),
    from: usize,
    file: &mut Bytes<MOST_READ>,
    draws: &mut Draws,
) -> Result<Option<usize>, Failure> {
    let mut options = Options {
        out: None,
        next: Wanted::Nothing,
    };
    for i in from..usize::MAX {
        if args::is_missing(rt, i) {
            break;
        }
        options = with_word(rt, options, i, file, draws)?;
    }
    if options.next == Wanted::NewFile {
        return Err(Failure::Mistake(Mistake::OutMissing, None));
    }
    Ok(options.out)
}

fn with_word(
    rt: &(impl Env + Files),
    options: Options,
    i: usize,
    file: &mut Bytes<MOST_READ>,
    draws: &mut Draws,
) -> Result<Options, Failure> {
    let Options { out, next } = options;
    if let Some(next) = option_at(rt, i) {
        return Ok(Options { out, next });
    }
    match next {
        Wanted::Draws => {
            add_draws(rt, i, file, draws)?;
            Ok(options)
        }
        Wanted::NewFile => Ok(Options {
            out: Some(i),
            next: Wanted::Nothing,
        }),
        Wanted::Nothing => Err(Failure::Mistake(Mistake::OneTooMany, Some(i))),
    }
}

// What the option that the word at i names wants next.
fn option_at(rt: &impl Env, i: usize) -> Option<Wanted> {
    match args::word(rt, i).as_slice() {
        b"--draws" => Some(Wanted::Draws),
        b"--out" => Some(Wanted::NewFile),
        _ => None,
    }
}

// The number at i, where the step takes so many; else 0.
fn number(rt: &impl Env, i: usize, wanted: bool) -> Result<u64, Failure> {
    if !wanted {
        return Ok(0);
    }
    if args::is_missing(rt, i) {
        return Err(Failure::Mistake(Mistake::NumberMissing, Some(3)));
    }
    args::number(rt, i)
}

pub(crate) fn tell(rt: &impl Print, answer: u64, results: &[u64; 2]) -> io::Result<()> {
    let mut line = [0u8; WIDTH];
    let a = fill(&mut line, 0, b"answer #: ", &[answer]);
    let b = answers::put_answer(&mut line, a, answer);
    end(rt, &line, b)?;
    say::row(rt, b"handled #, draws used #", results)
}

// Written where the step is done, and where a step over several shards was refused at one: those before it stand.
fn keep(
    rt: &(impl Env + Files + Print),
    step: Step,
    answer: u64,
    out: usize,
    board: &[u64; WORDS],
) -> Result<(), Failure> {
    if answer != 0 && !step.is_batch() {
        println!(rt; "refused: nothing is written")?;
        return Ok(());
    }
    files::write_board(rt, out, board)?;
    print!(rt; "written: ")?;
    say::text(rt, args::word(rt, out).as_slice())?;
    println!(rt)?;
    Ok(())
}

fn take(
    rt: &(impl Env + Files + Print),
    step: Step,
    file: &mut Bytes<MOST_READ>,
    board: &mut [u64; WORDS],
) -> Result<(), Failure> {
    let k = step.numbers();
    let first = number(rt, 4, 1 <= k)?;
    let second = number(rt, 5, 2 <= k)?;
    let mut draws = Draws::none();
    let out = taken(rt, k.saturating_add(4), file, &mut draws)?;
    if !draws.as_slice().is_empty() && !step.takes_draws() {
        return Err(Failure::Mistake(Mistake::NoDrawsTaken, Some(3)));
    }
    let before = *board;
    let mut results = [0u64; 2];
    let answer = calls::make(step, first, second, board, draws.as_slice(), &mut results);
    tell(rt, answer, &results)?;
    diffs::tell(rt, &before, board)?;
    match out {
        Some(i) => keep(rt, step, answer, i, board),
        None => Ok(()),
    }
}

pub(crate) fn run(rt: &(impl Env + Files + Print)) -> Result<(), Failure> {
    let mut file = Bytes::none();
    let mut board = [0u64; WORDS];
    files::read_board(rt, 2, &mut file, &mut board)?;
    if args::is_missing(rt, 3) {
        return Err(Failure::Mistake(Mistake::StepMissing, None));
    }
    match Step::named(args::word(rt, 3).as_slice()) {
        Some(step) => take(rt, step, &mut file, &mut board),
        None => Err(Failure::Mistake(Mistake::NoSuchStep, Some(3))),
    }
}
