// The clerk's command: snapshots shown, checked, compared and tried.
#![tactic(auto)]

mod args;
mod calls;
mod checks;
mod demo;
mod diffs;
mod facts;
mod failure;
mod files;
mod help;
mod lined;
mod lists;
mod rows_of;
mod say;
mod show;
mod trying;

use failure::{Failure, Mistake};
use std::env::Env;
use std::fs::Files;
use std::io;

fn tell_demo(rt: &(impl Env + Print)) -> Result<(), Failure> {
    args::at_most(rt, 2)?;
    demo::tell(rt)?;
    Ok(())
}

fn run_command(rt: &(impl Env + Files + Print), word: &[u8]) -> Result<(), Failure> {
    match word {
        b"demo" => tell_demo(rt),
        b"show" => show::run(rt),
        b"check" => checks::run(rt),
        b"step" => trying::run(rt),
        b"diff" => diffs::run(rt),
        b"help" | b"--help" | b"-h" => Ok(help::tell(rt)?),
        _ => Err(Failure::Mistake(Mistake::NoSuchCommand, Some(1))),
    }
}

fn run(rt: &(impl Env + Files + Print)) -> Result<(), Failure> {
    if args::is_missing(rt, 1) {
        demo::tell(rt)?;
        return Ok(());
    }
    run_command(rt, args::word(rt, 1).as_slice())
}

fn main(rt: HostRuntime) -> io::Result<()> {
    match run(&rt) {
        Ok(()) => Ok(()),
        Err(Failure::Mistake(what, about)) => failure::tell(&rt, what, about),
        Err(Failure::Output(e)) => Err(e),
    }
}
