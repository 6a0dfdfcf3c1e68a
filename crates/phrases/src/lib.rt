// Names, numbers and places, put in a line.
#![tactic(auto)]

ghost use Rattle.std.specs.Prelude.{◌++◌, if◌then◌else◌};
ghost use Rattle.lines.specs.Says.{Puts};
ghost use Rattle.lines.specs.Numeral.{numeral};
ghost use Rattle.phrases.specs.Texts.{epoch_or};
ghost use Rattle.phrases.specs.Places.{place_text, seated_text, member_text};

use lines::{put_number, put_text};
use types::{Epoch, Place};

// A number after its name, right-aligned in a column.
pub fn put_column(line: &mut [u8], at: usize, name: &[u8], width: usize, n: u64) -> usize
    ensures { Puts line.old at (name.now ++ numeral width n) line.new result }
{
    let a = put_text(line, at, name);
    put_number(line, a, width, n)
}

pub fn put_named(line: &mut [u8], at: usize, name: &[u8], n: u64) -> usize
    ensures { Puts line.old at (name.now ++ numeral 0 n) line.new result }
{
    put_column(line, at, name, 0, n)
}

// An epoch in a column, or what is said of a missing one.
pub fn put_epoch_or(
    line: &mut [u8],
    at: usize,
    name: &[u8],
    width: usize,
    epoch: Option<Epoch>,
    missing: &[u8],
) -> usize
    ensures { Puts line.old at (epoch_or name.now width epoch missing.now) line.new result }
{
    match epoch {
        Some(e) => put_column(line, at, name, width, e.0),
        None => put_text(line, at, missing),
    }
}

pub fn put_either(line: &mut [u8], at: usize, test: bool, yes: &[u8], no: &[u8]) -> usize
    ensures { Puts line.old at (if test then yes.now else no.now) line.new result }
{
    put_text(line, at, if test { yes } else { no })
}

pub fn put_place(line: &mut [u8], at: usize, place: Place) -> usize
    ensures { Puts line.old at (place_text place) line.new result }
{
    match place {
        Place::Pooled => put_text(line, at, b"pooled"),
        Place::Seated {
            shard,
            ready,
            placed_at_epoch,
        } => {
            let a = put_named(line, at, b"seated on shard ", shard.0);
            let b = put_either(line, a, ready, b", ready", b", waiting");
            put_named(line, b, b", stamp ", placed_at_epoch.0)
        }
        Place::Observing {
            shard,
            placed_at_epoch,
        } => {
            let a = put_named(line, at, b"watching shard ", shard.0);
            put_named(line, a, b", stamp ", placed_at_epoch.0)
        }
        Place::Short => put_text(line, at, b"short of stake"),
        Place::Other(mark) => put_named(line, at, b"other, mark ", mark),
    }
}

fn put_seated(line: &mut [u8], at: usize, ready: bool, stamp: u64, wait: u64) -> usize
    ensures { Puts line.old at (seated_text wait ready stamp) line.new result }
{
    if ready {
        return put_column(line, at, b"seated    ready    stamp ", 10, stamp);
    }
    let a = put_column(line, at, b"seated    waiting  stamp ", 10, stamp);
    put_column(line, a, b"  deadline ", 10, stamp.wrapping_add(wait))
}

// The place of a member of a committee, with the deadline of one that waits; nothing of a machine that is elsewhere.
pub fn put_member(line: &mut [u8], at: usize, place: Place, wait: u64) -> usize
    ensures { Puts line.old at (member_text wait place) line.new result }
{
    match place {
        Place::Seated {
            ready,
            placed_at_epoch,
            ..
        } => put_seated(line, at, ready, placed_at_epoch.0, wait),
        Place::Observing {
            placed_at_epoch,
            ..
        } => put_column(
            line,
            at,
            b"watching           stamp ",
            10,
            placed_at_epoch.0,
        ),
        Place::Pooled | Place::Short | Place::Other(_) => at,
    }
}
