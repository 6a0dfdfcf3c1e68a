// `show`: the roster as people read it.
ghost use Rattle.std.specs.Prelude.{◌<◌};
ghost use Rattle.rules.specs.Board.{most_reshapes};

use crate::failure::Failure;
use crate::files::WORDS;
use crate::lists::Kind;
use crate::{args, facts, files, lined, lists, rows_of, say};
use board::layout::MOST_RESHAPES;
use drains::Whose;
use rooms::Bytes;
use sections::Section;
use std::env::Env;
use std::fs::Files;
use std::io;
use templates::number_at;
use types::ShardId;

// ---- the settings, and counts

fn settings(rt: &impl Print, board: &[u64; WORDS]) -> io::Result<()> {
    let s = Section::Settings.table(board, 0);
    let epoch = number_at(s, 1);
    let size = number_at(s, 2);
    let quorum = waits::quorum(board);
    say::row(
        rt,
        b"epoch #; shard size #, quorum #",
        &[epoch, size, quorum],
    )?;
    say::row(
        rt,
        b"~~~drain length #; ready wait #; shuffle interval #; most rotations in flight #",
        s,
    )
}

fn totals(rt: &impl Print, board: &[u64; WORDS]) -> io::Result<()> {
    let all = facts::count(board, Section::Machines, 0) as u64;
    let seated = lists::count_of(board, Kind::Seated) as u64;
    let watching = lists::count_of(board, Kind::Watching) as u64;
    let pooled = lists::count_of(board, Kind::Pooled) as u64;
    let short = lists::count_of(board, Kind::Short) as u64;
    let other = lists::count_of(board, Kind::Other) as u64;
    println!(rt)?;
    say::row(
        rt,
        b"machines: #: seated #, watching #, pooled #, short of stake #, other #",
        &[all, seated, watching, pooled, short, other],
    )
}

// ---- committees

fn committee(rt: &impl Print, board: &[u64; WORDS], j: usize) -> io::Result<()> {
    let row = facts::row(board, Section::Committees, 0, j);
    let shard = number_at(row, 0);
    let members = number_at(row, 1);
    let on = waits::members_on(board, ShardId(shard));
    let seated = on.seated as u64;
    let ready = on.ready as u64;
    println!(rt)?;
    say::row(
        rt,
        b"shard #: members #, seated #, ready #",
        &[shard, members, seated, ready],
    )?;
    for k in 0..members as usize {
        rows_of::member(rt, board, j, k)?;
    }
    Ok(())
}

// ---- what a reshape that is not scheduled waits for

fn child(rt: &impl Print, board: &[u64; WORDS], i: usize, child: u64, half: u64) -> io::Result<()>
    requires { i < most_reshapes }
{
    let seats = waits::seats_for(board, i, ShardId(child)) as u64;
    let ready = drains::ready_seats(board, i, Whose::Of(ShardId(child))) as u64;
    let quorum = waits::quorum(board);
    let lacks = quorum.saturating_sub(ready);
    if lacks == 0 {
        return say::row(
            rt,
            b"  child #: seats #, ready #: they reach the quorum of #",
            &[child, seats, ready, quorum],
        );
    }
    say::row(
        rt,
        b"  child #: seats #, ready #; for the quorum it waits for ready members in its half: # of #",
        &[child, seats, ready, lacks, half],
    )
}

// A left half has n/2 rounded up.
fn children(rt: &impl Print, board: &[u64; WORDS], i: usize, target: u64) -> io::Result<()>
    requires { i < most_reshapes }
{
    if 32767 < target {
        return Ok(());
    }
    let on = waits::members_on(board, ShardId(target));
    let n = on.seated as u64;
    child(rt, board, i, 2 * target, n - n / 2)?;
    child(rt, board, i, 2 * target + 1, n / 2)
}

fn keepers(rt: &impl Print, board: &[u64; WORDS], i: usize) -> io::Result<()>
    requires { i < most_reshapes }
{
    let n = facts::count(board, Section::Seats, i) as u64;
    let ready = drains::ready_seats(board, i, Whose::All) as u64;
    let quorum = waits::quorum(board);
    let lacks = quorum.saturating_sub(ready);
    if lacks == 0 {
        return say::row(
            rt,
            b"  keepers #, ready #: they reach the quorum of #",
            &[n, ready, quorum],
        );
    }
    say::row(
        rt,
        b"  keepers #, ready #; for the quorum it waits for ready keepers: #",
        &[n, ready, lacks],
    )
}

fn gate(rt: &impl Print, board: &[u64; WORDS], i: usize) -> io::Result<()> {
    let row = facts::row(board, Section::Reshapes, 0, i);
    let is_scheduled = number_at(row, 5) == 1;
    if is_scheduled || MOST_RESHAPES <= i {
        return Ok(());
    }
    let is_merge = number_at(row, 1) == 1;
    if is_merge {
        return keepers(rt, board, i);
    }
    children(rt, board, i, number_at(row, 0))
}

// One reshape: what it is, what it waits for, its seats and its halves.
fn reshape(rt: &impl Print, board: &[u64; WORDS], i: usize) -> io::Result<()> {
    println!(rt)?;
    lined::reshape_head(rt, b"", board, i)?;
    lined::reshape_state(rt, b"  ", board, i)?;
    gate(rt, board, i)?;
    rows_of::seats(rt, board, i)?;
    lists::list_halves(rt, board, i)
}

// ---- the whole

fn committees(rt: &impl Print, board: &[u64; WORDS]) -> io::Result<()> {
    for j in 0..facts::count(board, Section::Committees, 0) {
        committee(rt, board, j)?;
    }
    Ok(())
}

fn of_kind(rt: &impl Print, heading: &[u8], kind: Kind, board: &[u64; WORDS]) -> io::Result<()> {
    let n = lists::count_of(board, kind);
    say::row(rt, heading, &[n as u64])?;
    if 0 < n {
        lists::list_kind(rt, kind, board)?;
    }
    Ok(())
}

fn places(rt: &impl Print, board: &[u64; WORDS]) -> io::Result<()> {
    totals(rt, board)?;
    of_kind(rt, b"pool: #", Kind::Pooled, board)?;
    of_kind(rt, b"watching: #", Kind::Watching, board)?;
    of_kind(rt, b"short of stake: #", Kind::Short, board)?;
    of_kind(rt, b"other: #", Kind::Other, board)
}

fn rotations(rt: &impl Print, board: &[u64; WORDS]) -> io::Result<()> {
    let n = facts::count(board, Section::Rotations, 0);
    say::row(rt, b"rotations: #", &[n as u64])?;
    for i in 0..n {
        rows_of::rotation(rt, board, i)?;
    }
    Ok(())
}

fn boundaries(rt: &impl Print, board: &[u64; WORDS]) -> io::Result<()> {
    let n = facts::count(board, Section::Boundaries, 0);
    say::row(rt, b"boundaries: #", &[n as u64])?;
    for i in 0..n {
        rows_of::boundary(rt, board, i)?;
    }
    Ok(())
}

fn reshapes(rt: &impl Print, board: &[u64; WORDS]) -> io::Result<()> {
    let n = facts::count(board, Section::Reshapes, 0);
    say::row(rt, b"reshapes: #", &[n as u64])?;
    for i in 0..n {
        reshape(rt, board, i)?;
    }
    Ok(())
}

pub(crate) fn tell(rt: &impl Print, board: &[u64; WORDS]) -> io::Result<()> {
    settings(rt, board)?;
    committees(rt, board)?;
    places(rt, board)?;
    rotations(rt, board)?;
    boundaries(rt, board)?;
    reshapes(rt, board)
}

pub(crate) fn run(rt: &(impl Env + Files + Print)) -> Result<(), Failure> {
    args::at_most(rt, 3)?;
    let mut board = [0u64; WORDS];
    files::read_board(rt, 2, &mut Bytes::none(), &mut board)?;
    tell(rt, &board)?;
    Ok(())
}
