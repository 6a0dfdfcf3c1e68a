// `check`: the seat check, and each row that breaks a clause of it.
use crate::failure::Failure;
use crate::files::WORDS;
use crate::say::{WIDTH, end};
use crate::{args, facts, files};
use board::layout::{
    MOST_COMMITTEES, MOST_MACHINES, MOST_MEMBERS, MOST_RESHAPES, MOST_ROTATIONS, MOST_SEATS,
};
use board::{committees, machines};
use fault_lines::{MachineFault, ReshapeFault, RotationFault};
use fault_rows::Clause;
use lines::put_text;
use reshapes::{fields, seats as cohort};
use rooms::Bytes;
use shards::rotations;
use std::env::Env;
use std::fs::Files;
use std::io;
use types::{ShardId, ValidatorId};

fn target(board: &[u64; WORDS], i: usize) -> ShardId {
    if MOST_RESHAPES <= i {
        return ShardId(0);
    }
    fields::target_at(board, i)
}

fn tell_place(rt: &impl Print, board: &[u64; WORDS], id: ValidatorId) -> io::Result<()> {
    if !facts::has_record(board, id) {
        return println!(rt; "    it has no record");
    }
    let mut line = [0u8; WIDTH];
    let a = put_text(&mut line, 0, b"    it is ");
    let b = phrases::put_place(&mut line, a, rows::place_of(board, id));
    end(rt, &line, b)
}

fn tell_machine(
    rt: &impl Print,
    fault: MachineFault,
    board: &[u64; WORDS],
    id: ValidatorId,
) -> io::Result<()> {
    let mut line = [0u8; WIDTH];
    let a = fault_lines::put_machine_fault(&mut line, 0, fault, id);
    end(rt, &line, a)?;
    tell_place(rt, board, id)
}

fn tell_member(rt: &impl Print, board: &[u64; WORDS], j: usize, k: usize) -> io::Result<()> {
    if MOST_COMMITTEES <= j {
        return Ok(());
    }
    if MOST_MEMBERS <= k {
        return Ok(());
    }
    let id = committees::member_at(board, j, k);
    let shard = committees::shard_at(board, j);
    tell_machine(rt, MachineFault::StrayMember(shard), board, id)
}

fn tell_seat(rt: &impl Print, board: &[u64; WORDS], i: usize, k: usize) -> io::Result<()> {
    if MOST_RESHAPES <= i {
        return Ok(());
    }
    if MOST_SEATS <= k {
        return Ok(());
    }
    let seat = cohort::at(board, i, k);
    let fault = MachineFault::AbsentSeat(target(board, i));
    tell_machine(rt, fault, board, seat.id)
}

fn tell_record(
    rt: &impl Print,
    fault: MachineFault,
    board: &[u64; WORDS],
    k: usize,
) -> io::Result<()> {
    if MOST_MACHINES <= k {
        return Ok(());
    }
    let m = machines::at(board, k);
    tell_machine(rt, fault, board, m.id)
}

fn tell_rotation(
    rt: &impl Print,
    fault: RotationFault,
    board: &[u64; WORDS],
    k: usize,
) -> io::Result<()> {
    if MOST_ROTATIONS <= k {
        return Ok(());
    }
    let r = rotations::at(board, k);
    let mut line = [0u8; WIDTH];
    let a = fault_lines::put_rotation_fault(&mut line, 0, r);
    end(rt, &line, a)?;
    let mut more = [0u8; WIDTH];
    let b = fault_lines::put_rotation_wrong(&mut more, 0, fault);
    end(rt, &more, b)
}

fn tell_reshape(
    rt: &impl Print,
    fault: ReshapeFault,
    board: &[u64; WORDS],
    k: usize,
) -> io::Result<()> {
    let mut line = [0u8; WIDTH];
    let a = fault_lines::put_reshape_fault(&mut line, 0, fault, target(board, k));
    end(rt, &line, a)
}

fn tell_fault(
    rt: &impl Print,
    clause: Clause,
    board: &[u64; WORDS],
    i: usize,
    k: usize,
) -> io::Result<()> {
    match clause {
        Clause::StrayMember => tell_member(rt, board, i, k),
        Clause::Unlisted => tell_record(rt, MachineFault::Unlisted, board, k),
        Clause::AbsentSeat => tell_seat(rt, board, i, k),
        Clause::Unseated => tell_rotation(rt, RotationFault::Unseated, board, k),
        Clause::SharedParty => tell_rotation(rt, RotationFault::SharedParty, board, k),
        Clause::SplitThere => tell_rotation(rt, RotationFault::SplitThere, board, k),
        Clause::Unhalved => { tell_record(rt, MachineFault::Unhalved(target(board, i)), board, k) }
        Clause::Overlapping => {
            tell_reshape(rt, ReshapeFault::Overlapping(target(board, i)), board, k)
        }
        Clause::Unfounded => tell_reshape(rt, ReshapeFault::Unfounded, board, k),
    }
}

fn walk(rt: &impl Print, clause: Clause, board: &[u64; WORDS], i: usize) -> io::Result<()> {
    let n = fault_rows::rows_inside(clause, board, i);
    let mut k = fault_rows::next_fault(clause, board, i, fault_rows::first_of(clause, i));
    while k < n {
        tell_fault(rt, clause, board, i, k)?;
        k = fault_rows::next_fault(clause, board, i, k + 1);
    }
    Ok(())
}

fn over(rt: &impl Print, clause: Clause, board: &[u64; WORDS]) -> io::Result<()> {
    let n = fault_rows::rows_outside(clause, board);
    for i in 0..n {
        walk(rt, clause, board, i)?;
    }
    Ok(())
}

const CLAUSES: [Clause; 9] = [
    Clause::StrayMember,
    Clause::Unlisted,
    Clause::AbsentSeat,
    Clause::Unseated,
    Clause::SharedParty,
    Clause::SplitThere,
    Clause::Unhalved,
    Clause::Overlapping,
    Clause::Unfounded,
];

fn tell(rt: &impl Print, board: &[u64; WORDS]) -> io::Result<()> {
    if seats::seat_check(board) {
        return println!(rt; "yes: the seat check passes");
    }
    for clause in &CLAUSES {
        over(rt, *clause, board)?;
    }
    println!(rt; "no: the seat check fails")
}

pub(crate) fn run(rt: &(impl Env + Files + Print)) -> Result<(), Failure> {
    args::at_most(rt, 3)?;
    let mut board = [0u64; WORDS];
    files::read_board(rt, 2, &mut Bytes::none(), &mut board)?;
    tell(rt, &board)?;
    Ok(())
}
