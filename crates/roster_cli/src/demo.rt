// `demo`: document 01's story, a split from its admission to its cut, on built-in boards.
use crate::files::WORDS;
use crate::{calls, diffs, say, show, trying};
use std::io;
use step_names::Step;
use templates::line_at;

// ---- the boards, as the words of a snapshot, each in a byte: epoch 5, D 2, W 3, interval 10, most 2 in flight; shard 1 with its
// members seated and ready, its boundary, and as many machines in the pool

fn load(words: &[u8], board: &mut [u64; WORDS]) {
    let mut bytes = [0u8; 1024];
    for i in 0..words.len() {
        if i < 128 {
            bytes[8 * i] = words[i];
        }
    }
    let size = words.len().saturating_mul(8);
    roster::roster_read(lines::said(&bytes, size), board);
}

// S is 4: members 11 to 14, and 21 to 24 in the pool.
fn load_four(board: &mut [u64; WORDS]) {
    load(
        b"\x06\x05\x04\x02\x03\x0a\x02\x08\x0b\x01\x01\x01\x00\x0c\x01\x01\x01\x00\x0d\x01\x01\x01\
          \x00\x0e\x01\x01\x01\x00\x15\x00\x00\x00\x00\x16\x00\x00\x00\x00\x17\x00\x00\x00\x00\x18\
          \x00\x00\x00\x00\x01\x01\x04\x0b\x0c\x0d\x0e\x01\x01\x64\x01\x04\x00\x00\x00\x00\x00\x00",
        board,
    );
}

// S is 5: members 11 to 15, and 21 to 25 in the pool.
fn load_five(board: &mut [u64; WORDS]) {
    load(
        b"\x06\x05\x05\x02\x03\x0a\x02\x0a\x0b\x01\x01\x01\x00\x0c\x01\x01\x01\x00\x0d\x01\x01\x01\
          \x00\x0e\x01\x01\x01\x00\x0f\x01\x01\x01\x00\x15\x00\x00\x00\x00\x16\x00\x00\x00\x00\x17\
          \x00\x00\x00\x00\x18\x00\x00\x00\x00\x19\x00\x00\x00\x00\x01\x01\x05\x0b\x0c\x0d\x0e\x0f\
          \x01\x01\x64\x01\x04\x00\x00\x00\x00\x00\x00",
        board,
    );
}

// ---- the steps

// Each with its numbers: a target, and a seat of the left or of the right child.
const STEPS: [(Step, u64, u64); 11] = [
    (Step::AdmitSplit, 1, 0),
    (Step::DrawCohort, 1, 0),
    (Step::ScheduleSplits, 0, 0),
    (Step::MarkSeatReady, 1, 22),
    (Step::MarkSeatReady, 1, 21),
    (Step::MarkQuiet, 1, 0),
    (Step::ScheduleSplits, 0, 0),
    (Step::ScheduleSplits, 0, 0),
    (Step::CutSplits, 0, 0),
    (Step::Tick, 0, 0),
    (Step::CutSplits, 0, 0),
];

// A schedule shuffles by the order given, which leaves members as they stand.
fn make(
    told: (Step, u64, u64),
    order: &[u64],
    board: &mut [u64; WORDS],
    results: &mut [u64; 2],
) -> u64 {
    let (step, first, second) = told;
    if step == Step::ScheduleSplits {
        return calls::make(step, first, second, board, order, results);
    }
    calls::make(step, first, second, board, &[0, 0, 0, 0], results)
}

fn tell_step(rt: &impl Print, k: usize) -> io::Result<()> {
    println!(rt)?;
    say::row(
        rt,
        line_at(
            b"> admit_split 1: a split of shard 1 is admitted, with an empty cohort\n\
          > draw_cohort 1 --draws 0,0,0: S machines of the pool watch the shard (C1)\n\
          > schedule_splits --draws 3,2,1: no seat is ready, so no drain begins (C4)\n\
          > mark_seat_ready 1 22: a seat of the left child is ready\n\
          > mark_seat_ready 1 21: and one of the right child\n\
          > mark_quiet 1 0: the shard is quiet\n\
          > schedule_splits --draws 3,2,1: each child has its quorum of 3; a drain begins (C3, C5)\n\
          > schedule_splits --draws 3,2,1: the split gets its terminal and its halves (C6)\n\
          > cut_splits: before the terminal nothing is cut (C7)\n\
          > tick\n\
          > cut_splits: the shard is cut; members keep their stamps, the cohort is stamped now (C8)\n\
          > the same steps with S = 5 and five members: children of 6 and 4 (C2)\n",
            k,
        ),
        &[],
    )
}

fn take(
    rt: &impl Print,
    k: usize,
    told: (Step, u64, u64),
    board: &mut [u64; WORDS],
) -> io::Result<()> {
    let before = *board;
    let mut results = [0u64; 2];
    tell_step(rt, k)?;
    let answer = make(told, &[3, 2, 1], board, &mut results);
    trying::tell(rt, answer, &results)?;
    diffs::tell(rt, &before, board)
}

fn take_each(rt: &impl Print, board: &mut [u64; WORDS]) -> io::Result<()> {
    for (k, told) in STEPS.iter().enumerate() {
        take(rt, k, *told, board)?;
    }
    Ok(())
}

fn make_each(board: &mut [u64; WORDS]) {
    let mut results = [0u64; 2];
    for told in &STEPS {
        make(*told, &[4, 3, 2, 1], board, &mut results);
    }
}

// ---- the story

fn tell_five(rt: &impl Print) -> io::Result<()> {
    let mut board = [0u64; WORDS];
    load_five(&mut board);
    let before = board;
    tell_step(rt, 11)?;
    make_each(&mut board);
    diffs::tell(rt, &before, &board)
}

pub(crate) fn tell(rt: &impl Print) -> io::Result<()> {
    let mut board = [0u64; WORDS];
    load_four(&mut board);
    println!(rt; "The roster before:\n")?;
    show::tell(rt, &board)?;
    take_each(rt, &mut board)?;
    println!(rt; "\nThe roster after:\n")?;
    show::tell(rt, &board)?;
    tell_five(rt)
}
