// A recorded call, and the export that makes it.
use crate::input;
use crate::kinds::Kind;
use std::io::Read;

// What was asked, and what came of it.
#[derive(Clone, Copy)]
pub struct Call {
    pub kind: Kind,
    pub answer: u64,
    pub handled: u64,
    pub used: u64,
    pub draws: u64,
    pub shard: u64,
    pub machine: u64,
    pub side: u64,
}

pub(crate) fn next(file: &mut impl Read) -> Call {
    let packed = input::word(file);
    Call {
        kind: Kind::of(packed % 256),
        answer: packed / 256 % 256,
        handled: packed / 65536 % 65536,
        used: packed / 4294967296 % 65536,
        draws: packed / 281474976710656,
        shard: input::word(file),
        machine: input::word(file),
        side: input::word(file),
    }
}

// No answer of any step.
const NO_SUCH_STEP: u64 = 255;

pub(crate) fn make(call: Call, board: &mut [u64], draws: &[u64], results: &mut [u64; 2]) -> u64 {
    let shard = call.shard;
    let machine = call.machine;
    match call.kind {
        Kind::Tick => roster::roster_tick(board, results),
        Kind::AdmitSplit => roster::roster_admit_split(board, shard, results),
        Kind::AdmitMerge => roster::roster_admit_merge(board, shard, draws, results),
        Kind::MarkSeatReady => roster::roster_mark_seat_ready(board, shard, machine, results),
        Kind::MarkQuiet => roster::roster_mark_quiet(board, shard, call.side, results),
        Kind::DrawCohort => roster::roster_draw_cohort(board, shard, draws, results),
        Kind::Lapse => roster::roster_lapse(board, shard, results),
        Kind::ScheduleSplits => roster::roster_schedule_splits(board, draws, results),
        Kind::ScheduleMerges => roster::roster_schedule_merges(board, results),
        Kind::CutSplits => roster::roster_cut_splits(board, results),
        Kind::CutMerges => roster::roster_cut_merges(board, results),
        Kind::Leave => roster::roster_leave(board, machine, draws, results),
        Kind::Rotate => roster::roster_rotate(board, shard, machine, draws, results),
        Kind::Resolve => roster::roster_resolve(board, results),
        Kind::TimeOut => roster::roster_time_out(board, results),
        Kind::First | Kind::Read | Kind::Last => NO_SUCH_STEP,
    }
}
