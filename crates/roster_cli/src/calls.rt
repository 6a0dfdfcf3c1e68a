// The export that makes each step.
use step_names::Step;

pub(crate) fn make(
    step: Step,
    first: u64,
    second: u64,
    board: &mut [u64],
    draws: &[u64],
    results: &mut [u64; 2],
) -> u64 {
    match step {
        Step::Tick => roster::roster_tick(board, results),
        Step::AdmitSplit => roster::roster_admit_split(board, first, results),
        Step::AdmitMerge => roster::roster_admit_merge(board, first, draws, results),
        Step::MarkSeatReady => roster::roster_mark_seat_ready(board, first, second, results),
        Step::MarkQuiet => roster::roster_mark_quiet(board, first, second, results),
        Step::DrawCohort => roster::roster_draw_cohort(board, first, draws, results),
        Step::Lapse => roster::roster_lapse(board, first, results),
        Step::ScheduleSplits => roster::roster_schedule_splits(board, draws, results),
        Step::ScheduleMerges => roster::roster_schedule_merges(board, results),
        Step::CutSplits => roster::roster_cut_splits(board, results),
        Step::CutMerges => roster::roster_cut_merges(board, results),
        Step::Leave => roster::roster_leave(board, first, draws, results),
        Step::Rotate => roster::roster_rotate(board, first, second, draws, results),
        Step::Resolve => roster::roster_resolve(board, results),
        Step::TimeOut => roster::roster_time_out(board, results),
    }
}
