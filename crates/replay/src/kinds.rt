// What the recorded file has, by its code there.
use std::fmt;

#[derive(Clone, Copy, PartialEq, Eq)]
pub(crate) enum Kind {
    // The snapshot that a series starts from.
    First,
    Tick,
    AdmitSplit,
    AdmitMerge,
    MarkSeatReady,
    MarkQuiet,
    DrawCohort,
    Lapse,
    ScheduleSplits,
    ScheduleMerges,
    CutSplits,
    CutMerges,
    Leave,
    Rotate,
    Resolve,
    TimeOut,
    Read,
    // The snapshot after the last call.
    Last,
}

pub(crate) const KINDS: [Kind; 18] = [
    Kind::First,
    Kind::Tick,
    Kind::AdmitSplit,
    Kind::AdmitMerge,
    Kind::MarkSeatReady,
    Kind::MarkQuiet,
    Kind::DrawCohort,
    Kind::Lapse,
    Kind::ScheduleSplits,
    Kind::ScheduleMerges,
    Kind::CutSplits,
    Kind::CutMerges,
    Kind::Leave,
    Kind::Rotate,
    Kind::Resolve,
    Kind::TimeOut,
    Kind::Read,
    Kind::Last,
];

impl Kind {
    // A code that there is none of counts with the first snapshots.
    pub(crate) fn of(code: u64) -> Self {
        match KINDS.get(code as usize) {
            Some(kind) => *kind,
            None => Kind::First,
        }
    }

    // A step over several shards keeps its work on those before a refused one.
    pub(crate) fn is_batch(self) -> bool {
        matches!(
            self,
            Kind::ScheduleSplits | Kind::ScheduleMerges | Kind::CutSplits | Kind::CutMerges
        )
    }
}

impl fmt::Display for Kind {
    fn fmt<W: fmt::Write>(&self, f: &mut fmt::Formatter<W>) -> fmt::Result {
        f.write_str(match self {
            Kind::First => "snapshot read and written back",
            Kind::Tick => "tick",
            Kind::AdmitSplit => "admit split",
            Kind::AdmitMerge => "admit merge",
            Kind::MarkSeatReady => "mark seat ready",
            Kind::MarkQuiet => "mark quiet",
            Kind::DrawCohort => "draw cohort",
            Kind::Lapse => "lapse",
            Kind::ScheduleSplits => "schedule splits",
            Kind::ScheduleMerges => "schedule merges",
            Kind::CutSplits => "cut splits",
            Kind::CutMerges => "cut merges",
            Kind::Leave => "leave",
            Kind::Rotate => "rotate",
            Kind::Resolve => "resolve",
            Kind::TimeOut => "time out",
            Kind::Read => "read",
            Kind::Last => "snapshot after the last call",
        })
    }
}
