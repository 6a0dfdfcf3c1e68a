// The steps by name.
#![tactic(auto)]

ghost use Rattle.std.specs.Prelude.{◌≡◌, IfSome, IfNone, MatchResult};
ghost use Rattle.phrases.specs.Texts.{bytes};
ghost use Rattle.step_names.specs.Names.{underscored as asWritten, same_name};
ghost use Rattle.step_names.specs.Table.{number, IsNoStep, name_of, number_from, numbers_of, takes_draws, is_batch};

#[derive(Clone, Copy, PartialEq, Eq)]
pub enum Step {
    Tick = 1,
    AdmitSplit = 2,
    AdmitMerge = 3,
    MarkSeatReady = 4,
    MarkQuiet = 5,
    DrawCohort = 6,
    Lapse = 7,
    ScheduleSplits = 8,
    ScheduleMerges = 9,
    CutSplits = 10,
    CutMerges = 11,
    Leave = 12,
    Rotate = 13,
    Resolve = 14,
    TimeOut = 15,
}

// A number that is no step's.
#[derive(Clone, Copy, PartialEq, Eq)]
pub struct NoSuchStep(pub u64);

impl TryFrom<u64> for Step {
    type Error = NoSuchStep;

    ghost try_from_gives = { λ given step. MatchResult step (λ s. number s ≡ given) (λ _. IsNoStep given) };

    #[tactic(auto, unfolding(crate::specs::Table::number))]
    fn try_from(given: u64) -> Result<Step, NoSuchStep> {
        match given {
            1 => Ok(Step::Tick),
            2 => Ok(Step::AdmitSplit),
            3 => Ok(Step::AdmitMerge),
            4 => Ok(Step::MarkSeatReady),
            5 => Ok(Step::MarkQuiet),
            6 => Ok(Step::DrawCohort),
            7 => Ok(Step::Lapse),
            8 => Ok(Step::ScheduleSplits),
            9 => Ok(Step::ScheduleMerges),
            10 => Ok(Step::CutSplits),
            11 => Ok(Step::CutMerges),
            12 => Ok(Step::Leave),
            13 => Ok(Step::Rotate),
            14 => Ok(Step::Resolve),
            15 => Ok(Step::TimeOut),
            _ => Err(NoSuchStep(given)),
        }
    }
}

fn underscored(b: u8) -> u8
    ensures { result ≡ asWritten b }
{
    if b == b'-' { b'_' } else { b }
}

fn same_name(word: &[u8], name: &[u8]) -> bool
    ensures { result ≡ same_name word.now name.now }
{
    if word.len() != name.len() {
        return false;
    }
    for i in 0..word.len() {
        if underscored(word[i]) != name[i] {
            return false;
        }
    }
    true
}

const STEPS: [Step; 15] = [
    Step::Tick,
    Step::AdmitSplit,
    Step::AdmitMerge,
    Step::MarkSeatReady,
    Step::MarkQuiet,
    Step::DrawCohort,
    Step::Lapse,
    Step::ScheduleSplits,
    Step::ScheduleMerges,
    Step::CutSplits,
    Step::CutMerges,
    Step::Leave,
    Step::Rotate,
    Step::Resolve,
    Step::TimeOut,
];

impl Step {
    fn name(self) -> &'static [u8]
        ensures { result.now ≡ bytes (name_of self) }
    {
        match self {
            Step::Tick => b"tick",
            Step::AdmitSplit => b"admit_split",
            Step::AdmitMerge => b"admit_merge",
            Step::MarkSeatReady => b"mark_seat_ready",
            Step::MarkQuiet => b"mark_quiet",
            Step::DrawCohort => b"draw_cohort",
            Step::Lapse => b"lapse",
            Step::ScheduleSplits => b"schedule_splits",
            Step::ScheduleMerges => b"schedule_merges",
            Step::CutSplits => b"cut_splits",
            Step::CutMerges => b"cut_merges",
            Step::Leave => b"leave",
            Step::Rotate => b"rotate",
            Step::Resolve => b"resolve",
            Step::TimeOut => b"time_out",
        }
    }

    // The step that a word names, in which '-' may stand for '_'.
    pub fn named(word: &[u8]) -> Option<Step>
        ensures named { IfSome result (λ s. number s ≡ number_from 1 word.now) }
        ensures none { IfNone result (number_from 1 word.now ≡ 0) }
    {
        for step in &STEPS {
            if same_name(word, step.name()) {
                return Some(*step);
            }
        }
        None
    }

    // How many numbers it takes: none, one (a target or a machine), or two.
    #[tactic(auto, unfolding(crate::specs::Table::steps, crate::specs::Table::number, crate::specs::Table::numbers_of))]
    pub fn numbers(self) -> usize
        ensures { result ≡ numbers_of (number self) }
    {
        match self {
            Step::MarkSeatReady | Step::MarkQuiet | Step::Rotate => 2,
            Step::AdmitSplit | Step::AdmitMerge | Step::DrawCohort | Step::Lapse => 1,
            Step::Leave => 1,
            Step::Tick | Step::Resolve | Step::TimeOut => 0,
            Step::ScheduleSplits | Step::ScheduleMerges => 0,
            Step::CutSplits | Step::CutMerges => 0,
        }
    }

    #[tactic(auto, unfolding(crate::specs::Table::steps, crate::specs::Table::number, crate::specs::Table::takes_draws))]
    pub fn takes_draws(self) -> bool
        ensures { result ≡ takes_draws (number self) }
    {
        matches!(
            self,
            Step::AdmitMerge | Step::DrawCohort | Step::ScheduleSplits | Step::Leave | Step::Rotate
        )
    }

    // A step over several shards keeps its work on those before a refused one.
    #[tactic(auto, unfolding(crate::specs::Table::steps, crate::specs::Table::number, crate::specs::Table::is_batch))]
    pub fn is_batch(self) -> bool
        ensures { result ≡ is_batch (number self) }
    {
        matches!(
            self,
            Step::ScheduleSplits | Step::ScheduleMerges | Step::CutSplits | Step::CutMerges
        )
    }

    #[tactic(auto, unfolding(crate::specs::Table::number))]
    pub fn number(self) -> u64
        ensures { result ≡ number self }
    {
        self as u64
    }
}

// ---- by a step's number, of which any is allowed

// The number of the step that a word names; 0 where it names none.
pub fn step_named(word: &[u8]) -> u64
    ensures { result ≡ number_from 1 word.now }
{
    match Step::named(word) {
        Some(step) => step.number(),
        None => 0,
    }
}

#[tactic(auto, using(crate::proofs::Numbers::none_numbers_of))]
pub fn numbers_of(step: u64) -> usize
    ensures { result ≡ numbers_of step }
{
    match Step::try_from(step) {
        Ok(step) => step.numbers(),
        Err(_) => 0,
    }
}

#[tactic(auto, using(crate::proofs::Numbers::none_takes_draws))]
pub fn takes_draws(step: u64) -> bool
    ensures { result ≡ takes_draws step }
{
    match Step::try_from(step) {
        Ok(step) => step.takes_draws(),
        Err(_) => false,
    }
}

#[tactic(auto, using(crate::proofs::Numbers::none_is_batch))]
pub fn is_batch(step: u64) -> bool
    ensures { result ≡ is_batch step }
{
    match Step::try_from(step) {
        Ok(step) => step.is_batch(),
        Err(_) => false,
    }
}
