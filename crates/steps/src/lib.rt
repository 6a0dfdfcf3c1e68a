// What a step tells, and how far it walks a table.
#![tactic(auto)]

ghost use Rattle.std.specs.Prelude.{◌≡◌, ◌≤◌};
ghost use Rattle.steps.specs.Inner.{outcome, step_told};

use types::{Answer, Outcome};

pub fn refusal(answer: Answer) -> Outcome
    ensures { result ≡ outcome answer 0 0 }
{
    Outcome {
        answer,
        handled: 0,
        draws_used: 0,
    }
}

pub fn done(handled: u64, used: u64) -> Outcome
    ensures { result ≡ outcome Answer.Done handled used }
{
    Outcome {
        answer: Answer::Done,
        handled,
        draws_used: used,
    }
}

// What a step tells that is written with `?`: a refusal handles nothing and draws nothing.
pub fn told(step: Result<Outcome, Answer>) -> Outcome
    ensures { result ≡ step_told step }
{
    match step {
        Ok(outcome) => outcome,
        Err(answer) => refusal(answer),
    }
}

// How many rows to walk: no more than there is room for.
pub fn rows_within(n: usize, most: usize) -> usize
    ensures { (result ≤ most) × (n ≤ most → result ≡ n) }
{
    n.min(most)
}
