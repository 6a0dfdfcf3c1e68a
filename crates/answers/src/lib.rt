// What an answer's number means, put in a line.
#![tactic(auto)]

ghost use Rattle.std.specs.Prelude.{◌≡◌};
ghost use Rattle.lines.specs.Says.{Puts};
ghost use Rattle.answers.specs.Answers.{answer_text};

use lines::put_text;

// Kept: an answer comes as its number, since that is what the exports give.
fn text_of(answer: u64) -> &'static [u8]
    ensures { result.now ≡ answer_text answer }
{
    match answer {
        0 => b"done",
        1 => b"the board is not well-formed",
        2 => b"tick at the last epoch",
        3 => b"shard 0 or over 65535, a reshape's target over 32767, or a side over 1",
        4 => b"the machine has no record",
        5 => b"a boundary is missing",
        6 => b"no such reshape, seat or side, no split to lapse, or a cohort's need is unmet",
        7 => b"another reshape names a shard of the family, or its committees do not fit",
        8 => b"the victim is not seated there, or is already in a rotation there",
        9 => b"the next needed draw is missing",
        10 => b"the next draw is larger than allowed",
        11 => b"a limit would be passed, or an id would stand twice in a committee",
        12 => b"a cohort is drawn from fewer than S pooled",
        _ => b"the snapshot is not a well-formed board's",
    }
}

pub fn put_answer(line: &mut [u8], at: usize, answer: u64) -> usize
    ensures { Puts line.old at (answer_text answer) line.new result }
{
    put_text(line, at, text_of(answer))
}
