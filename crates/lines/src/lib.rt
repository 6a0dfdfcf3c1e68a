// A line of bytes, laid from the left in lent room: what does not fit is cut.
#![tactic(auto)]

ghost use Rattle.std.specs.Prelude.{◌≡◌, take};
ghost use Rattle.lines.specs.Says.{Puts};
ghost use Rattle.lines.specs.Numeral.{spaces, numeral};

pub fn put_text(line: &mut [u8], at: usize, text: &[u8]) -> usize
    ensures { Puts line.old at text.now line.new result }
{
    if line.len() < at {
        return at;
    }
    let fitting = text.len().min(line.len() - at);
    line[at..at + fitting].copy_from_slice(&text[..fitting]);
    at + fitting
}

fn put_blanks(line: &mut [u8], at: usize, n: usize) -> usize
    ensures { Puts line.old at (spaces n) line.new result }
{
    if line.len() < at {
        return at;
    }
    let fitting = n.min(line.len() - at);
    line[at..at + fitting].fill(b' ');
    at + fitting
}

pub fn put_number(line: &mut [u8], at: usize, width: usize, n: u64) -> usize
    ensures { Puts line.old at (numeral width n) line.new result }
{
    let mut text = [0u8; 20];
    let k = io::decimal(n, &mut text);
    let a = put_blanks(line, at, width.saturating_sub(k));
    put_text(line, a, &text[..k])
}

// What is laid so far.
pub fn said(line: &[u8], at: usize) -> &[u8]
    ensures { result.now ≡ take at line.now }
{
    &line[..at.min(line.len())]
}
