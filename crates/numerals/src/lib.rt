// Numbers read from text.
#![tactic(auto)]

ghost use Rattle.std.specs.Prelude.{◌≡◌, [], ◌∷◌, ◌+◌, ◌≤◌, length, drop, IfOk};
ghost use Rattle.numerals.specs.Decimal.{value_from, in_word, decimal_of};
ghost use Rattle.numerals.specs.Pieces.{pieces_of, numbers_of, laid_over, end_of, run_of};
ghost use Rattle.numerals.specs.Pieces.{between as Pieces·between};

#[derive(Clone, Copy, PartialEq, Eq)]
pub enum NumbersError {
    // Where the first piece that is no number begins.
    NotANumber(usize),
    TooMany,
}

// The value v with one more digit after it.
fn with_digit(v: u64, b: u8) -> Option<u64>
    ensures { result ≡ in_word (value_from v (b ∷ [])) }
{
    if !b.is_ascii_digit() {
        return None;
    }
    v.checked_mul(10)?.checked_add(u64::from(b - b'0'))
}

// The number that digits alone say. Kept beside std's `parse`, which takes a text where this takes any bytes, and lets a '+'
// stand before the digits.
pub fn parse(text: &[u8]) -> Option<u64>
    ensures { result ≡ decimal_of text.now }
{
    if text.is_empty() {
        return None;
    }
    let mut v: u64 = 0;
    for b in text {
        v = with_digit(v, *b)?;
    }
    Some(v)
}

#[tactic(auto, unfolding(crate::specs::Pieces::between))]
fn between(b: u8) -> bool
    ensures { result ≡ Pieces·between b }
{
    matches!(b, b'\t' | b'\n' | b'\r' | b' ' | b',')
}

// Where the piece that goes on at `at` ends.
fn piece_end(text: &[u8], at: usize) -> usize
    requires { at ≤ length text.now }
    ensures { (result ≤ length text.now) × (result ≡ at + length (run_of (drop at text.now))) }
{
    for e in at..text.len() {
        if between(text[e]) {
            return e;
        }
    }
    text.len()
}

// How many numbers a text has, with blanks, commas, tabs and line ends between them; they are laid at the start of `out`.
pub fn numbers(text: &[u8], out: &mut [u64]) -> Result<usize, NumbersError>
    ensures { (result ≡ end_of (length out.old) 0 (pieces_of text.now)) × (out.new ≡ laid_over (numbers_of (pieces_of text.now)) out.old) ×
        IfOk result (λ n. n ≤ length out.old) }
{
    let mut at = 0;
    let mut n = 0;
    // Kept: a turn goes on by one byte or by one piece, whose place an error tells.
    while at < text.len() {
        if between(text[at]) {
            at += 1;
        } else {
            let e = piece_end(text, at);
            let Some(v) = parse(&text[at..e]) else {
                return Err(NumbersError::NotANumber(at));
            };
            if out.len() <= n {
                return Err(NumbersError::TooMany);
            }
            out[n] = v;
            n += 1;
            at = e;
        }
    }
    Ok(n)
}
