// Tests of lent words: in a range, zero, distinct, rising. They are joined by `&` and `|`, which leave no branch.
#![tactic(auto)]

ghost use Rattle.std.specs.Prelude.{◌≡◌, ◌&&◌, length};
ghost use Rattle.rules.specs.WellFormed.{within};
ghost use Rattle.word_tests.specs.Tests.{at, all_zero, rises};

mod marks;
mod rows;

pub use marks::{MARKS, Marks, Words, ids_ok};
pub use rows::{Row, table_ok};

pub fn inside(low: u64, high: u64, x: u64) -> bool
    ensures { result ≡ within low high x }
{
    (low <= x) & (x <= high)
}

// All bits of each together: one operation to a word, and two that don't wait for each other. By one index for both, and not by
// `all`, which asks at each word whether to stop.
fn both_zero(s: &[u64], t: &[u64]) -> bool
    requires { length s.now ≡ length t.now }
    ensures { result ≡ (all_zero s.now && all_zero t.now) }
{
    let mut low: u64 = 0;
    let mut high: u64 = 0;
    for i in 0..s.len() {
        low = low | s[i];
        high = high | t[i];
    }
    (low == 0) & (high == 0)
}

// By halves, and the word between them and the end where there is one.
pub fn all_zero(t: &[u64]) -> bool
    ensures { result ≡ all_zero t.now }
{
    let half = t.len() / 2;
    let end = half + half;
    let halves = both_zero(&t[..half], &t[half..end]);
    if end < t.len() {
        return halves & (t[end] == 0);
    }
    halves
}

// A word, and 0 where there is none.
fn word_at(t: &[u64], i: usize) -> u64
    ensures { result ≡ at t.now i }
{
    t.get(i).copied().unwrap_or(0)
}

// A row's words are below the next row's: by their first words or, in pairs, by the first two.
pub fn rises(pairs: bool, s: &[u64], t: &[u64]) -> bool
    ensures { result ≡ rises pairs s.now t.now }
{
    let a = word_at(s, 0);
    let b = word_at(t, 0);
    (a < b) | (pairs & (a == b) & (word_at(s, 1) < word_at(t, 1)))
}
