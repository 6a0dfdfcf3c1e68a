// A table of rows of any kind, which is told by its type: so a row's kind is not looked for at each row.
ghost use Rattle.std.specs.Prelude.{◌≡◌, List, ℕ, Bool, ◌≤◌, length};
ghost use Rattle.word_tests.specs.Tests.{rises, first_ok, table_ok};

use crate::{all_zero, rises};

// A kind of rows. What a value of it holds for its tests may change from row to row, but not what they say.
pub trait Row {
    ghost passes: { Self → List ℕ → Bool };

    ghost WIDTH: { ℕ };

    ghost PAIRED: { Bool };

    const WIDTH: usize;

    // Whether rows rise by their first two words, and not by the first alone.
    const PAIRED: bool;

    fn passes(&mut self, row: &[u64]) -> bool
        requires { length row.now ≡ WIDTH }
        ensures told { result ≡ passes self.old row.now }
        ensures same { passes self.new ≡ passes self.old };
}

// The first of n rows: it is there, it is good, and it is below the next. By branches: what a good row never takes is a branch.
fn first_ok<R: Row>(kind: &mut R, n: usize, t: &[u64]) -> bool
    ensures told { result ≡ first_ok (R.passes kind.old) (rises R.PAIRED) R.WIDTH n t.now }
    ensures same { R.passes kind.new ≡ R.passes kind.old }
{
    if t.len() < R::WIDTH {
        return false;
    }
    let (row, rest) = t.split_at(R::WIDTH);
    if !kind.passes(row) {
        return false;
    }
    if n == 1 {
        return true;
    }
    rises(R::PAIRED, t, rest)
}

// A count within cap, that many rows in order, and zeros after them.
pub fn table_ok<R: Row>(kind: &mut R, cap: usize, t: &[u64]) -> bool
    requires { 1 ≤ length t.now }
    ensures told { result ≡ table_ok (R.passes kind.old) (rises R.PAIRED) R.WIDTH cap t.now }
    ensures same { R.passes kind.new ≡ R.passes kind.old }
{
    let n = t[0] as usize;
    if cap < n {
        return false;
    }
    let mut rest = &t[1..];
    for after in (0..n).rev() {
        if !first_ok(kind, after + 1, rest) {
            return false;
        }
        rest = rest.split_at(R::WIDTH).1;
    }
    all_zero(rest)
}
