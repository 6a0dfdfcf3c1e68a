// Two tables walked together by key: what stands in one alone, or in both with other words.
#![tactic(auto)]

ghost use Rattle.std.specs.Prelude.{◌≡◌, List, ℕ, ◌+◌, ◌*◌, ◌<◌, ◌≤◌, length, take, drop};
ghost use Rattle.tables.specs.Rows.{Row};
ghost use Rattle.differences.specs.Differ.{TableOf, from, differ};

use word_tests::rises;

// Rows i of the first table and j of the second: past a row that is gone the walk goes on at i + 1 and j, past a new one
// at i and j + 1, past a changed one at i + 1 and j + 1.
#[derive(Clone, Copy, PartialEq, Eq)]
pub enum Difference {
    Gone(usize, usize),
    New(usize, usize),
    Changed(usize, usize),
}

// How many rows of w words a table has; none where the count names more than there are words for.
pub fn rows_in(t: &[u64], w: usize) -> usize
    ensures { ((i : ℕ) → i < result → 1 + i * w + w ≤ length t.now) × (0 < w → (rs : List (Row w)) → TableOf w t.now rs → result ≡ length rs) }
{
    if w == 0 {
        return 0;
    }
    if t.is_empty() {
        return 0;
    }
    let n = t[0] as usize;
    if (t.len() - 1) / w < n {
        return 0;
    }
    n
}

fn row_at(t: &[u64], w: usize, i: usize) -> &[u64]
    requires { 1 + i * w + w ≤ length t.now }
    ensures { result.now ≡ take w (drop (1 + i * w) t.now) }
{
    let s = 1 + i * w;
    let e = s + w;
    &t[s..e]
}

// The first difference from rows i and j on, where there is one. Rows are keyed by their first word or, in pairs, by their first two.
pub fn next_difference(
    pairs: bool,
    w: usize,
    a: &[u64],
    b: &[u64],
    i: usize,
    j: usize,
) -> Option<Difference>
    ensures { 0 < w → (rs qs : List (Row w)) → TableOf w a.now rs → TableOf w b.now qs → result ≡ differ pairs i j (from i rs) (from j qs) }
{
    let n = rows_in(a, w);
    let m = rows_in(b, w);
    let mut k = i;
    let mut l = j;
    // Kept: the places in both tables go on together, and are told after the last turn too.
    while k < n {
        if m <= l {
            return Some(Difference::Gone(k, l));
        }
        let row = row_at(a, w, k);
        let other = row_at(b, w, l);
        if rises(pairs, row, other) {
            return Some(Difference::Gone(k, l));
        }
        if rises(pairs, other, row) {
            return Some(Difference::New(k, l));
        }
        if row != other {
            return Some(Difference::Changed(k, l));
        }
        k += 1;
        l += 1;
    }
    if l < m {
        return Some(Difference::New(k, l));
    }
    None
}
