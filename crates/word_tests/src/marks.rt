// Ids that differ, told by marks at their last bits.
ghost use Rattle.std.specs.Prelude.{◌≡◌, List, ℕ, not, ◌+◌, ◌<◌, ◌≤◌, length, get_or, drop};
ghost use Rattle.rules.specs.Lists.{has, distinct};
ghost use Rattle.word_tests.specs.Tests.{ids_ok};
ghost use Rattle.word_tests.specs.Holding.{Holding, Unset};

use crate::all_zero;

// How many marks tell ids apart.
pub const MARKS: usize = 512;

// Words wherever they stand, each read by its place among them.
pub trait Words {
    ghost words: { Self → List ℕ };

    fn count(&self) -> usize
        ensures { result ≡ length (words self.now) };

    fn word(&self, i: usize) -> u64
        requires { i < length (words self.now) }
        ensures { result ≡ get_or (words self.now) i 0 };
}

impl Words for &[u64] {
    ghost words = { λ s. s.now };

    fn count(&self) -> usize {
        self.len()
    }

    fn word(&self, i: usize) -> u64 {
        self[i]
    }
}

// Without a branch at a word.
fn lacking<W: Words>(x: u64, words: &W, from: usize) -> bool
    requires { from ≤ length (W.words words.now) }
    ensures { result ≡ not (has x (drop from (W.words words.now))) }
{
    let mut ok = true;
    for i in from..words.count() {
        ok = ok & (words.word(i) != x);
    }
    ok
}

// Marks that serve list after list, each with a stamp of its own. A list's stamp may come again after 255 others: then more ids are
// compared, and the answer is the same.
#[derive(Drop)]
pub struct Marks {
    marks: [u8; MARKS],
    stamp: u8,
}

impl Marks {
    // Any marks serve, and any stamp.
    pub fn of(marks: [u8; MARKS], stamp: u8) -> Marks
        ensures { Holding marks stamp result }
    {
        Marks { marks, stamp }
    }

    pub fn new() -> Marks
        ensures { Unset result }
    {
        Marks {
            marks: [0; MARKS],
            stamp: 0,
        }
    }

    // An id's mark is at its last nine bits: each id is held against those after it only where one of them has set the mark to this
    // list's stamp. What the marks held before is never wrong.
    pub fn differ<W: Words>(&mut self, ids: &W) -> bool
        ensures { result ≡ distinct (W.words ids.now) }
    {
        let stamp = self.stamp.wrapping_add(1);
        self.stamp = stamp;
        for i in (0..ids.count()).rev() {
            let x = ids.word(i);
            let mark = (x % 512) as usize;
            if self.marks[mark] == stamp && !lacking(x, ids, i + 1) {
                return false;
            }
            self.marks[mark] = stamp;
        }
        true
    }
}

// A count within cap, ids that differ, and zeros after them.
pub fn ids_ok(marks: &mut Marks, cap: usize, t: &[u64]) -> bool
    requires { length t.now ≡ 1 + cap }
    ensures { result ≡ ids_ok cap t.now }
{
    let n = t[0] as usize;
    if cap < n {
        return false;
    }
    let (ids, rest) = t[1..].split_at(n);
    marks.differ(&ids) & all_zero(rest)
}
