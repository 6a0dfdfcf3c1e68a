// Lists of ids told by a snapshot's bytes, without a copy of them.
#![tactic(auto)]

ghost use Rattle.std.specs.Prelude.{◌≡◌, List, ℕ, ◌+◌, ◌*◌, ◌/◌, ◌≤◌, length, drop};
ghost use Rattle.rules.specs.Snapshot.{read_words};
ghost use Rattle.unpacking.specs.AsWords.{AsWords};
ghost use Rattle.id_lists.specs.Told.{TellsIdList};

use bytes_words::word_at;
use word_tests::{Marks, Words};

// The words that stand at a place of bytes, so many words in.
#[derive(Drop)]
struct WordsAt<'a> {
    bytes: &'a [u8],
    at: usize,
    count: usize,
    ghost there: { at + count ≤ length bytes.now / 8 },
}

impl<'a> Words for WordsAt<'a> {
    ghost words = { λ s. read_words s.count (drop (8 * s.at) s.bytes.now) };

    fn count(&self) -> usize {
        self.count
    }

    fn word(&self, i: usize) -> u64 {
        word_at(self.bytes, 8 * (self.at + i))
    }
}

// Where the count at a place and that many distinct ids end, if it is within cap. By marks that serve many lists.
pub fn id_list_end(cap: usize, marks: &mut Marks, bytes: &[u8], at: usize) -> Option<usize>
    ensures { (ws : List ℕ) → AsWords bytes.now ws → TellsIdList cap ws at result }
{
    let total = bytes.len() / 8;
    if total <= at {
        return None;
    }
    let n = word_at(bytes, 8 * at) as usize;
    if cap < n {
        return None;
    }
    let first = at + 1;
    if total - first < n {
        return None;
    }
    let ids = WordsAt {
        bytes,
        at: first,
        count: n,
    };
    if !marks.differ(&ids) {
        return None;
    }
    Some(first + n)
}
