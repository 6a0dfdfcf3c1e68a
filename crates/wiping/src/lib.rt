// Room cleared where it isn't zeros already.
#![tactic(auto)]

ghost use Rattle.std.specs.Prelude.{◌≡◌, length, replicate};

use shifts::clear;
use word_tests::all_zero;

// How many words of a room are looked at together.
const PIECE: usize = 32;

fn wipe_piece(t: &mut [u64])
    ensures { t.new ≡ replicate (length t.old) 0 }
{
    if !all_zero(t) {
        clear(t);
    }
}

// Room past a count is cleared. Most of it is zeros already where a board was read before: these are read, which costs less than to
// write them. A `while`: once `chunks_mut` has lent its pieces, a proof knows nothing of the words.
pub fn wipe(t: &mut [u64])
    ensures { t.new ≡ replicate (length t.old) 0 }
{
    let mut a: usize = 0;
    while PIECE <= t.len() - a {
        let e = a + PIECE;
        wipe_piece(&mut t[a..e]);
        a = e;
    }
    clear(&mut t[a..]);
}
