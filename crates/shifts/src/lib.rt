// Words of a lent slice moved up or down, and cleared.
#![tactic(auto)]

ghost use Rattle.std.specs.Prelude.{◌≡◌, List, ◌++◌, ℕ, ◌+◌, ◌≤◌, length, take, replicate};
ghost use Rattle.shifts.specs.Moved.{moved_up, moved_down, moved_to};

// ---- Eight words at a time, all read before one is written: faster than word by word (docs/SPEED.md), and the library copies no words
// within a slice. Each word by itself, which becomes moves of many words: with `copy_from_slice` they go through the stack, and moving
// rows takes more than twice as long.

fn eight(t: &[u64]) -> [u64; 8]
    requires { 8 ≤ length t.now }
    ensures { result ≡ take 8 t.now }
{
    [t[0], t[1], t[2], t[3], t[4], t[5], t[6], t[7]]
}

fn put_eight(t: &mut [u64], words: [u64; 8])
    requires { length t.old ≡ 8 }
    ensures { t.new ≡ words }
{
    t[0] = words[0];
    t[1] = words[1];
    t[2] = words[2];
    t[3] = words[3];
    t[4] = words[4];
    t[5] = words[5];
    t[6] = words[6];
    t[7] = words[7];
}

// The words at `from` go to `to`, whether or not the two places overlap.
fn move_eight(t: &mut [u64], from: usize, to: usize)
    requires { (from + 8 ≤ length t.old) × (to + 8 ≤ length t.old) }
    ensures { t.new ≡ moved_to t.old from to 8 }
{
    let words = eight(&t[from..]);
    put_eight(&mut t[to..to + 8], words);
}

// As many eights as there are, the last one first: the place of the last word that is still to move. A `while`, since it goes by eights and
// tells where it stops.
fn shift_up_eights(t: &mut [u64], from: usize, to: usize, by: usize) -> usize
    requires { (from ≤ to) × (to + by ≤ length t.old) }
    ensures { (from ≤ result) × (result ≤ to) × (t.new ≡ moved_up t.old result to by) }
{
    let mut k = to;
    while from + 8 <= k {
        k -= 8;
        move_eight(t, k, k + by);
    }
    k
}

// As many eights as there are, the first one first: the place of the first word that is still to move.
fn shift_down_eights(t: &mut [u64], from: usize, to: usize, by: usize) -> usize
    requires { (by ≤ from) × (from ≤ to) × (to ≤ length t.old) }
    ensures { (from ≤ result) × (result ≤ to) × (t.new ≡ moved_down t.old from result by) }
{
    let mut k = from;
    while k + 8 <= to {
        move_eight(t, k, k - by);
        k += 8;
    }
    k
}

// ---- A part moved, and cleared

// The words from `from` to `to` move up by `by`, the last one first.
fn shift_up(t: &mut [u64], from: usize, to: usize, by: usize)
    requires { (from ≤ to) × (to + by ≤ length t.old) }
    ensures { t.new ≡ moved_up t.old from to by }
{
    for k in (from..shift_up_eights(t, from, to, by)).rev() {
        t[k + by] = t[k];
    }
}

// The words from `from` to `to` move down by `by`, the first one first.
pub fn shift_down(t: &mut [u64], from: usize, to: usize, by: usize)
    requires { (by ≤ from) × (from ≤ to) × (to ≤ length t.old) }
    ensures { t.new ≡ moved_down t.old from to by }
{
    for k in shift_down_eights(t, from, to, by)..to {
        t[k - by] = t[k];
    }
}

pub fn clear(t: &mut [u64])
    ensures { t.new ≡ replicate (length t.old) 0 }
{
    t.fill(0);
}

// A gap of `by` zeros at `from`: the words from there to `to` are after it.
pub fn open_gap(t: &mut [u64], from: usize, to: usize, by: usize)
    requires { (from ≤ to) × (to + by ≤ length t.old) }
    ensures { (P R G Z : List ℕ) → t.old ≡ P ++ (R ++ (G ++ Z)) → length P ≡ from → from + length R ≡ to → length G ≡ by →
        t.new ≡ P ++ (replicate by 0 ++ (R ++ Z)) }
{
    shift_up(t, from, to, by);
    let e = from + by;
    clear(&mut t[from..e]);
}

// The `by` words at `from` are taken out: those from there to `to` follow, and then `by` zeros.
pub fn close_gap(t: &mut [u64], from: usize, to: usize, by: usize)
    requires { (from + by ≤ to) × (to ≤ length t.old) }
    ensures { (P F R Z : List ℕ) → t.old ≡ P ++ (F ++ (R ++ Z)) → length P ≡ from → length F ≡ by → from + by + length R ≡ to →
        t.new ≡ P ++ (R ++ (replicate by 0 ++ Z)) }
{
    shift_down(t, from + by, to, by);
    let a = to - by;
    clear(&mut t[a..to]);
}
