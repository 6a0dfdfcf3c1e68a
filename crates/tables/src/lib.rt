// Tables in lent words: a count, rows of any width, and zeros to the end of the room.
#![tactic(auto)]

ghost use Rattle.std.specs.Prelude.{◌≡◌, List, [], ◌∷◌, ◌++◌, ℕ, ◌+◌, ◌*◌, ◌-◌, ◌<◌, ◌≤◌, not, eqb, length, get_or, take, replicate, IfSome};
ghost use Rattle.rules.specs.Lists.{bit_of, has, strike};
ghost use Rattle.tables.specs.Rows.{table, id_table, insert_at, remove_at, Rising, place_of, find_row, without, Row, words_in, key_in};
ghost use Rattle.shifts.specs.Moved.{moved_down};

// ---- Rows of w words, with room for cap of them

// A row of zeros more, at j: past the last one it stands already.
pub fn open_row(t: &mut [u64], w: usize, cap: usize, j: usize)
    requires { (length t.old ≡ 1 + cap * w) × (cap < 4096) × (w < 4096) }
    ensures { (rs : List (Row w)) (z : Row w) → t.old ≡ table words_in w cap rs → length rs < cap → j ≤ length rs → z.words ≡ replicate w 0 →
        t.new ≡ table words_in w cap (insert_at rs j z) }
{
    let n = t[0] as usize;
    if cap <= n {
        return;
    }
    if n < j {
        return;
    }
    if j == n {
        t[0] = (n + 1) as u64;
        return;
    }
    let a = 1 + j * w;
    let e = 1 + n * w;
    shifts::open_gap(t, a, e, w);
    t[0] = (n + 1) as u64;
}

// The row at j is taken out, and the last row's room is zeroed.
pub fn remove_row(t: &mut [u64], w: usize, cap: usize, j: usize)
    requires { (length t.old ≡ 1 + cap * w) × (cap < 4096) × (w < 4096) }
    ensures { (rs : List (Row w)) → t.old ≡ table words_in w cap rs → length rs ≤ cap → j < length rs →
        t.new ≡ table words_in w cap (remove_at rs j) }
{
    let n = t[0] as usize;
    if cap < n {
        return;
    }
    if n <= j {
        return;
    }
    let a = 1 + j * w;
    let e = 1 + n * w;
    shifts::close_gap(t, a, e, w);
    t[0] = (n - 1) as u64;
}

// How many rows the count names, and no more than there is room for.
fn rows_within(t: &[u64], cap: usize) -> usize
    requires { 0 < length t.now }
    ensures { (result ≤ cap) × (get_or t.now 0 0 ≤ cap → result ≡ get_or t.now 0 0) }
{
    (t[0] as usize).min(cap)
}

// Where the key k stands, or goes, by halves.
pub fn place_of(t: &[u64], w: usize, cap: usize, k: u64) -> usize
    requires { (length t.now ≡ 1 + cap * w) × (cap < 4096) × (0 < w) × (w < 4096) }
    ensures { (result ≤ cap) × ((rs : List (Row w)) → t.now ≡ table words_in w cap rs → length rs ≤ cap → Rising key_in rs →
        result ≡ place_of key_in k rs) }
{
    let mut lo: usize = 0;
    let mut hi = rows_within(t, cap);
    while lo < hi {
        let mid = lo + (hi - lo) / 2;
        if t[1 + mid * w] < k {
            lo = mid + 1;
        } else {
            hi = mid;
        }
    }
    lo
}

// The row of the key k, by halves of the n rows from lo on.
// By hand: the library searches the elements of a slice, and these rows are several words wide.
pub fn find_row(t: &[u64], w: usize, cap: usize, k: u64) -> Option<usize>
    requires { (length t.now ≡ 1 + cap * w) × (cap < 4096) × (0 < w) × (w < 4096) }
    ensures room { IfSome result (λ i. i < cap) }
    ensures found { (rs : List (Row w)) → t.now ≡ table words_in w cap rs → length rs ≤ cap → Rising key_in rs → result ≡ find_row key_in k rs }
{
    let mut lo: usize = 0;
    let mut n = rows_within(t, cap);
    while 0 < n {
        let half = n / 2;
        let mid = lo + half;
        let there = t[1 + mid * w];
        if there == k {
            return Some(mid);
        }
        if there < k {
            lo = mid + 1;
            n -= half + 1;
        } else {
            n = half;
        }
    }
    None
}

// The same one row after another: of a few rows the compiler knows each one's place, and no look waits for the count.
pub fn find_among_few(t: &[u64], w: usize, cap: usize, k: u64) -> Option<usize>
    requires { (length t.now ≡ 1 + cap * w) × (cap < 4096) × (0 < w) × (w < 4096) }
    ensures room { IfSome result (λ i. i < cap) }
    ensures found { (rs : List (Row w)) → t.now ≡ table words_in w cap rs → length rs ≤ cap → Rising key_in rs → result ≡ find_row key_in k rs }
{
    let n = rows_within(t, cap);
    for i in 0..n {
        if t[1 + i * w] == k {
            return Some(i);
        }
    }
    None
}

// Row i goes to place k, unless its key is x: the next place.
fn keep_row(t: &mut [u64], w: usize, k: usize, i: usize, x: u64) -> usize
    requires { (k ≤ i) × (1 + i * w + w ≤ length t.old) × (0 < w) × (i < 4096) × (w < 4096) }
    ensures { (result ≤ k + 1) × (result ≡ k + bit_of (not (eqb (get_or t.old (1 + i * w) 0) x))) × (t.new ≡ moved_down t.old (1 + i * w) (1 + i * w + w) ((i - k) * w)) }
{
    let a = 1 + i * w;
    let e = a + w;
    let key = t[a];
    shifts::shift_down(t, a, e, (i - k) * w);
    if key == x {
        return k;
    }
    k + 1
}

// The rows of the key x are taken out, and the room that they leave is zeroed.
pub fn drop_rows(t: &mut [u64], w: usize, cap: usize, x: u64)
    requires { (length t.old ≡ 1 + cap * w) × (cap < 4096) × (0 < w) × (w < 4096) }
    ensures { (rs : List (Row w)) → t.old ≡ table words_in w cap rs → length rs ≤ cap →
        t.new ≡ table words_in w cap (without key_in x rs) }
{
    let n = rows_within(t, cap);
    let mut k: usize = 0;
    for i in 0..n {
        k = keep_row(t, w, k, i, x);
    }
    let a = 1 + k * w;
    let e = 1 + n * w;
    shifts::clear(&mut t[a..e]);
    t[0] = k as u64;
}

// No row stays, and the room of those that stood is zeroed.
pub fn empty(t: &mut [u64], w: usize, cap: usize)
    requires { (length t.old ≡ 1 + cap * w) × (cap < 4096) × (w < 4096) }
    ensures { (rs : List (Row w)) → t.old ≡ table words_in w cap rs → length rs ≤ cap → t.new ≡ replicate (length t.old) 0 }
{
    let n = rows_within(t, cap);
    if n == 0 {
        return;
    }
    let e = 1 + n * w;
    shifts::clear(&mut t[0..e]);
}

// ---- Lists of ids: rows of one word

pub fn push(t: &mut [u64], cap: usize, x: u64)
    requires { (length t.old ≡ 1 + cap) × (cap < 4096) }
    ensures { (l : List ℕ) → t.old ≡ id_table cap l → length l < cap → t.new ≡ id_table cap (l ++ x ∷ []) }
{
    let n = t[0] as usize;
    if cap <= n {
        return;
    }
    t[1 + n] = x;
    t[0] = (n + 1) as u64;
}

// Every id is looked at, with no way out before the last: so several are compared at a time, which a slice's `contains` does not do.
pub fn contains(t: &[u64], cap: usize, x: u64) -> bool
    requires { (length t.now ≡ 1 + cap) × (cap < 4096) }
    ensures { (l : List ℕ) → t.now ≡ id_table cap l → length l ≤ cap → result ≡ has x l }
{
    let n = rows_within(t, cap);
    let mut found = false;
    for i in 0..n {
        found = found | (t[1 + i] == x);
    }
    found
}

// Only the first n ids stay, and the room of the others is zeroed.
pub fn cut(t: &mut [u64], cap: usize, n: usize)
    requires { (length t.old ≡ 1 + cap) × (cap < 4096) }
    ensures { (l : List ℕ) → t.old ≡ id_table cap l → length l ≤ cap → n ≤ length l → t.new ≡ id_table cap (take n l) }
{
    let all = t[0] as usize;
    if cap < all {
        return;
    }
    if all < n {
        return;
    }
    let a = 1 + n;
    let e = 1 + all;
    shifts::clear(&mut t[a..e]);
    t[0] = n as u64;
}

// An id is struck: those after it close ranks.
pub fn strike_id(t: &mut [u64], cap: usize, x: u64)
    requires { (length t.old ≡ 1 + cap) × (cap < 4096) }
    ensures { (l : List ℕ) → t.old ≡ id_table cap l → length l ≤ cap → t.new ≡ id_table cap (strike x l) }
{
    let n = rows_within(t, cap);
    let mut k: usize = 0;
    for i in 0..n {
        let y = t[1 + i];
        t[1 + k] = y;
        if y != x {
            k += 1;
        }
    }
    cut(t, cap, k);
}
