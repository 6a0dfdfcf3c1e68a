// Words as bytes, eight each, the least first: read at a place, and laid from a place on.
#![tactic(auto)]

ghost use Rattle.std.specs.Prelude.{◌≡◌, [], ◌∷◌, ◌+◌, ◌*◌, ◌≤◌, length, take, drop};
ghost use Rattle.rules.specs.Snapshot.{value_of_bytes, read_words};
ghost use Rattle.bytes_words.specs.Laid.{laid};

pub fn word_at(bytes: &[u8], at: usize) -> u64
    requires { at + 8 ≤ length bytes.now }
    ensures { result ≡ value_of_bytes (take 8 (drop at bytes.now)) }
{
    let eight: [u8; 8] = bytes[at..at + 8].try_into().unwrap();
    u64::from_le_bytes(eight)
}

pub fn put_word(out: &mut [u8], at: usize, w: u64)
    requires { at + 8 ≤ length out.old }
    ensures { out.new ≡ laid (w ∷ []) at out.old }
{
    out[at..at + 8].copy_from_slice(&w.to_le_bytes());
}

// Where the next byte goes.
pub fn put_words(ws: &[u64], out: &mut [u8], at: usize) -> usize
    requires { at + length ws.now * 8 ≤ length out.old }
    ensures { (result ≡ at + length ws.now * 8) × (out.new ≡ laid ws.now at out.old) }
{
    for (i, w) in ws.iter().enumerate() {
        put_word(out, at + 8 * i, *w);
    }
    at + 8 * ws.len()
}

// Every word of `out`, and where the next byte stands.
pub fn get_words(bytes: &[u8], at: usize, out: &mut [u64]) -> usize
    requires { at + length out.old * 8 ≤ length bytes.now }
    ensures { (result ≡ at + length out.old * 8) × (out.new ≡ read_words (length out.old) (drop at bytes.now)) }
{
    for (i, w) in out.iter_mut().enumerate() {
        *w = word_at(bytes, at + 8 * i);
    }
    at + 8 * out.len()
}
