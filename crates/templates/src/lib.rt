// A text with places for numbers, laid in a line.
#![tactic(auto)]

ghost use Rattle.std.specs.Prelude.{◌≡◌, ◌+◌, ◌≤◌, length, drop, get_or};
ghost use Rattle.lines.specs.Says.{Puts};
ghost use Rattle.templates.specs.Filled.{filled};
ghost use Rattle.templates.specs.Lines.{first_line, line_of};

use lines::{put_number, put_text};

// 0 where they have run out.
pub fn number_at(numbers: &[u64], k: usize) -> u64
    ensures { result ≡ get_or numbers.now k 0 }
{
    numbers.get(k).copied().unwrap_or(0)
}

// Each run of '#' is the next number, right-aligned in a column as wide as the run; '~' passes a number over.
pub fn fill(line: &mut [u8], at: usize, template: &[u8], numbers: &[u64]) -> usize
    ensures { Puts line.old at (filled template.now numbers.now) line.new result }
{
    let mut a = at;
    let mut k: usize = 0;
    let mut w: usize = 0;
    let mut i: usize = 0;
    // Kept: a turn that ends a run goes over no byte, which a loop over the bytes would have to do twice.
    while i < template.len() {
        let b = template[i];
        if b == b'#' {
            w += 1;
            i += 1;
        } else if 0 < w {
            a = put_number(line, a, w, number_at(numbers, k));
            k += 1;
            w = 0;
        } else if b == b'~' {
            k += 1;
            i += 1;
        } else {
            a = put_text(line, a, &[b]);
            i += 1;
        }
    }
    if w == 0 {
        return a;
    }
    put_number(line, a, w, number_at(numbers, k))
}

fn line_end(text: &[u8], at: usize) -> usize
    requires { at ≤ length text.now }
    ensures { (result ≤ length text.now) × (result ≡ at + length (first_line (drop at text.now))) }
{
    for e in at..text.len() {
        if text[e] == b'\n' {
            return e;
        }
    }
    text.len()
}

// Line k of a text, from 0 on; nothing past its last.
pub fn line_at(text: &[u8], k: usize) -> &[u8]
    ensures { result.now ≡ line_of k text.now }
{
    let mut s: usize = 0;
    for _passed in 0..k {
        let e = line_end(text, s);
        if e == text.len() {
            return &[];
        }
        s = e + 1;
    }
    let e = line_end(text, s);
    &text[s..e]
}
