// The recorded file: words one after another; past its end, and past a read that fails, each is 0.
ghost use Rattle.std.specs.Prelude.{◌≤◌, length};

use rooms::read_full;
use std::io::Read;

pub(crate) fn word(file: &mut impl Read) -> u64 {
    let mut b = [0u8; 8];
    read_full(file, &mut b);
    bytes_words::word_at(&b, 0)
}

// Fills the room with words.
pub(crate) fn fill(file: &mut impl Read, room: &mut [u64]) {
    for place in room.iter_mut() {
        *place = word(file);
    }
}

// So many bytes, and no more than there is room for.
pub(crate) fn bytes<'a>(file: &mut impl Read, n: u64, room: &'a mut [u8]) -> &'a [u8]
    ensures { length result.now ≤ length room.old }
{
    let k = room.len().min(n as usize);
    read_full(file, &mut room[..k]);
    &room[..k]
}
