// Bytes at the start of a room of fixed size, where there is no heap: a word of the clerk's, a file, a snapshot.
#![tactic(auto)]

ghost use Rattle.std.specs.Prelude.{◌≡◌, ◌==◌, ◌≤◌, length, min, take};
ghost use Rattle.std.specs.Io.KnownBytes.{Consumes};

use std::env::Env;
use std::io::Read;

#[derive(Clone, Copy)]
pub struct Bytes<const N: usize> {
    room: [u8; N],
    length: usize,
    ghost within: { length ≤ N },
}

impl<const N: usize> Bytes<N> {
    // So many bytes of the room, and no more than it has.
    pub fn of(room: [u8; N], length: usize) -> Self
        ensures room { result.room ≡ room.entry }
        ensures length { result.length ≡ min length N }
    {
        Bytes {
            room,
            length: length.min(N),
        }
    }

    pub fn as_slice(&self) -> &[u8]
        ensures { result.now ≡ take self.now.length self.now.room }
    {
        &self.room[..self.length]
    }

    pub fn is_full(&self) -> bool
        ensures { result ≡ (self.now.length == N) }
    {
        self.length == N
    }

    pub fn none() -> Self
        ensures { result.length ≡ 0 }
    {
        Bytes {
            room: [0; N],
            length: 0,
        }
    }

    // Reads anew, in place, until the room is full, the file ends or a read fails.
    pub fn read<R: Read>(&mut self, file: &mut R)
        ensures { Consumes (R.remaining file.old) (R.remaining file.new) (take self.new.length self.new.room) }
    {
        self.length = read_full(file, &mut self.room);
    }

    // The word at i that the program was started with; no bytes where it is missing, or longer than the room.
    pub fn word(rt: &impl Env, i: usize) -> Self
        ensures { result.length ≤ N }
    {
        let mut room = [0; N];
        let length = rt.arg(i, &mut room).unwrap_or(0);
        Bytes::of(room, length)
    }
}

// Reads until the room is full, the file ends or a read fails: how many bytes stand at the start of the room.
pub fn read_full<R: Read>(file: &mut R, room: &mut [u8]) -> usize
    ensures within { result ≤ length room.new }
    ensures bytes { Consumes (R.remaining file.old) (R.remaining file.new) (take result room.new) }
{
    let mut done = 0;
    for _ in 0..room.len() {
        if room.len() <= done {
            break;
        }
        match file.read(&mut room[done..]) {
            Ok(0) | Err(_) => break,
            Ok(n) => done += n,
        }
    }
    done
}
