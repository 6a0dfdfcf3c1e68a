// Snapshots in files.
use crate::args;
use crate::failure::{Failure, Mistake};
use applying::MOST_BYTES;
use rooms::Bytes;
use std::env::Env;
use std::fs::{File, Files, OpenFile};
use std::io::{ErrorKind, Write};
use std::{fs, io};

pub const WORDS: usize = 5861;

// Room for a file's bytes.
pub(crate) const MOST_READ: usize = 65536;

// A path's text; where it is none, std reaches no file by it.
fn path_text(path: &[u8]) -> io::Result<&str> {
    str::from_utf8(path).map_err(|_| io::Error::from(ErrorKind::InvalidFilename))
}

fn opened<R: Files>(rt: &R, path: &[u8]) -> io::Result<R::File> {
    File::open(rt, path_text(path)?)
}

// The bytes of the file that the word at i names, as far as there is room; in lent room, since a copy of so much is slow.
pub(crate) fn read<R: Env + Files>(
    rt: &R,
    i: usize,
    room: &mut Bytes<MOST_READ>,
) -> Result<(), Failure> {
    let what = match opened(rt, args::word(rt, i).as_slice()) {
        Ok(mut file) => {
            room.read(&mut file);
            return Ok(());
        }
        Err(e) if e.kind() == ErrorKind::NotFound => Mistake::NoSuchFile,
        Err(_) => Mistake::NotRead,
    };
    Err(Failure::Mistake(what, Some(i)))
}

// The board in the file that the word at i names, which is read into lent room.
pub(crate) fn read_board(
    rt: &(impl Env + Files),
    i: usize,
    file: &mut Bytes<MOST_READ>,
    board: &mut [u64; WORDS],
) -> Result<(), Failure> {
    if args::is_missing(rt, i) {
        return Err(Failure::Mistake(Mistake::FileMissing, None));
    }
    read(rt, i, file)?;
    let bytes = file.as_slice();
    if roster::roster_read(bytes, board) == 0 {
        return Ok(());
    }
    if MOST_BYTES < bytes.len() {
        return Err(Failure::Mistake(Mistake::TooLong, Some(i)));
    }
    let stop = Mistake::NoSnapshot(stops::stopped_at(bytes));
    Err(Failure::Mistake(stop, Some(i)))
}

fn made<R: Files>(rt: &R, path: &[u8]) -> io::Result<R::File> {
    File::create_new(rt, path_text(path)?)
}

fn removed(rt: &impl Files, path: &[u8]) -> io::Result<()> {
    fs::remove_file(rt, path_text(path)?)
}

fn renamed(rt: &impl Files, from: &[u8], to: &[u8]) -> io::Result<()> {
    fs::rename(rt, path_text(from)?, path_text(to)?)
}

// Whether the bytes are in the file, and kept.
fn put_in(file: &mut (impl Write + OpenFile), bytes: &[u8]) -> bool {
    let is_written = file.write_all(bytes).is_ok();
    let is_kept = file.sync_all().is_ok();
    is_written && is_kept
}

// The bytes in a new file, which is closed before it is put anywhere.
fn put_new(rt: &impl Files, new: &[u8], bytes: &[u8]) -> Result<(), Mistake> {
    let Ok(mut file) = made(rt, new) else {
        return Err(Mistake::NotMade);
    };
    if put_in(&mut file, bytes) {
        return Ok(());
    }
    let _ = removed(rt, new);
    Err(Mistake::NotWritten)
}

// To a new file first, and then by rename, so that a cut run never leaves half a file.
fn put_at(rt: &impl Files, path: &[u8], new: &[u8], bytes: &[u8]) -> Result<(), Mistake> {
    put_new(rt, new, bytes)?;
    if renamed(rt, new, path).is_err() {
        let _ = removed(rt, new);
        return Err(Mistake::NotPut);
    }
    Ok(())
}

// The snapshot, in the file that the word at i names.
pub(crate) fn write_board(
    rt: &(impl Env + Files),
    i: usize,
    board: &[u64; WORDS],
) -> Result<(), Failure> {
    let mut room = [0; MOST_READ];
    let mut length: u64 = 0;
    roster::roster_write(board, &mut room, &mut length);
    let bytes = &room[..MOST_READ.min(length as usize)];
    let path = args::word(rt, i);
    let new = args::new_beside(path.as_slice());
    put_at(rt, path.as_slice(), new.as_slice(), bytes).map_err(|what| Failure::Mistake(
        what,
        Some(i),
    ))
}
