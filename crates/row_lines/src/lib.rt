// The rows of a roster's tables, in words.
#![tactic(auto)]

ghost use Rattle.lines.specs.Says.{Puts};
ghost use Rattle.row_lines.specs.Rows.{member_row_text, rotation_text, seat_text, boundary_text, ends_text, reshape_text, quiet_text, progress_text};

use lines::{put_number, put_text};
use phrases::{put_column, put_either, put_epoch_or, put_member, put_named, put_place};
use reshapes::seats::Seat;
use shards::rotations::Rotation;
use types::{BlockHeight, Epoch, Machine, ShardId};

// A member of a shard's committee, and where it is.
pub fn put_member_row(
    line: &mut [u8],
    at: usize,
    shard: ShardId,
    member: Machine,
    wait: u64,
) -> usize
    ensures { Puts line.old at (member_row_text shard.0 member.id.0 member.place wait) line.new result }
{
    let a = put_number(line, at, 22, member.id.0);
    let b = put_text(line, a, b"  ");
    if member.place.is_seated_on(shard) | member.place.observes_shard(shard) {
        return put_member(line, b, member.place, wait);
    }
    let c = put_text(line, b, b"not here: ");
    put_place(line, c, member.place)
}

pub fn put_rotation(line: &mut [u8], at: usize, rotation: Rotation) -> usize
    ensures { Puts line.old at (rotation_text rotation.shard.0 rotation.victim.0 rotation.entrant.0 rotation.opened.0) line.new result }
{
    let a = put_column(line, at, b"  shard ", 5, rotation.shard.0);
    let b = put_column(line, a, b"  victim ", 20, rotation.victim.0);
    let c = put_column(line, b, b"  entrant ", 20, rotation.entrant.0);
    put_column(line, c, b"  opened ", 10, rotation.opened.0)
}

pub fn put_seat(line: &mut [u8], at: usize, seat: Seat) -> usize
    ensures { Puts line.old at (seat_text seat.id.0 seat.child.0 seat.ready) line.new result }
{
    let a = put_number(line, at, 14, seat.id.0);
    let b = put_column(line, a, b"  seat on ", 5, seat.child.0);
    put_either(line, b, seat.ready, b"  ready", b"  waiting")
}

// A boundary of a shard, with the epochs that it may lack.
#[derive(Clone, Copy)]
pub struct Boundary {
    pub shard: ShardId,
    pub height: BlockHeight,
    pub formed: Epoch,
    pub live: Epoch,
    pub terminal: Option<Epoch>,
    pub admitted: Option<Epoch>,
}

pub fn put_boundary(line: &mut [u8], at: usize, boundary: Boundary) -> usize
    ensures { Puts line.old at (boundary_text boundary.shard.0 boundary.height.0 boundary.formed.0 boundary.live.0) line.new result }
{
    let a = put_column(line, at, b"  shard ", 5, boundary.shard.0);
    let b = put_column(line, a, b" height ", 20, boundary.height.0);
    let c = put_column(line, b, b" formed ", 10, boundary.formed.0);
    put_column(line, c, b" live ", 10, boundary.live.0)
}

pub fn put_ends(line: &mut [u8], at: usize, boundary: Boundary) -> usize
    ensures { Puts line.old at (ends_text boundary.terminal boundary.admitted) line.new result }
{
    let a = put_epoch_or(
        line,
        at,
        b"              terminal ",
        10,
        boundary.terminal,
        b"              terminal          -",
    );
    put_epoch_or(
        line,
        a,
        b" admitted ",
        10,
        boundary.admitted,
        b" admitted          -",
    )
}

pub fn put_reshape(
    line: &mut [u8],
    at: usize,
    merge: bool,
    target: ShardId,
    admitted: Epoch,
) -> usize
    ensures { Puts line.old at (reshape_text merge target.0 admitted.0) line.new result }
{
    let a = put_either(line, at, merge, b"merge to shard ", b"split of shard ");
    let b = put_number(line, a, 0, target.0);
    put_named(line, b, b", admitted at ", admitted.0)
}

// How far a reshape has come: until when it drains, which sides are quiet, when it is scheduled to end.
#[derive(Clone, Copy)]
pub struct Progress {
    pub merge: bool,
    pub drain_by: Option<Epoch>,
    pub left: bool,
    pub right: bool,
    pub terminal: Option<Epoch>,
}

fn put_quiet(line: &mut [u8], at: usize, merge: bool, left: bool, right: bool) -> usize
    ensures { Puts line.old at (quiet_text merge left right) line.new result }
{
    match (left, right) {
        (true, true) => put_text(line, at, b"; quiet"),
        (true, false) => put_either(
            line,
            at,
            merge,
            b"; quiet on side 0, not yet on 1",
            b"; quiet",
        ),
        (false, true) => put_text(line, at, b"; quiet on side 1, not yet on 0"),
        (false, false) => put_text(line, at, b"; not quiet yet"),
    }
}

pub fn put_progress(line: &mut [u8], at: usize, p: Progress) -> usize
    ensures { Puts line.old at (progress_text p) line.new result }
{
    let a = put_epoch_or(
        line,
        at,
        b"drains by ",
        0,
        p.drain_by,
        b"no drain stamp yet",
    );
    let b = put_quiet(line, a, p.merge, p.left, p.right);
    put_epoch_or(
        line,
        b,
        b"; terminal ",
        0,
        p.terminal,
        b"; not scheduled yet",
    )
}
