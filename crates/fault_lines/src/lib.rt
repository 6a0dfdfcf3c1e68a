// What breaks a clause of the seat check, in words.
#![tactic(auto)]

ghost use Rattle.lines.specs.Says.{Puts};
ghost use Rattle.fault_lines.specs.Faults.{machine_wrong, machine_fault_text, rotation_fault_text, rotation_wrong, reshape_wrong, reshape_fault_text};

use lines::put_text;
use phrases::put_named;
use shards::rotations::Rotation;
use types::{ShardId, ValidatorId};

// A member that is not there, a machine that no committee or seat lists, a seat whose machine does not watch, a machine in
// no half of a scheduled split or in both. The shard is the committee's or the split's.
#[derive(Clone, Copy)]
pub enum MachineFault {
    StrayMember(ShardId),
    Unlisted,
    AbsentSeat(ShardId),
    Unhalved(ShardId),
}

// Parties that do not sit there, a party shared with another one, a scheduled split there.
#[derive(Clone, Copy)]
pub enum RotationFault {
    Unseated,
    SharedParty,
    SplitThere,
}

// A family that overlaps that of the reshape with this target, a reshape without what its admission asks for.
#[derive(Clone, Copy)]
pub enum ReshapeFault {
    Overlapping(ShardId),
    Unfounded,
}

fn put_machine_wrong(line: &mut [u8], at: usize, fault: MachineFault) -> usize
    ensures { Puts line.old at (machine_wrong fault) line.new result }
{
    match fault {
        MachineFault::StrayMember(shard) => {
            let a = put_named(line, at, b" is in the committee of shard ", shard.0);
            put_text(line, a, b", and not there")
        }
        MachineFault::Unlisted => put_text(
            line,
            at,
            b" is in no committee of its shard, or watches without a seat",
        ),
        MachineFault::AbsentSeat(shard) => {
            let a = put_named(line, at, b" has a seat in the split of shard ", shard.0);
            put_text(line, a, b", and does not watch it")
        }
        MachineFault::Unhalved(shard) => put_named(
            line,
            at,
            b" is not in exactly one half of the split of shard ",
            shard.0,
        ),
    }
}

pub fn put_machine_fault(line: &mut [u8], at: usize, fault: MachineFault, id: ValidatorId) -> usize
    ensures { Puts line.old at (machine_fault_text fault id.0) line.new result }
{
    let a = put_named(line, at, b"  machine ", id.0);
    put_machine_wrong(line, a, fault)
}

pub fn put_rotation_fault(line: &mut [u8], at: usize, rotation: Rotation) -> usize
    ensures { Puts line.old at (rotation_fault_text rotation.shard.0 rotation.victim.0 rotation.entrant.0) line.new result }
{
    let a = put_named(line, at, b"  shard ", rotation.shard.0);
    let b = put_named(line, a, b": rotation of ", rotation.victim.0);
    put_named(line, b, b" and ", rotation.entrant.0)
}

pub fn put_rotation_wrong(line: &mut [u8], at: usize, fault: RotationFault) -> usize
    ensures { Puts line.old at (rotation_wrong fault) line.new result }
{
    match fault {
        RotationFault::Unseated => put_text(
            line,
            at,
            b"    they are not two machines seated there",
        ),
        RotationFault::SharedParty => put_text(
            line,
            at,
            b"    it shares a machine with another rotation there",
        ),
        RotationFault::SplitThere => put_text(line, at, b"    a scheduled split stands there"),
    }
}

fn put_reshape_wrong(line: &mut [u8], at: usize, fault: ReshapeFault) -> usize
    ensures { Puts line.old at (reshape_wrong fault) line.new result }
{
    match fault {
        ReshapeFault::Overlapping(other) => put_named(
            line,
            at,
            b": its family overlaps that of the reshape at shard ",
            other.0,
        ),
        ReshapeFault::Unfounded => put_text(
            line,
            at,
            b": a committee, a gap or a boundary of its admission is missing",
        ),
    }
}

pub fn put_reshape_fault(line: &mut [u8], at: usize, fault: ReshapeFault, target: ShardId) -> usize
    ensures { Puts line.old at (reshape_fault_text fault target.0) line.new result }
{
    let a = put_named(line, at, b"  reshape at shard ", target.0);
    put_reshape_wrong(line, a, fault)
}
