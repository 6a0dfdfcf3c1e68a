// The table of machines, by rising id.
ghost use Rattle.std.specs.Prelude.{◌≡◌, ◌<◌, length, get_or, set};
ghost use Rattle.rules.specs.Table.{Entry};
ghost use Rattle.rules.specs.Board.{Board, on_machines, machine_of, most_machines};
ghost use Rattle.rules.specs.Snapshot.{place_of, machine_words};
ghost use Rattle.board.specs.Layout.{board_size, machine_width};
ghost use Rattle.board.specs.Held.{Holds, no_machine};
ghost use Rattle.board.specs.Leaves.{machine_entry};

use super::layout::{MACHINE_WIDTH, MACHINES_AT};
use types::{Epoch, Machine, Place, ShardId, ValidatorId};

// ---- a machine's row

#[tactic(auto, unfolding(rules::specs::Snapshot::place_of))]
fn place(code: u64, mark: u64, ready: u64, stamp: u64) -> Place
    ensures { result ≡ place_of code mark ready stamp }
{
    match code {
        0 => Place::Pooled,
        1 => Place::Seated {
            shard: ShardId(mark),
            ready: ready == 1,
            placed_at_epoch: Epoch(stamp),
        },
        2 => Place::Observing {
            shard: ShardId(mark),
            placed_at_epoch: Epoch(stamp),
        },
        3 => Place::Short,
        _ => Place::Other(mark),
    }
}

fn load(t: &[u64]) -> Machine
    requires { length t.now ≡ machine_width }
    ensures { (e : Entry Place) → t.now ≡ machine_words e → result ≡ machine_of e }
{
    Machine {
        id: ValidatorId(t[0]),
        place: place(t[1], t[2], t[3], t[4]),
    }
}

// The row of a machine: its id, and its place as four words.
#[tactic(auto, using(crate::proofs::Bits::bit_is), unfolding(rules::specs::Snapshot::machine_words, rules::specs::Snapshot::place_words))]
fn row(m: Machine) -> [u64; MACHINE_WIDTH]
    ensures { result ≡ machine_words (machine_entry m) }
{
    let id = m.id.0;
    match m.place {
        Place::Pooled => [id, 0, 0, 0, 0],
        Place::Seated {
            shard,
            ready,
            placed_at_epoch,
        } => [id, 1, shard.0, u64::from(ready), placed_at_epoch.0],
        Place::Observing {
            shard,
            placed_at_epoch,
        } => [id, 2, shard.0, 0, placed_at_epoch.0],
        Place::Short => [id, 3, 0, 0, 0],
        Place::Other(mark) => [id, 4, mark, 0, 0],
    }
}

// ---- the table

pub fn count(ws: &[u64]) -> usize
    requires { length ws.now ≡ board_size }
    ensures { (b : Board) → Holds ws.now b → result ≡ length b.machines }
{
    ws[MACHINES_AT] as usize
}

pub fn at(ws: &[u64], i: usize) -> Machine
    requires { (length ws.now ≡ board_size) × (i < most_machines) }
    ensures { (b : Board) → Holds ws.now b → i < length b.machines → result ≡ machine_of (get_or b.machines i no_machine) }
{
    let a = MACHINES_AT + 1 + i * MACHINE_WIDTH;
    let e = a + MACHINE_WIDTH;
    load(&ws[a..e])
}

pub fn put(ws: &mut [u64], i: usize, m: Machine)
    requires { (length ws.old ≡ board_size) × (i < most_machines) }
    ensures { (b : Board) → Holds ws.old b → i < length b.machines → Holds ws.new (on_machines (λ t. set t i (machine_entry m)) b) }
{
    let a = MACHINES_AT + 1 + i * MACHINE_WIDTH;
    let e = a + MACHINE_WIDTH;
    ws[a..e].copy_from_slice(&row(m));
}
