// The moves off a shard, on lent words: a place, a member and a seat, by key.
#![tactic(auto)]

ghost use Rattle.std.specs.Prelude.{◌≡◌, true, ◌<◌, length, get_or};
ghost use Rattle.rules.specs.Board.{Board, most_reshapes};
ghost use Rattle.rules.specs.WellFormed.{well_formed};
ghost use Rattle.rules.specs.Moves as moves;
ghost use Rattle.rules.specs.Moves.{is_kind, take_off, give_up_seat};
ghost use Rattle.board.specs.Layout.{board_size};
ghost use Rattle.board.specs.Held.{Holds, no_reshape};
ghost use Rattle.reshapes.specs.Changes.{kind_of};
ghost use Rattle.moves.specs.Exits.{exit_of};

use board::{committees, machines};
use reshapes::{fields, seats};
use types::{Machine, Place, ShardId, ValidatorId};

// How a machine leaves a shard.
#[derive(Clone, Copy)]
pub enum Exit {
    Short,
    FromSeat(ShardId),
    FromWatch(ShardId),
    Anyhow,
}

impl Exit {
    fn place_after(self, place: Place) -> Place
        ensures { result ≡ exit_of self place }
    {
        match self {
            Exit::Short => place.short(),
            Exit::FromSeat(shard) => {
                if place.is_seated_on(shard) {
                    place.pooled()
                } else {
                    place
                }
            }
            Exit::FromWatch(shard) => {
                if place.observes_shard(shard) {
                    place.pooled()
                } else {
                    place
                }
            }
            Exit::Anyhow => place.pooled(),
        }
    }
}

// Its place changed, where it has a record.
pub fn place(board: &mut [u64], how: Exit, id: ValidatorId)
    requires { length board.old ≡ board_size }
    ensures { (b : Board) → Holds board.old b → well_formed b ≡ true → Holds board.new (moves.place id.0 (exit_of how) b) }
{
    let Some(i) = rows::find_machine(board, id) else {
        return;
    };
    let machine = machines::at(board, i);
    let place = how.place_after(machine.place);
    machines::put(board, i, Machine { id, place });
}

// Struck from the shard's committee.
pub fn quit(board: &mut [u64], shard: ShardId, id: ValidatorId)
    requires { length board.old ≡ board_size }
    ensures { (b : Board) → Holds board.old b → well_formed b ≡ true → Holds board.new (moves.quit shard.0 id.0 b) }
{
    let Some(j) = rows::find_committee(board, shard) else {
        return;
    };
    committees::strike_member(board, j, id);
}

// Off a shard: a new place, and no member.
pub fn take_off(board: &mut [u64], how: Exit, shard: ShardId, id: ValidatorId)
    requires { length board.old ≡ board_size }
    ensures { (b : Board) → Holds board.old b → well_formed b ≡ true → Holds board.new (take_off shard.0 (exit_of how) id.0 b) }
{
    place(board, how, id);
    quit(board, shard, id);
}

fn is_of_kind(board: &[u64], i: usize, merging: bool) -> bool
    requires { (length board.now ≡ board_size) × (i < most_reshapes) }
    ensures { (b : Board) → Holds board.now b → i < length b.reshapes → result ≡ is_kind (kind_of merging) (get_or b.reshapes i no_reshape).val }
{
    fields::is_merge(board, i) == merging
}

// A machine's seat in a reshape of a kind goes.
pub fn give_up_seat(board: &mut [u64], merging: bool, target: ShardId, id: ValidatorId)
    requires { length board.old ≡ board_size }
    ensures { (b : Board) → Holds board.old b → well_formed b ≡ true → Holds board.new (give_up_seat (kind_of merging) target.0 id.0 b) }
{
    let Some(i) = rows::find_reshape(board, target) else {
        return;
    };
    if !is_of_kind(board, i, merging) {
        return;
    }
    let Some(k) = rows::find_seat(board, i, id) else {
        return;
    };
    seats::close(board, i, k);
}
