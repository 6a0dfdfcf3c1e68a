// One machine's record lent to be changed: its place is rewritten by the place's own move. One
// function a move, as each takes other arguments: one generic over the move would be no plainer.
#![tactic(auto)]

ghost use Rattle.std.specs.Prelude.{◌≡◌};
ghost use Rattle.types.specs.Places.{moved_to, made_ready, seated_from_watch, pooled};

use types::{Epoch, Machine, ShardId};

// A seated machine moves to a child, and keeps ready and stamp.
pub fn move_to_child(m: &mut Machine, to: ShardId)
    ensures { m.new ≡ record { id = m.old.id; place = moved_to to.0 m.old.place } }
{
    m.place = m.place.moved_to(to);
}

// A waiting machine becomes ready, and keeps its stamp.
pub fn make_ready(m: &mut Machine)
    ensures { m.new ≡ record { id = m.old.id; place = made_ready m.old.place } }
{
    m.place = m.place.made_ready();
}

// A watcher is seated with its seat's ready, stamped now.
pub fn seat_from_watch(m: &mut Machine, to: ShardId, marked: bool, epoch: Epoch)
    ensures { m.new ≡ record { id = m.old.id; place = seated_from_watch to.0 marked epoch.0 m.old.place } }
{
    m.place = m.place.seated_from_watch(to, marked, epoch);
}

// To the pool, from any place.
pub fn pool(m: &mut Machine)
    ensures { m.new ≡ record { id = m.old.id; place = pooled m.old.place } }
{
    m.place = m.place.pooled();
}
