// Shards, machines, epochs and heights; a machine's place and its moves; what a step answers.
#![tactic(auto)]

ghost use Rattle.std.specs.Prelude.{◌≡◌, ◌≤◌};
ghost use Rattle.types.specs.Shards.{left_of, right_of, parent_of, byzantine_threshold, quorum};
ghost use Rattle.types.specs.Places.{is_pooled, is_seated_on, is_observing, observes, is_ready, is_overdue, pooled, short, drawn_to, set_to_watch, moved_to, kept_on, seated_from_watch, made_ready};
ghost use Rattle.types.specs.Answers.{number_of};

#[derive(Clone, Copy, PartialEq, Eq, PartialOrd, Ord)]
pub struct ShardId(pub u64);

#[derive(Clone, Copy, PartialEq, Eq, PartialOrd, Ord)]
pub struct ValidatorId(pub u64);

#[derive(Clone, Copy, PartialEq, Eq, PartialOrd, Ord)]
pub struct Epoch(pub u64);

#[derive(Clone, Copy, PartialEq, Eq, PartialOrd, Ord)]
pub struct BlockHeight(pub u64);

#[derive(Clone, Copy, PartialEq, Eq)]
pub enum Place {
    Pooled,
    Seated {
        shard: ShardId,
        ready: bool,
        placed_at_epoch: Epoch,
    },
    Observing {
        shard: ShardId,
        placed_at_epoch: Epoch,
    },
    Short,
    Other(u64),
}

#[derive(Clone, Copy, PartialEq, Eq)]
pub struct Machine {
    pub id: ValidatorId,
    pub place: Place,
}

#[derive(Clone, Copy, PartialEq, Eq)]
pub enum Answer {
    Done = 0,
    NotWellFormed = 1,
    LastEpoch = 2,
    OutOfRange = 3,
    NoRecord = 4,
    NoBoundary = 5,
    NotThere = 6,
    FamilyTaken = 7,
    VictimUnfit = 8,
    DrawMissing = 9,
    DrawTooLarge = 10,
    NoRoom = 11,
    PoolTooSmall = 12,
    NotASnapshot = 13,
}

// The answer stands between the counts: side by side they would be copied as one, which waits for both to be stored.
#[derive(Clone, Copy, PartialEq, Eq)]
pub struct Outcome {
    pub handled: u64,
    pub answer: Answer,
    pub draws_used: u64,
}

impl ShardId {
    pub fn left(self) -> ShardId
        requires { self.0 ≤ 65535 }
        ensures { result.0 ≡ left_of self.0 }
    {
        ShardId(2 * self.0)
    }

    pub fn right(self) -> ShardId
        requires { self.0 ≤ 65535 }
        ensures { result.0 ≡ right_of self.0 }
    {
        ShardId(2 * self.0 + 1)
    }

    // 0, which is no shard, for shard 1.
    pub fn parent(self) -> ShardId
        ensures { result.0 ≡ parent_of self.0 }
    {
        ShardId(self.0 / 2)
    }
}

// How many of a committee of `size` may fail; `size` is at least 1.
pub fn byzantine_threshold(size: u64) -> u64
    requires { 1 ≤ size }
    ensures { result ≡ byzantine_threshold size }
{
    (size - 1) / 3
}

pub fn quorum_of(size: u64) -> u64
    requires { 1 ≤ size }
    ensures { result ≡ quorum size }
{
    2 * byzantine_threshold(size) + 1
}

impl Place {
    pub fn is_pooled(self) -> bool
        ensures { result ≡ is_pooled self }
    {
        matches!(self, Place::Pooled)
    }

    pub fn is_seated_on(self, on: ShardId) -> bool
        ensures { result ≡ is_seated_on on.0 self }
    {
        matches!(self, Place::Seated { shard, .. } if shard == on)
    }

    pub fn is_observing(self) -> bool
        ensures { result ≡ is_observing self }
    {
        matches!(self, Place::Observing { .. })
    }

    pub fn observes_shard(self, on: ShardId) -> bool
        ensures { result ≡ observes on.0 self }
    {
        matches!(self, Place::Observing { shard, .. } if shard == on)
    }

    pub fn is_ready(self) -> bool
        ensures { result ≡ is_ready self }
    {
        matches!(self, Place::Seated { ready: true, .. })
    }

    // Seated, waiting, and at or past its deadline; no sum here can pass 64 bits.
    pub fn is_overdue(self, epoch: Epoch, wait: u64) -> bool
        ensures { result ≡ is_overdue epoch.0 wait self }
    {
        match self {
            Place::Seated {
                ready: false,
                placed_at_epoch,
                ..
            } => placed_at_epoch <= epoch && wait <= epoch.0 - placed_at_epoch.0,
            _ => false,
        }
    }

    fn seated(shard: ShardId, ready: bool, stamp: Epoch) -> Place
        ensures { result ≡ Place.Seated shard ready stamp }
    {
        Place::Seated {
            shard,
            ready,
            placed_at_epoch: stamp,
        }
    }

    // To the pool, from any place.
    pub fn pooled(self) -> Place
        ensures { result ≡ pooled self }
    {
        Place::Pooled
    }

    // Short of stake, from any place.
    pub fn short(self) -> Place
        ensures { result ≡ short self }
    {
        Place::Short
    }

    // Drawn from the pool to a seat: waiting, stamped now.
    pub fn drawn_to(self, to: ShardId, epoch: Epoch) -> Place
        ensures { result ≡ drawn_to to.0 epoch.0 self }
    {
        Place::seated(to, false, epoch)
    }

    // Drawn from the pool into a cohort: observing the target, stamped now.
    pub fn set_to_watch(self, target: ShardId, epoch: Epoch) -> Place
        ensures { result ≡ set_to_watch target.0 epoch.0 self }
    {
        Place::Observing {
            shard: target,
            placed_at_epoch: epoch,
        }
    }

    // A seated machine moves to another shard and keeps ready and stamp.
    pub fn moved_to(self, to: ShardId) -> Place
        ensures { result ≡ moved_to to.0 self }
    {
        match self {
            Place::Seated {
                ready,
                placed_at_epoch,
                ..
            } => Place::seated(to, ready, placed_at_epoch),
            _ => self,
        }
    }

    // A keeper moves to the parent with its seat's ready, and keeps its stamp.
    pub fn kept_on(self, to: ShardId, marked: bool) -> Place
        ensures { result ≡ kept_on to.0 marked self }
    {
        match self {
            Place::Seated {
                placed_at_epoch,
                ..
            } => Place::seated(to, marked, placed_at_epoch),
            _ => self,
        }
    }

    // A watcher is seated with its seat's ready, stamped now.
    pub fn seated_from_watch(self, to: ShardId, marked: bool, epoch: Epoch) -> Place
        ensures { result ≡ seated_from_watch to.0 marked epoch.0 self }
    {
        match self {
            Place::Observing { .. } => Place::seated(to, marked, epoch),
            _ => self,
        }
    }

    // A waiting machine becomes ready and keeps its stamp.
    pub fn made_ready(self) -> Place
        ensures { result ≡ made_ready self }
    {
        match self {
            Place::Seated {
                shard,
                placed_at_epoch,
                ..
            } => Place::seated(shard, true, placed_at_epoch),
            _ => self,
        }
    }
}

impl From<Answer> for u64 {
    ghost from_gives = { λ answer number. number ≡ number_of answer };

    fn from(answer: Answer) -> u64 {
        answer as u64
    }
}

impl Answer {
    pub fn number(self) -> u64
        ensures { result ≡ number_of self }
    {
        self as u64
    }
}
