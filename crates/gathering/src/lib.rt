// The members of a shard's committee that a step draws among, in lent lists.
#![tactic(auto)]

ghost use Rattle.std.specs.Prelude.{◌≡◌, ◌++◌, true, ◌+◌, ◌<◌, ◌≤◌, length, get_or, take, drop};
ghost use Rattle.rules.specs.Lists.{keep, has, sort};
ghost use Rattle.rules.specs.Board.{Board, most_committees, most_members, most_rotations};
ghost use Rattle.rules.specs.WellFormed.{well_formed};
ghost use Rattle.rules.specs.Draws.{shuffle};
ghost use Rattle.rules.specs.Moves.{entrants_on};
ghost use Rattle.board.specs.Layout.{board_size};
ghost use Rattle.board.specs.Held.{Holds, no_committee, no_rotation};
ghost use Rattle.gathering.specs.Gathered.{Ready, Waiting, Staying, is_entrant, is_gathered, taken, gathered};
ghost use Rattle.sampling.specs.Reads.{ShuffleTells};

use board::committees;
use board::layout::MOST_MEMBERS;
use sampling::{DrawError, Reader};
use shards::rotations;
use types::{ShardId, ValidatorId};

// How many seated members are ready, and how many wait.
#[derive(Clone, Copy)]
pub struct Counts {
    pub ready: usize,
    pub waiting: usize,
}

// ---- Those who stay when the shard's rotations are aborted: entrants of none

fn enters_at(board: &[u64], shard: ShardId, id: ValidatorId, i: usize) -> bool
    requires { (length board.now ≡ board_size) × (i < most_rotations) }
    ensures { (b : Board) → Holds board.now b → i < length b.rotations → result ≡ is_entrant shard.0 id.0 (get_or b.rotations i no_rotation) }
{
    let r = rotations::at(board, i);
    (r.shard == shard) & (r.entrant == id)
}

// The machine is the entrant of a rotation on the shard.
fn enters(board: &[u64], shard: ShardId, id: ValidatorId) -> bool
    requires { length board.now ≡ board_size }
    ensures { (b : Board) → Holds board.now b → result ≡ has id.0 (entrants_on shard.0 b.rotations) }
{
    let n = rotations::rows(board);
    for row in 0..n {
        if enters_at(board, shard, id, row) {
            return true;
        }
    }
    false
}

fn stays(board: &[u64], shard: ShardId, id: ValidatorId) -> bool
    requires { length board.now ≡ board_size }
    ensures { (b : Board) → Holds board.now b → well_formed b ≡ true → result ≡ is_gathered Staying shard.0 b id.0 }
{
    rows::place_of(board, id).is_seated_on(shard) & !enters(board, shard, id)
}

// The machine comes next, if it stays; how many there are then.
fn take_staying(board: &[u64], shard: ShardId, id: ValidatorId, out: &mut [u64], k: usize) -> usize
    requires { (length board.now ≡ board_size) × (length out.old ≡ most_members) × (k < most_members) }
    ensures { (result ≤ k + 1) × (length out.new ≡ most_members) × ((b : Board) → Holds board.now b → well_formed b ≡ true →
        take result out.new ≡ take k out.old ++ taken Staying shard.0 b id.0) }
{
    if stays(board, shard, id) {
        out[k] = id.0;
        return k + 1;
    }
    k
}

// Of the committee at row j.
fn gather_staying_at(board: &[u64], shard: ShardId, j: usize, out: &mut [u64]) -> usize
    requires { (length board.now ≡ board_size) × (j < most_committees) × (length out.old ≡ most_members) }
    ensures { (result ≤ most_members) × (length out.new ≡ most_members) × ((b : Board) → Holds board.now b → well_formed b ≡ true → j < length b.committees →
        take result out.new ≡ keep (is_gathered Staying shard.0 b) (get_or b.committees j no_committee).val) }
{
    let n = steps::rows_within(committees::member_count(board, j), MOST_MEMBERS);
    let mut k: usize = 0;
    for i in 0..n {
        k = take_staying(board, shard, committees::member_at(board, j, i), out, k);
    }
    k
}

// Those who stay, in their order, into the first of 96 words; how many.
pub fn gather_staying(board: &[u64], shard: ShardId, out: &mut [u64]) -> usize
    requires { (length board.now ≡ board_size) × (length out.old ≡ most_members) }
    ensures { (result ≤ most_members) × (length out.new ≡ most_members) × ((b : Board) → Holds board.now b → well_formed b ≡ true →
        take result out.new ≡ gathered Staying shard.0 b) }
{
    let Some(j) = rows::find_committee(board, shard) else {
        return 0;
    };
    gather_staying_at(board, shard, j, out)
}

// ---- The ready and the waiting, in one pass

// The machine comes next in the list of its kind, if it is seated; how many there are then.
fn take_seated(
    board: &[u64],
    shard: ShardId,
    id: ValidatorId,
    ready: &mut [u64],
    waiting: &mut [u64],
    counts: Counts,
) -> Counts
    requires { (length board.now ≡ board_size) × (length ready.old ≡ most_members) × (length waiting.old ≡ most_members) × (counts.ready + counts.waiting < most_members) }
    ensures { (result.ready + result.waiting ≤ counts.ready + counts.waiting + 1) × (length ready.new ≡ most_members) × (length waiting.new ≡ most_members)
        × ((b : Board) → Holds board.now b → well_formed b ≡ true →
        (take result.ready ready.new ≡ take counts.ready ready.old ++ taken Ready shard.0 b id.0)
        × (take result.waiting waiting.new ≡ take counts.waiting waiting.old ++ taken Waiting shard.0 b id.0)) }
{
    let k = counts.ready;
    let m = counts.waiting;
    let p = rows::place_of(board, id);
    if !p.is_seated_on(shard) {
        return counts;
    }
    if p.is_ready() {
        ready[k] = id.0;
        return Counts {
            ready: k + 1,
            waiting: m,
        };
    }
    waiting[m] = id.0;
    Counts {
        ready: k,
        waiting: m + 1,
    }
}

// Of the committee at row j.
fn gather_seated_at(
    board: &[u64],
    shard: ShardId,
    j: usize,
    ready: &mut [u64],
    waiting: &mut [u64],
) -> Counts
    requires { (length board.now ≡ board_size) × (j < most_committees) × (length ready.old ≡ most_members) × (length waiting.old ≡ most_members) }
    ensures { (result.ready + result.waiting ≤ most_members) × (length ready.new ≡ most_members) × (length waiting.new ≡ most_members)
        × ((b : Board) → Holds board.now b → well_formed b ≡ true → j < length b.committees →
        (take result.ready ready.new ≡ keep (is_gathered Ready shard.0 b) (get_or b.committees j no_committee).val)
        × (take result.waiting waiting.new ≡ keep (is_gathered Waiting shard.0 b) (get_or b.committees j no_committee).val)) }
{
    let n = steps::rows_within(committees::member_count(board, j), MOST_MEMBERS);
    let mut counts = Counts {
        ready: 0,
        waiting: 0,
    };
    for i in 0..n {
        counts = take_seated(
            board,
            shard,
            committees::member_at(board, j, i),
            ready,
            waiting,
            counts,
        );
    }
    counts
}

// Each seated member in its order, into the first or the second list of 96 words; how many are in each.
pub fn gather_seated(
    board: &[u64],
    shard: ShardId,
    ready: &mut [u64],
    waiting: &mut [u64],
) -> Counts
    requires { (length board.now ≡ board_size) × (length ready.old ≡ most_members) × (length waiting.old ≡ most_members) }
    ensures { (result.ready + result.waiting ≤ most_members) × (length ready.new ≡ most_members) × (length waiting.new ≡ most_members)
        × ((b : Board) → Holds board.now b → well_formed b ≡ true →
        (take result.ready ready.new ≡ gathered Ready shard.0 b)
        × (take result.waiting waiting.new ≡ gathered Waiting shard.0 b)) }
{
    let Some(j) = rows::find_committee(board, shard) else {
        return Counts {
            ready: 0,
            waiting: 0,
        };
    };
    gather_seated_at(board, shard, j, ready, waiting)
}

// ---- Sorted and shuffled

// The lent ids, sorted and shuffled, and the reader moved on; where a draw is refused, they are of no use.
pub fn sort_and_shuffle(ids: &mut [u64], draws: &[u64], at: Reader) -> Result<Reader, DrawError>
    requires { at.at ≤ length draws.now }
    ensures len { length ids.new ≡ length ids.old }
    ensures tells { ShuffleTells draws.now (shuffle (sort ids.old) (drop at.at draws.now)) ids.new result }
{
    sampling::sort_ids(ids);
    at.shuffled(ids, draws)
}
