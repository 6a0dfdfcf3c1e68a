// A merge's keepers, drawn into a lent list.
#![tactic(auto)]

ghost use Rattle.std.specs.Prelude.{◌≡◌, ◌++◌, true, ◌+◌, ◌≤◌, length, take, drop};
ghost use Rattle.rules.specs.Board.{Board, most_members, most_seats, last_target};
ghost use Rattle.rules.specs.WellFormed.{well_formed};
ghost use Rattle.rules.specs.Reshapes as rules;
ghost use Rattle.rules.specs.Reshapes.{draw_keepers};
ghost use Rattle.board.specs.Layout.{board_size};
ghost use Rattle.board.specs.Held.{Holds};
ghost use Rattle.keepers.specs.Kept.{keepers_room, ListedWithin, TellsListed, filled, shared, KeptWithin, TellsKept, right_drawn};

use board::layout::MOST_MEMBERS;
use board::settings;
use sampling::{DrawError, Reader};
use types::ShardId;

const MOST_SIZE: usize = 32;

pub const KEEPERS_ROOM: usize = MOST_SIZE + MOST_MEMBERS;

// How many ids stand in the list, and the reader moved on.
#[derive(Clone, Copy)]
pub struct Listed {
    pub count: usize,
    pub left: Reader,
}

// How many keepers the left child gives and how many the right, one after the other, and the reader moved on.
#[derive(Clone, Copy)]
pub struct Keepers {
    pub from_left: usize,
    pub from_right: usize,
    pub left: Reader,
}

// Waiting members behind the m ready ones, as many as the share lacks; how many there are then.
fn put_behind(waiting: &[u64], share: usize, m: usize, out: &mut [u64]) -> usize
    requires { (m ≤ length out.old) × (share ≤ length out.old) }
    ensures { (length out.new ≡ length out.old) × (result ≤ share)
        × (take result out.new ≡ take share (take m out.old ++ waiting.now)) }
{
    let mut i: usize = 0;
    while m + i < share {
        if waiting.len() <= i {
            return m + i;
        }
        out[m + i] = waiting[i];
        i += 1;
    }
    share
}

// The waiting members, sorted and shuffled, fill the share behind the m ready ones.
fn fill_share(
    waiting: &mut [u64],
    share: usize,
    draws: &[u64],
    at: Reader,
    m: usize,
    out: &mut [u64],
) -> Result<Listed, DrawError>
    requires { (at.at ≤ length draws.now) × (m ≤ length out.old) × (share ≤ length out.old) }
    ensures len { length out.new ≡ length out.old }
    ensures within { ListedWithin draws.now share result }
    ensures tells { TellsListed draws.now (filled share (take m out.old) waiting.old (drop at.at draws.now)) out.new result }
{
    let left = gathering::sort_and_shuffle(waiting, draws, at)?;
    let count = put_behind(waiting, share, m, out);
    Ok(Listed { count, left })
}

// The m ready members, sorted and shuffled, then the waiting ones.
fn draw_share(
    waiting: &mut [u64],
    share: usize,
    draws: &[u64],
    at: Reader,
    m: usize,
    out: &mut [u64],
) -> Result<Listed, DrawError>
    requires { (at.at ≤ length draws.now) × (m ≤ length out.old) × (share ≤ length out.old) }
    ensures len { length out.new ≡ length out.old }
    ensures within { ListedWithin draws.now share result }
    ensures tells { TellsListed draws.now (shared share (take m out.old) waiting.old (drop at.at draws.now)) out.new result }
{
    let left = gathering::sort_and_shuffle(&mut out[..m], draws, at)?;
    fill_share(waiting, share, draws, left, m, out)
}

// The child's keepers; its waiting members are gathered in a list of their own.
fn keepers_of(
    board: &[u64],
    child: ShardId,
    share: usize,
    draws: &[u64],
    at: Reader,
    waiting: &mut [u64],
    out: &mut [u64],
) -> Result<Listed, DrawError>
    requires { (length board.now ≡ board_size) × (at.at ≤ length draws.now) × (share ≤ most_members) × (length waiting.old ≡ most_members) × (most_members ≤ length out.old) }
    ensures len { length out.new ≡ length out.old }
    ensures within { ListedWithin draws.now share result }
    ensures tells { (b : Board) → Holds board.now b → well_formed b ≡ true →
        TellsListed draws.now (rules.keepers_of child.0 share b (drop at.at draws.now)) out.new result }
{
    let counts = gathering::gather_seated(board, child, &mut out[..MOST_MEMBERS], waiting);
    let k = counts.waiting;
    draw_share(&mut waiting[..k], share, draws, at, counts.ready, out)
}

// The right child's keepers behind the n of the left one.
fn draw_right(
    board: &[u64],
    target: ShardId,
    share: usize,
    draws: &[u64],
    at: Reader,
    waiting: &mut [u64],
    n: usize,
    out: &mut [u64],
) -> Result<Keepers, DrawError>
    requires { (length board.now ≡ board_size) × (target.0 ≤ last_target) × (n + share ≤ most_seats) × (at.at ≤ length draws.now) × (length waiting.old ≡ most_members) × (length out.old ≡ keepers_room) }
    ensures within { KeptWithin draws.now result }
    ensures tells { (b : Board) → Holds board.now b → well_formed b ≡ true →
        TellsKept target.0 draws.now (right_drawn target.0 share b (take n out.old) (drop at.at draws.now)) out.new result }
{
    let rights = keepers_of(
        board,
        target.right(),
        share,
        draws,
        at,
        waiting,
        &mut out[n..],
    )?;
    Ok(Keepers {
        from_left: n,
        from_right: rights.count,
        left: rights.left,
    })
}

// The left child gives S/2 rounded up, the right one S/2 rounded down.
pub fn draw_merge_keepers(
    board: &[u64],
    target: ShardId,
    draws: &[u64],
    out: &mut [u64],
) -> Result<Keepers, DrawError>
    requires { (length board.now ≡ board_size) × (target.0 ≤ last_target) × (length out.old ≡ keepers_room) }
    ensures within { KeptWithin draws.now result }
    ensures tells { (b : Board) → Holds board.now b → well_formed b ≡ true →
        TellsKept target.0 draws.now (draw_keepers target.0 b draws.now) out.new result }
{
    let size = steps::rows_within(settings::shard_size(board) as usize, MOST_SIZE);
    let mut waiting: [u64; MOST_MEMBERS] = [0; MOST_MEMBERS];
    let lefts = keepers_of(
        board,
        target.left(),
        (size + 1) / 2,
        draws,
        Reader::start(),
        &mut waiting,
        out,
    )?;
    draw_right(
        board,
        target,
        size / 2,
        draws,
        lefts.left,
        &mut waiting,
        lefts.count,
        out,
    )
}
