// The pool: the machines that wait for a seat, a draw from them, and one that is seated; what a turn tells.
#![tactic(auto)]

ghost use Rattle.std.specs.Prelude.{◌≡◌, [], ◌∷◌, true, ◌<◌, ◌≤◌, length, get_or, drop, MatchOption};
ghost use Rattle.rules.specs.Board.{Board, most_machines, epoch_of};
ghost use Rattle.types.specs.Places.{drawn_to};
ghost use Rattle.rules.specs.WellFormed.{well_formed};
ghost use Rattle.rules.specs.Moves.{pool_of, may_join, put_on};
ghost use Rattle.rules.specs.Draws.{draw_from};
ghost use Rattle.board.specs.Layout.{board_size};
ghost use Rattle.board.specs.Held.{Holds, no_machine};
ghost use Rattle.pool.specs.Ranks.{HasRank};
ghost use Rattle.pool.specs.Told.{DrawWithin, DrawTells, turn_told};

use board::layout::MOST_MACHINES;
use board::{machines, settings};
use sampling::{DrawError, Reader};
use types::{Answer, Outcome, ShardId};

// How many a turn handled, and the reader moved on.
#[derive(Clone, Copy)]
pub struct Turn {
    pub handled: u64,
    pub left: Reader,
}

// What a step tells that is one turn alone.
pub fn told(turn: Result<Turn, Answer>) -> Outcome
    ensures { result ≡ turn_told turn }
{
    match turn {
        Ok(t) => steps::done(t.handled, t.left.at as u64),
        Err(answer) => steps::refusal(answer),
    }
}

// How many machines there are, and no more than there is room for.
fn rows(ws: &[u64]) -> usize
    requires { length ws.now ≡ board_size }
    ensures { (result ≤ most_machines) × ((b : Board) → Holds ws.now b → result ≡ length b.machines) }
{
    steps::rows_within(machines::count(ws), MOST_MACHINES)
}

pub fn pool_size(ws: &[u64]) -> usize
    requires { length ws.now ≡ board_size }
    ensures { (result ≤ most_machines) × ((b : Board) → Holds ws.now b → result ≡ length (pool_of b)) }
{
    let n = rows(ws);
    let mut k: usize = 0;
    for i in 0..n {
        let m = machines::at(ws, i);
        k += usize::from(m.place.is_pooled());
    }
    k
}

// The row of the machine with rank k in the pool; none where the pool has no such rank.
pub fn find_at_rank(ws: &[u64], k: usize) -> Option<usize>
    requires { length ws.now ≡ board_size }
    ensures { MatchOption result ((b : Board) → Holds ws.now b → length (pool_of b) ≤ k)
        (λ i. (i < most_machines) × ((b : Board) → Holds ws.now b → k < length (pool_of b) → HasRank k i b)) }
{
    let n = rows(ws);
    let mut left = k;
    for i in 0..n {
        let m = machines::at(ws, i);
        if m.place.is_pooled() {
            if left == 0 {
                return Some(i);
            }
            left -= 1;
        }
    }
    None
}

// The same; row 0 where the pool has no such rank.
pub fn pooled_at_rank(ws: &[u64], k: usize) -> usize
    requires { length ws.now ≡ board_size }
    ensures { (result < most_machines) × ((b : Board) → Holds ws.now b → k < length (pool_of b) → HasRank k result b) }
{
    find_at_rank(ws, k).unwrap_or(0)
}

// ---- onto a shard

// The machine at row i, seated on the shard: waiting, stamped now, and a member.
pub fn seat_drawn(ws: &mut [u64], shard: ShardId, i: usize)
    requires { (length ws.old ≡ board_size) × (i < most_machines) }
    ensures { (b : Board) → Holds ws.old b → well_formed b ≡ true → i < length b.machines → may_join shard.0 ((get_or b.machines i no_machine).key ∷ []) b ≡ true →
        Holds ws.new (put_on shard.0 (drawn_to shard.0 (epoch_of b)) (get_or b.machines i no_machine).key b) }
{
    let m = machines::at(ws, i);
    let epoch = settings::epoch(ws);
    joining::put_place(ws, i, m.place.drawn_to(shard, epoch));
    joining::join(ws, shard, m.id);
}

// ---- the draw

// One draw from the pool: a machine's row, and the reader moved on; an empty pool takes no draw.
pub fn draw_one(ws: &[u64], draws: &[u64], at: Reader) -> Result<Option<(usize, Reader)>, DrawError>
    requires { length ws.now ≡ board_size }
    ensures within { DrawWithin result }
    ensures tells { (b : Board) → Holds ws.now b → DrawTells draws.now b (draw_from (pool_of b) (drop at.at draws.now)) at result }
{
    let n = pool_size(ws);
    if n == 0 {
        return Ok(None);
    }
    let (k, left) = at.draw_index(draws, (n - 1) as u64)?;
    let i = pooled_at_rank(ws, k as usize);
    Ok(Some((i, left)))
}
