// The steps over several shards: which they go through, found before the first turn.
#![tactic(auto)]

ghost use Rattle.std.specs.Prelude.{◌≡◌, ◌++◌, ◌+◌, ◌<◌, ◌≤◌, length, get_or, take};
ghost use Rattle.rules.specs.Board.{Board, most_reshapes};
ghost use Rattle.board.specs.Layout.{board_size};
ghost use Rattle.board.specs.Held.{Holds, no_reshape};
ghost use Rattle.batches.specs.Targets.{merges_of, due_of, is_ripe, is_wanted, taken, targets_of};

use board::layout::MOST_RESHAPES;
use board::settings;
use reshapes::fields;
use types::Epoch;

// Which reshapes a step takes.
#[derive(Clone, Copy)]
pub enum Which {
    SplitsToSchedule,
    MergesToSchedule,
    SplitsDue,
    MergesDue,
}

impl Which {
    fn merges(self) -> bool
        ensures { result ≡ merges_of self }
    {
        matches!(self, Which::MergesToSchedule | Which::MergesDue)
    }

    fn due(self) -> bool
        ensures { result ≡ due_of self }
    {
        matches!(self, Which::SplitsDue | Which::MergesDue)
    }
}

// Unscheduled, or with a terminal that has come.
fn is_ripe(board: &[u64], i: usize, due: bool, epoch: Epoch) -> bool
    requires { (length board.now ≡ board_size) × (i < most_reshapes) }
    ensures { (b : Board) → Holds board.now b → i < length b.reshapes → result ≡ is_ripe due epoch.0 (get_or b.reshapes i no_reshape).val }
{
    let scheduled = fields::is_scheduled(board, i);
    if !due {
        return !scheduled;
    }
    let terminal = fields::terminal_at(board, i);
    scheduled & (terminal.0 <= epoch.0)
}

fn is_wanted(board: &[u64], which: Which, i: usize, epoch: Epoch) -> bool
    requires { (length board.now ≡ board_size) × (i < most_reshapes) }
    ensures { (b : Board) → Holds board.now b → i < length b.reshapes → result ≡ is_wanted which epoch.0 (get_or b.reshapes i no_reshape).val }
{
    let merging = fields::is_merge(board, i);
    if which.merges() {
        return merging & is_ripe(board, i, which.due(), epoch);
    }
    !merging & is_ripe(board, i, which.due(), epoch)
}

// The target of the reshape at i comes next, if it is wanted; how many there are then.
fn take_up(board: &[u64], which: Which, i: usize, epoch: Epoch, out: &mut [u64], k: usize) -> usize
    requires { (length board.now ≡ board_size) × (i < most_reshapes) × (length out.old ≡ most_reshapes) × (k < most_reshapes) }
    ensures { (result ≤ k + 1) × (length out.new ≡ most_reshapes) × ((b : Board) → Holds board.now b → i < length b.reshapes →
        take result out.new ≡ take k out.old ++ taken which epoch.0 (get_or b.reshapes i no_reshape)) }
{
    if is_wanted(board, which, i, epoch) {
        let target = fields::target_at(board, i);
        out[k] = target.0;
        return k + 1;
    }
    k
}

// The targets of those reshapes, rising, into the first of eight words; how many.
pub fn targets(board: &[u64], which: Which, out: &mut [u64]) -> usize
    requires { (length board.now ≡ board_size) × (length out.old ≡ most_reshapes) }
    ensures { (result ≤ most_reshapes) × (length out.new ≡ most_reshapes) × ((b : Board) → Holds board.now b → take result out.new ≡ targets_of which b) }
{
    let epoch = settings::epoch(board);
    let n = steps::rows_within(fields::count(board), MOST_RESHAPES);
    let mut k: usize = 0;
    for i in 0..n {
        k = take_up(board, which, i, epoch, out, k);
    }
    k
}
