// The steps that change no committee: tick and the ready timeout.
#![tactic(auto)]

ghost use Rattle.std.specs.Prelude.{◌≡◌, ◌≤◌, ◌<◌, length, get_or};
ghost use Rattle.types.specs.Places.{is_overdue};
ghost use Rattle.rules.specs.Board.{Board, most_machines, on_machines};
ghost use Rattle.board.specs.Held.{Holds, no_machine};
ghost use Rattle.board.specs.Layout.{board_size};
ghost use Rattle.rules.specs.Places.{tick, time_out};
ghost use Rattle.lifecycle.specs.Ages.{aged};
ghost use Rattle.steps.specs.Inner.{Steps};

use board::layout::{LAST_EPOCH, MOST_MACHINES};
use board::{machines, settings};
use types::{Answer, Epoch, Machine, Outcome};

// Tick, for words that are known to hold a well-formed board.
pub fn tick_held(board: &mut [u64]) -> Outcome
    requires { length board.old ≡ board_size }
    ensures { Steps tick board.old board.new result }
{
    let epoch = settings::epoch(board);
    let e = epoch.0;
    if LAST_EPOCH <= e {
        return steps::refusal(Answer::LastEpoch);
    }
    settings::set_epoch(board, Epoch(e + 1));
    steps::done(1, 0)
}

// The machine at row i becomes ready where it is overdue; whether it is.
fn age_at(board: &mut [u64], i: usize, epoch: Epoch, wait: u64) -> bool
    requires { (length board.old ≡ board_size) × (i < most_machines) }
    ensures { (b : Board) → Holds board.old b → i < length b.machines →
        (result ≡ is_overdue epoch.0 wait (get_or b.machines i no_machine).val) × Holds board.new (on_machines (aged epoch.0 wait i) b) }
{
    let m = machines::at(board, i);
    if !m.place.is_overdue(epoch, wait) {
        return false;
    }
    let place = m.place.made_ready();
    machines::put(board, i, Machine { place, ..m });
    true
}

// The ready timeout, for words that are known to hold a well-formed board.
pub fn auto_ready_timeout_held(board: &mut [u64]) -> Outcome
    requires { length board.old ≡ board_size }
    ensures { Steps time_out board.old board.new result }
{
    let epoch = settings::epoch(board);
    let wait = settings::ready_wait(board);
    let n = steps::rows_within(machines::count(board), MOST_MACHINES);
    let mut k: u64 = 0;
    for i in 0..n {
        k += u64::from(age_at(board, i, epoch, wait));
    }
    steps::done(k, 0)
}
