// The settings: six numbers.
ghost use Rattle.std.specs.Prelude.{◌≡◌, length};
ghost use Rattle.rules.specs.Board.{Board, on_settings};
ghost use Rattle.board.specs.Layout.{board_size};
ghost use Rattle.board.specs.Held.{Holds};
ghost use Rattle.board.specs.Leaves.{at_epoch};

use super::layout::{DRAIN, EPOCH, INTERVAL, MOST, SIZE, WAIT};
use types::Epoch;

pub fn epoch(ws: &[u64]) -> Epoch
    requires { length ws.now ≡ board_size }
    ensures { (b : Board) → Holds ws.now b → result.0 ≡ b.settings.epoch }
{
    Epoch(ws[EPOCH])
}

pub fn shard_size(ws: &[u64]) -> u64
    requires { length ws.now ≡ board_size }
    ensures { (b : Board) → Holds ws.now b → result ≡ b.settings.size }
{
    ws[SIZE]
}

pub fn drain_length(ws: &[u64]) -> u64
    requires { length ws.now ≡ board_size }
    ensures { (b : Board) → Holds ws.now b → result ≡ b.settings.drain }
{
    ws[DRAIN]
}

pub fn ready_wait(ws: &[u64]) -> u64
    requires { length ws.now ≡ board_size }
    ensures { (b : Board) → Holds ws.now b → result ≡ b.settings.wait }
{
    ws[WAIT]
}

pub fn shuffle_interval(ws: &[u64]) -> u64
    requires { length ws.now ≡ board_size }
    ensures { (b : Board) → Holds ws.now b → result ≡ b.settings.interval }
{
    ws[INTERVAL]
}

pub fn most_in_flight(ws: &[u64]) -> u64
    requires { length ws.now ≡ board_size }
    ensures { (b : Board) → Holds ws.now b → result ≡ b.settings.most }
{
    ws[MOST]
}

pub fn set_epoch(ws: &mut [u64], epoch: Epoch)
    requires { length ws.old ≡ board_size }
    ensures { (b : Board) → Holds ws.old b → Holds ws.new (on_settings (at_epoch epoch.0) b) }
{
    ws[EPOCH] = epoch.0;
}
