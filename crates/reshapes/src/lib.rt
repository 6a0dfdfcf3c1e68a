// The table of reshapes in lent words, by rising target: fields, seats and halves.
#![tactic(auto)]

ghost use Rattle.std.specs.Prelude.{◌≡◌};
ghost use Rattle.reshapes.specs.Changes.{quiet_at, half_at};

use board::layout::{LEFT_AT, QUIET_LEFT, QUIET_RIGHT, RIGHT_AT};

pub mod fields;
pub mod halves;
pub mod seats;

// Of the two children below a target.
#[derive(Clone, Copy, PartialEq, Eq)]
pub enum Side {
    Left,
    Right,
}

impl Side {
    // Where a row says whether the side is quiet.
    fn quiet_at(self) -> usize
        ensures { result ≡ quiet_at self }
    {
        match self {
            Side::Left => QUIET_LEFT,
            Side::Right => QUIET_RIGHT,
        }
    }

    // Where in a row its half begins.
    fn half_at(self) -> usize
        ensures { result ≡ half_at self }
    {
        match self {
            Side::Left => LEFT_AT,
            Side::Right => RIGHT_AT,
        }
    }
}
