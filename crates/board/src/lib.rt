// The board in lent words: leaf reads and writes, typed, each for every board that the words hold.
#![tactic(auto)]

pub mod committees;
pub mod layout;
pub mod machines;
pub mod settings;
