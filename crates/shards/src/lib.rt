// What is kept by shard beside the committees, in lent words: boundaries and rotations.
#![tactic(auto)]

pub mod bounds;
pub mod rotations;
