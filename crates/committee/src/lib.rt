// Committees and their rotations: what a board is asked, a rotation opened, a shard's rotations aborted.
#![tactic(auto)]

pub mod abort;
pub mod reads;
pub mod rotate;
