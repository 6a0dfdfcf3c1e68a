// The cohort of a split: drawn from the pool, and set to watch.
#![tactic(auto)]

pub mod draw;
pub mod watch;
