// Recorded calls, of the original Rust or of a plain reading where it has no such step, computed by the definitions; it holds no code.
#![tactic(auto)]
