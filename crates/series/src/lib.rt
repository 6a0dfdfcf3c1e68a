// No code: what the exported calls keep, one after another.
#![tactic(auto)]
