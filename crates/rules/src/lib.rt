// The rules are definitions (specs/) and theorems about them (proofs/); they hold no code.
#![tactic(auto)]
