// Uses of the rules at positions of a memory: what they are (specs), that they are the rules' (proofs), one use and a line of uses, and a pass over
// them by a plan. It is an inner layer: its functions have `requires`.
#![tactic(auto)]

pub mod lines;
pub mod sweep;
