// The text of the listing (document 01, "Reference tables and results") and of the programs on claims, but for the lines of facts; and what a refusal
// says in words. Each line has memory of its own.
#![tactic(auto)]

pub mod line;
pub mod lines;
pub mod reasons;
