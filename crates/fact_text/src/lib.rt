// The text of facts (document 01, "Reference tables and results"): the fact at a position, and its line.
#![tactic(auto)]

pub mod facts;
pub mod line;
