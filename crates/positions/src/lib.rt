// Where each fact stands: the sizes of a table worked out once, and positions by them (document 01, "Working memory and claims").
#![tactic(auto)]

pub mod plan;
