// The check: a table in, the least relations, their count and the verdict out.
#![tactic(auto)]

pub mod answer;
pub mod check;
pub mod stored;
