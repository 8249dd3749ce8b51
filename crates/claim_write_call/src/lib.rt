// Claim writing (document 01, "Working memory and claims"): the claim of a table's facts is written.
//   write   claim writing
//   answer  its answers
#![tactic(auto)]

pub mod answer;
pub mod write;
