// The claim check (document 01, "What comes back"): what a claim that anyone wrote is worth for a table.
//   check   the claim check
//   answer  its answers
#![tactic(auto)]

pub mod answer;
pub mod check;
