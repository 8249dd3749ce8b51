// What a listing prints (document 01, "Reference tables and results"), line by line: of an answer of the check, and of the facts that it leaves in
// memory.
#![tactic(auto)]

pub mod answers;
pub mod facts;
