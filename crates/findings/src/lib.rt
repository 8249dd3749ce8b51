// What is found of the facts that a memory marks: a lacking start fact, a missing fact, an allowed error, or nothing.
#![tactic(auto)]

pub mod find;
pub mod starts;
