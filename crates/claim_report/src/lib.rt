// What the programs on claims print, line by line: of an answer of claim writing, and of an answer of the claim check.
#![tactic(auto)]

pub mod checked;
pub mod written;
