// Numbers and refusals: what every file is made of (document 01, "Numbers" and "What comes back").
#![tactic(auto)]

pub mod reading;
pub mod refusals;
pub mod writing;
