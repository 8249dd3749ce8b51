// The verdict on a memory of marks, with the smallest witness of an error that the marked facts allow.
#![tactic(auto)]

pub mod search;
