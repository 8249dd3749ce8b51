// What the programs share at the command line: files that arguments name and standard input, read whole; what is printed; and what is said on
// standard error where one of them fails. What a file holds, and whether the system takes what is written, is the world's: no contract says it.
#![tactic(auto)]

pub mod memory;
pub mod names;
pub mod reading;
pub mod telling;
