// The library of document 01's three calls with their answers as numbers. `truppidane_c` exports them for programs in C and in languages that call as C
// does, under the same names.
//   told   an answer as eleven numbers
//   calls  the three calls
#![tactic(auto)]

pub mod calls;
mod told;

pub use told::NUMBERS;
