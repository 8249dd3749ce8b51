// Text as bytes: words, numbers in decimal, and lines of them (document 01, "Reference tables and results"), written into a buffer that the caller
// lends.
#![tactic(auto)]

pub mod line;
mod writer;
