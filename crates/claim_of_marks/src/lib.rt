// The bytes of a claim file, written from a working memory (document 01, "Working memory and claims").
#![tactic(auto)]

mod distances;
pub mod marked;
pub mod writing;
