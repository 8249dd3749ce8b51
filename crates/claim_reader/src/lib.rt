// Claim files (document 01, "Working memory and claims"): a claim that is read into working memory.
#![tactic(auto)]

pub mod reading;
