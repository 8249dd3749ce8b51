// The crate is its specs/ and proofs/: facts, rules, runs, verdicts and claims, and the theorems about them. It has no program code.
// The prover reads specs/ and proofs/ only for a crate that has a function with a body, so there is this one, which nobody calls.
#![tactic(auto)]

fn nothing() {}
