// The crate is its specs/ and proofs/: what we owe, over the contracts of the check, of the claim check and of claim writing. It has no program code.
// The prover reads specs/ and proofs/ only for a crate that has a function with a body, so there is this one, which nobody calls.
#![tactic(auto)]

fn nothing() {}
