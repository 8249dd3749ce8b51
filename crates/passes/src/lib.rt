// What rules 2, 3, 5, 6 and 7 give on one stretch of facts. It is an inner layer: its functions have `requires`.
//   pushes_and_pops  rules 5 and 7
//   calls            rule 6
//   guarantees       rules 2 and 3
#![tactic(auto)]

pub mod calls;
pub mod guarantees;
pub mod pushes_and_pops;
