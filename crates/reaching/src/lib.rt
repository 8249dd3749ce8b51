// What an error row asks of the threads, and the local stores that they reach (document 01, "Runs and error states").
#![tactic(auto)]

pub mod reach;
pub mod row_cells;
