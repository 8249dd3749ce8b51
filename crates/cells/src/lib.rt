// Cells and rows: the columns of a row with their ranges, and one reader for cells and rows (document 01, "The table, in file order").
#![tactic(auto)]

pub mod columns;
pub mod row;
