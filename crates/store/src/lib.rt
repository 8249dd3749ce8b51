// What the layers above stand on: how the mark of a fact stands in the lent memory, and the rows of a table.
#![tactic(auto)]

pub mod marks;
pub mod rows;
