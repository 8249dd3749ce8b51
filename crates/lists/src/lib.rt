// Lists of rows, each above the one before (document 01, "The table, in file order").
#![tactic(auto)]

pub mod list;
