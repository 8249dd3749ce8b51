// Table files: the header, and the whole table (document 01, "The table, in file order").
#![tactic(auto)]

pub mod header;
pub mod table;
