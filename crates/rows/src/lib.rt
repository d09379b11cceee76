// Rows of numbers: fields in columns, layouts, and one reader and one writer for every kind of row.
#![tactic(auto)]

pub mod column;
pub mod fault;
pub mod field;
pub mod layout;
pub mod row;
