// Lists of version clauses, and how they are read.
#![tactic(auto)]

pub mod clause;
pub mod commas;
pub mod list;
pub mod operator;
pub mod step;
mod trim;
