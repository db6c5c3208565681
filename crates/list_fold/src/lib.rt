// From a clause list to the numbers of its ranges' ends.
#![tactic(auto)]

mod clause;
mod clip;
pub mod end_number;
pub mod fold;
pub mod numbered_ranges;
mod row;
mod rows;
