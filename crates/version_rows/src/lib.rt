// The row of a version: 22 numbers in a lent array, which compare number by number as the versions do. Labels are left out.
#![tactic(auto)]

mod figures;
pub mod normal;
pub mod normal_plain;
pub mod read;
pub mod row;
