// How the fields of a version are laid out for a caller in C: numbers in a lent array.
#![tactic(auto)]

pub mod fields;
pub mod pair;
