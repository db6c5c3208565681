// Writing a version's normal text.
#![tactic(auto)]

pub mod label;
pub mod numbers;
pub mod text;
