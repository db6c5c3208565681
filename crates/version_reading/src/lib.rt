// Reading a version or a pattern from its text.
#![tactic(auto)]

pub mod label;
pub mod plain;
pub mod segment;
pub mod text;
