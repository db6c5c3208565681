// Numbers in decimal digits, and bytes written into a lent buffer.
#![tactic(auto)]

pub mod parse;
pub mod put;
