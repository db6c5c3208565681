// Lines of any length from a reader, through one buffer of constant size.
#![tactic(auto)]

pub mod input;
pub mod source;
pub mod window;
