// The entries of a register: a list of them, and one that is held in fixed memory.
#![tactic(auto)]

pub mod entry;
pub mod gathered;
pub mod held;
pub mod ids;
