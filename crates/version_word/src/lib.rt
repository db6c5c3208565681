// The packed word of a small version. Two words compare as their versions do.
#![tactic(auto)]

pub mod packed;
pub mod small;
pub mod text;
