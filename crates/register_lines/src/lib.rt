// A register gathered line by line: each line has an identifier and a list, and each list's table goes after the others in a lent buffer.
#![tactic(auto)]

pub mod line;
pub mod shelf;
