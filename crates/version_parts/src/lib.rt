// The parts of a version: its fields by value, what stands at a place of the text, the release and the suffix.
#![tactic(auto)]

pub mod fields;
pub mod head;
pub mod places;
pub mod suffix;
