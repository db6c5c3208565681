// A reader of a version that comes in lumps: what it holds, and what it says.
#![tactic(auto)]

pub mod answer;
pub mod reader;
