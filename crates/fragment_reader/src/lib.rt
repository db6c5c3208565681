// A version that comes in lumps: take them, mark the end, and hear what the whole text would have been told.
#![tactic(auto)]

mod hold;
pub mod lent;
pub mod reader;
