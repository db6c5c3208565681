// What the programs print: lines put into a buffer, and room for the next one.
#![tactic(auto)]

pub mod line;
pub mod room;
pub mod text;
