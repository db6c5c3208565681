// Bytes as a version's text has them: classes, places, case, and the spellings of its parts.
#![tactic(auto)]

pub mod case;
pub mod class;
pub mod place;
pub mod same;
pub mod scan;
pub mod spelling;
