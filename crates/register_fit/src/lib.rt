// The register: which table fits a unit, by the version of its firmware.
#![tactic(auto)]

pub mod lent;
mod lowest;
pub mod plain;
mod rules;
mod search;
mod tables;
