// The order of versions by their fields: keys, labels, whole versions, plain ones.
#![tactic(auto)]

pub mod key;
pub mod label;
pub mod plain;
pub mod version;
