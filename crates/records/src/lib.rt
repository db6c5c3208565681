// Records, each a body after its length and its kind: reading them from any bytes, and writing them into a lent buffer.
#![tactic(auto)]

pub mod record;
pub mod two_bytes;
