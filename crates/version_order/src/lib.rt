// The order of versions, defined: the words that it is said in, whose meaning is in specs/, and its laws in proofs/Orders.
#![tactic(auto)]

pub mod key;
