// What a register answers: the words, whose meaning is in specs/. Each answer exactly in its case: proofs/Exactly.
#![tactic(auto)]

pub mod lowest;
