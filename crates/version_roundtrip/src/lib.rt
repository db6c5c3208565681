// No code: what reading and normal text have to do with each other. specs/ says what the normal text of a value is and which values
// can be read, and proofs/ has the theorems.
#![tactic(auto)]
