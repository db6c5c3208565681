// No code: a theory for the crates above. specs/ says what cuts, ranges and tables are, and proofs/ has their laws.
#![tactic(auto)]
