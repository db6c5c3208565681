// No code: that looking up in a compiled table says what the clauses say, from bytes to bytes.
#![tactic(auto)]
