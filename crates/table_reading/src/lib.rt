// Range tables by the rules: their records, what a well-formed table says, and what a lookup has to answer (specs/); and the kinds of records.
#![tactic(auto)]

pub mod kind;
