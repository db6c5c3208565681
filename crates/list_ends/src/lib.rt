// The ends of ranges: as places between versions, and as clauses give them.
#![tactic(auto)]

pub mod clause_ends;
pub mod end;
