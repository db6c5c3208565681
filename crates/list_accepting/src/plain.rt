// The quick way for the clauses that are met most, whose pattern is a plain version: no `Version` is laid out for them.
ghost use Rattle.list_clauses.specs.Clause.{pattern_clause, clause_of};
ghost use Rattle.list_accepting.specs.Plain.{from_any_start, RightlyFound};

use list_clauses::clause::too_short;
use list_clauses::operator::{Operator, find_operator};
use version_reading::plain::{Plain, read_plain};

// The pattern after an operator. A plain one has no wildcard and no label, so that of the refusals of a pattern that was read only 16 is left.
fn find_pattern(operator: Operator, text: &[u8]) -> Option<(Operator, Plain)>
    ensures { RightlyFound (from_any_start (pattern_clause operator text.now)) result }
{
    let plain = read_plain(text)?;
    if too_short(operator, plain.count) {
        return None;
    }
    Some((operator, plain))
}

// The clause whose bytes without outer blanks these are, wherever it starts and they stand.
pub(crate) fn find_plain(bytes: &[u8]) -> Option<(Operator, Plain)>
    ensures { RightlyFound (clause_of bytes.now) result }
{
    if bytes.len() == 0 {
        return None;
    }
    let Some((operator, width)) = find_operator(bytes) else {
        return None;
    };
    find_pattern(operator, &bytes[width..])
}
