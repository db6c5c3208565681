// What one clause accepts. The labels of versions are not looked at.
ghost use Rattle.std.specs.Prelude.{◌≡◌, ◌&&◌, []};
ghost use Rattle.order.specs.Ordering.{is_ge};
ghost use Rattle.version_reading.specs.Value.{value_of};
ghost use Rattle.version_order.specs.Versions.{compare_public};
ghost use Rattle.version_prefix.specs.Prefix.{prefix_matches, shorter};
ghost use Rattle.list_accepting.specs.Accept.{equals, clause_accepts};

use list_clauses::clause::Clause;
use list_clauses::operator::Operator;
use version_compare::version::compare_public;
use version_parts::fields::Version;
use version_prefix::prefix::{matches, matches_shorter};

// Equal in order, or with a wildcard a match.
fn equals(wildcard: bool, v: Version, w: Version) -> bool
    ensures { result ≡ equals wildcard (value_of [] v) (value_of [] w) }
{
    if wildcard {
        return matches(v, w);
    }
    compare_public(w, v).is_eq()
}

// At least v, and a match without its last release number.
fn compatible(v: Version, w: Version) -> bool
    ensures { result ≡ is_ge (compare_public (value_of [] w) (value_of [] v)) && prefix_matches (shorter (value_of [] v)) (value_of [] w) }
{
    compare_public(w, v).is_ge() && matches_shorter(v, w)
}

pub(crate) fn accepts_clause(clause: Clause, w: Version) -> bool
    ensures { result ≡ clause_accepts clause (value_of [] w) }
{
    let v = clause.version;
    match clause.operator {
        Operator::Equal => equals(clause.wildcard, v, w),
        Operator::NotEqual => !equals(clause.wildcard, v, w),
        Operator::Compatible => compatible(v, w),
        Operator::AtMost => compare_public(w, v).is_le(),
        Operator::AtLeast => compare_public(w, v).is_ge(),
        Operator::Below => compare_public(w, v).is_lt(),
        Operator::Above => compare_public(w, v).is_gt(),
    }
}
