// The two ends that a clause gives.
ghost use Rattle.std.specs.Prelude.{◌≡◌, [], ◌-◌, ◌≤◌};
ghost use Rattle.version_reading.specs.Value.{value_of};
ghost use Rattle.version_prefix.specs.Prefix.{cut_to, shorter};
ghost use Rattle.list_ends.specs.declared.end.Side.TheVariants.{Before, After};
ghost use Rattle.list_ends.specs.End.{place_at, most, EndIs};
ghost use Rattle.list_ends.specs.Ends.{match_end, equal_start, equal_end, first_end, second_end, hollow};

use crate::end::{End, Side};
use list_clauses::clause::Clause;
use list_clauses::operator::Operator;
use version_parts::fields::Version;
use version_prefix::next::{match_end, match_start};

fn before(version: Version) -> End
    ensures { EndIs (place_at Before version) (most version) result }
{
    End {
        side: Side::Before,
        version,
    }
}

fn after(version: Version) -> End
    ensures { EndIs (place_at After version) (most version) result }
{
    End {
        side: Side::After,
        version,
    }
}

// Where a match of the first `count` release numbers ends.
fn match_last(version: Version, count: usize) -> End
    requires { count ≤ version.release.len }
    ensures { EndIs (match_end (cut_to count (value_of [] version))) (most version) result }
{
    match match_end(version, count) {
        Some(next) => before(next),
        None => End::topmost(),
    }
}

fn first_equal(wildcard: bool, version: Version) -> End
    ensures { EndIs (equal_start wildcard (value_of [] version)) (most version) result }
{
    if wildcard {
        return before(match_start(version));
    }
    before(version)
}

fn last_equal(wildcard: bool, version: Version) -> End
    ensures { EndIs (equal_end wildcard (value_of [] version)) (most version) result }
{
    if wildcard {
        return match_last(version, version.release.len);
    }
    after(version)
}

// Where a match of all release numbers but the last ends. A version has 16 at most.
fn last_compatible(version: Version) -> End
    ensures { EndIs (match_end (shorter (value_of [] version))) (most version) result }
{
    match_last(version, version.release.len.min(16).saturating_sub(1))
}

// Where what a clause accepts begins, or, with `!=`, what it does not accept.
pub fn first_end(clause: Clause) -> End
    ensures { EndIs (first_end clause) (most clause.version) result }
{
    match clause.operator {
        Operator::Equal => first_equal(clause.wildcard, clause.version),
        Operator::NotEqual => first_equal(clause.wildcard, clause.version),
        Operator::Compatible => before(clause.version),
        Operator::AtMost => End::bottom(),
        Operator::AtLeast => before(clause.version),
        Operator::Below => End::bottom(),
        Operator::Above => after(clause.version),
    }
}

// Where it ends.
pub fn second_end(clause: Clause) -> End
    ensures { EndIs (second_end clause) (most clause.version) result }
{
    match clause.operator {
        Operator::Equal => last_equal(clause.wildcard, clause.version),
        Operator::NotEqual => last_equal(clause.wildcard, clause.version),
        Operator::Compatible => last_compatible(clause.version),
        Operator::AtMost => after(clause.version),
        Operator::AtLeast => End::topmost(),
        Operator::Below => before(clause.version),
        Operator::Above => End::topmost(),
    }
}

// `!=` accepts all but what lies between its ends.
pub fn is_hollow(clause: Clause) -> bool
    ensures { result ≡ hollow clause.operator }
{
    matches!(clause.operator, Operator::NotEqual)
}
