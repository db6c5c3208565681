// Ends as a side and a row: how two of them compare, and what lies between two. Below all and above all stand beside any row.
ghost use Rattle.std.specs.Prelude.{◌≡◌, ◌||◌};
ghost use Rattle.ranges.specs.Cut.{before};
ghost use Rattle.ranges.specs.Range.{within};
ghost use Rattle.table_lookup.specs.Rows.{le_row, at_row};

use list_ends::end::{Side, level_of, side_of};
use std::cmp::Ordering;
use version_rows::row::compare_rows;

// Whether the end `a` at `row` lies at or below the end `b` at `against`: by level, then by row, then by side.
pub(crate) fn at_most(a: Side, row: &[u64; 22], b: Side, against: &[u64; 22]) -> bool
    ensures { result ≡ le_row (at_row a row.now) (at_row b against.now) }
{
    let low = level_of(a);
    let high = level_of(b);
    if low != high {
        return low <= high;
    }
    if low != 1 {
        return true;
    }
    match compare_rows(row, against) {
        Ordering::Less => true,
        Ordering::Equal => side_of(a) <= side_of(b),
        Ordering::Greater => false,
    }
}

// Whether an earlier range holds the version of the row `candidate`, or the range from `from` at `low` to `to` at `high` does.
pub(crate) fn held_between(
    earlier: bool,
    from: Side,
    low: &[u64; 22],
    to: Side,
    high: &[u64; 22],
    candidate: &[u64; 22],
) -> bool
    ensures { result ≡ earlier || within le_row (at_row from low.now) (at_row to high.now) (before candidate.now) }
{
    if earlier {
        return true;
    }
    if at_most(from, low, Side::Before, candidate) {
        return !at_most(to, high, Side::Before, candidate);
    }
    false
}
