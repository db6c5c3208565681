// One clause more: the rows of its two ends, and what it leaves of the ranges.
ghost use Rattle.std.specs.Prelude.{◌+◌, ◌*◌, ◌≤◌, ◌<◌, length};
ghost use Rattle.list_ends.specs.End.{place_of};
ghost use Rattle.list_fold.specs.Row.{EndsPut};
ghost use Rattle.list_fold.specs.Folded.{ClauseFolded};

use crate::clip::cut_down;
use crate::numbered_ranges::NumberedRanges;
use crate::row::key_row;
use crate::rows::put_row;
use list_clauses::clause::Clause;
use list_ends::clause_ends::{first_end, is_hollow, second_end};
use list_ends::end::End;

// Stores the rows of two ends, as those with that number and the next.
pub(crate) fn put_ends(rows: &mut [u64], number: usize, first: End, second: End)
    requires { (24 * number + 48 ≤ length rows.old) × (number < 33) }
    ensures { EndsPut number (place_of first) (place_of second) rows.old rows.new }
{
    put_row(rows, number, key_row(first));
    put_row(rows, number + 1, key_row(second));
}

// Folds the clause that has i before it.
pub(crate) fn fold_clause(
    rows: &mut [u64],
    ranges: NumberedRanges,
    clause: Clause,
    i: usize,
) -> NumberedRanges
    requires { (48 * i + 96 ≤ length rows.old) × (i < 16) × (ranges.count ≤ 17) }
    ensures { ClauseFolded i clause ranges rows.old rows.new result }
{
    let number = 2 * i + 2;
    put_ends(rows, number, first_end(clause), second_end(clause));
    cut_down(
        rows,
        ranges,
        is_hollow(clause),
        number as u8,
        (number + 1) as u8,
    )
}
