// Folding the clauses of a list: from the one range of everything, each clause in turn leaves what it accepts. The two ends of clause
// number i have the numbers 2 * i + 2 and the next; 0 is below all, and 1 above.
ghost use Rattle.std.specs.Prelude.{◌+◌, ◌*◌, ◌≤◌, min, length};
ghost use Rattle.list_clauses.specs.Commas.{commas_in};
ghost use Rattle.list_clauses.specs.List.{clauses_from};
ghost use Rattle.list_fold.specs.Folded.{FoldedBy, FoldedAs};

use crate::clause::{fold_clause, put_ends};
use crate::numbered_ranges::NumberedRanges;
use answers::Refusal;
use chars::class;
use list_clauses::commas::count_commas;
use list_clauses::step::step_at;
use list_ends::end::End;

// What a list that is read says: how many clauses it has, and the ranges of what all of them accept.
#[derive(Clone, Copy)]
pub struct Folded {
    pub count: usize,
    pub ranges: NumberedRanges,
}

// One pass over a list that is not blank: each clause is read and folded. `rows` has room for two rows, and two more for each clause.
fn fold_clauses(list: &[u8], rows: &mut [u64]) -> Result<Folded, Refusal>
    requires { 48 * min (commas_in list.now) 15 + 96 ≤ length rows.old }
    ensures { FoldedBy list.now (clauses_from 16 list.now 0) result }
{
    put_ends(rows, 0, End::bottom(), End::topmost());
    let mut ranges = NumberedRanges::everything();
    let mut start = 0;
    for count in 0usize..16 {
        let read = step_at(list, start);
        let clause = read.clause?;
        ranges = fold_clause(rows, ranges, clause, count);
        if read.part.last {
            return Ok(Folded {
                count: count + 1,
                ranges,
            });
        }
        start = read.part.next;
    }
    Err(Refusal {
        number: 17,
        place: start,
    })
}

// How many clauses a list has, and the ranges of what all of them accept; or the list's refusal. Most lists have few clauses, and need few rows.
pub fn fold(list: &[u8]) -> Result<Folded, Refusal>
    ensures { FoldedAs list.now result }
{
    if 1024 < list.len() {
        return Err(Refusal {
            number: 8,
            place: 1024,
        });
    }
    if class::run(list, class::BLANK, class::BLANK) == list.len() {
        return Ok(Folded {
            count: 0,
            ranges: NumberedRanges::everything(),
        });
    }
    if count_commas(list) <= 3 {
        let mut rows = [0u64; 240];
        return fold_clauses(list, &mut rows);
    }
    let mut rows = [0u64; 816];
    fold_clauses(list, &mut rows)
}
