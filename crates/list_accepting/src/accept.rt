// What a list of clauses accepts.
ghost use Rattle.std.specs.Prelude.{◌≡◌, ◌&&◌, []};
ghost use Rattle.version_reading.specs.Value.{value_of};
ghost use Rattle.list_clauses.specs.List.{clauses_from, list_of};
ghost use Rattle.list_accepting.specs.Accept.{clause_accepts, told_by};

use crate::holds::accepts_clause;
use answers::Refusal;
use chars::class;
use list_clauses::clause::Clause;
use list_clauses::step::step_at;
use version_parts::fields::Version;

// After a clause that does not hold none is evaluated.
pub(crate) fn all_accept(before: bool, clause: Clause, version: Version) -> bool
    ensures { result ≡ before && clause_accepts clause (value_of [] version) }
{
    before && accepts_clause(clause, version)
}

// Each clause is read, also after one that does not hold: a list that is refused further on is refused.
fn accept_clauses(list: &[u8], version: Version) -> Result<bool, Refusal>
    ensures { result ≡ told_by (clauses_from 16 list.now 0) (value_of [] version) }
{
    let mut start = 0;
    let mut so_far = true;
    for _count in 0usize..16 {
        let read = step_at(list, start);
        let clause = read.clause?;
        so_far = all_accept(so_far, clause, version);
        if read.part.last {
            return Ok(so_far);
        }
        start = read.part.next;
    }
    Err(Refusal {
        number: 17,
        place: start,
    })
}

// What a list says of a version that was read.
pub(crate) fn accept_version(list: &[u8], version: Version) -> Result<bool, Refusal>
    ensures { result ≡ told_by (list_of list.now) (value_of [] version) }
{
    if 1024 < list.len() {
        return Err(Refusal {
            number: 8,
            place: 1024,
        });
    }
    if class::run(list, class::BLANK, class::BLANK) == list.len() {
        return Ok(true);
    }
    accept_clauses(list, version)
}
