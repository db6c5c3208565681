// What a list of clauses accepts of plain versions. It goes over the list as `accept` does, by the same laws; a loop of its own keeps the wide
// `Version` out of it.
ghost use Rattle.std.specs.Prelude.{◌≡◌, false, ◌&&◌, [], ◌≤◌, length};
ghost use Rattle.version_reading.specs.Plain.{FilledPlain};
ghost use Rattle.version_reading.specs.Value.{value_of};
ghost use Rattle.list_clauses.specs.Step.{part_at, clause_in};
ghost use Rattle.list_clauses.specs.List.{clauses_from, list_of};
ghost use Rattle.list_accepting.specs.Accept.{holds, told_by};
ghost use Rattle.list_accepting.specs.Plain.{plain_value, verdict_after};

use crate::accept::all_accept;
use crate::plain::find_plain;
use crate::plain_holds::holds_plain;
use answers::Refusal;
use chars::class;
use chars::place::part;
use list_clauses::operator::Operator;
use list_clauses::step::{Part, part_at, step_at};
use version_parts::fields::Version;
use version_reading::plain::{Plain, whole};

// After a clause that does not hold none is evaluated.
fn all_hold(before: bool, operator: Operator, version: Plain, candidate: Plain) -> bool
    requires { FilledPlain version × FilledPlain candidate }
    ensures { result ≡ before && holds operator false (plain_value version) (plain_value candidate) }
{
    before && holds_plain(operator, version, candidate)
}

// By the rules.
fn judge_version(list: &[u8], start: usize, before: bool, version: Version) -> Result<bool, Refusal>
    ensures { result ≡ verdict_after before (clause_in list.now start) (value_of [] version) }
{
    let clause = step_at(list, start).clause?;
    Ok(all_accept(before, clause, version))
}

// Whether the clause that starts at `start` and those before it hold. One that the quick way does not find is read by the rules.
fn judge_plain(
    list: &[u8],
    start: usize,
    here: Part,
    before: bool,
    candidate: Plain,
) -> Result<bool, Refusal>
    requires { (length list.now ≤ 1024) × (here ≡ part_at list.now start) × FilledPlain candidate }
    ensures { result ≡ verdict_after before (clause_in list.now start) (plain_value candidate) }
{
    match find_plain(part(list, here.from, here.to)) {
        None => judge_version(list, start, before, whole(candidate)),
        Some((operator, version)) => Ok(all_hold(before, operator, version, candidate)),
    }
}

fn accept_plains(list: &[u8], candidate: Plain) -> Result<bool, Refusal>
    requires { (length list.now ≤ 1024) × FilledPlain candidate }
    ensures { result ≡ told_by (clauses_from 16 list.now 0) (plain_value candidate) }
{
    let mut start = 0;
    let mut so_far = true;
    for _count in 0usize..16 {
        let here = part_at(list, start);
        so_far = judge_plain(list, start, here, so_far, candidate)?;
        if here.last {
            return Ok(so_far);
        }
        start = here.next;
    }
    Err(Refusal {
        number: 17,
        place: start,
    })
}

// What a list says of a plain version.
pub(crate) fn accept_plain(list: &[u8], candidate: Plain) -> Result<bool, Refusal>
    requires { FilledPlain candidate }
    ensures { result ≡ told_by (list_of list.now) (plain_value candidate) }
{
    if 1024 < list.len() {
        return Err(Refusal {
            number: 8,
            place: 1024,
        });
    }
    if class::run(list, class::BLANK, class::BLANK) == list.len() {
        return Ok(true);
    }
    accept_plains(list, candidate)
}
