// One step over the clauses of a list: whoever walks a list goes from clause to clause by it.
ghost use Rattle.std.specs.Prelude.{◌≤◌, max, length};
ghost use Rattle.list_clauses.specs.Clause.{ClauseIs};
ghost use Rattle.list_clauses.specs.Step.{PartIs, StepIs, clause_between};

use crate::clause::{Clause, read_clause};
use crate::trim::trimmed_len;
use answers::Refusal;
use chars::class;
use chars::place::part;
use chars::scan::find;

// A clause's part of the list, without outer blanks, and where the next clause starts. After the last one the list's end stands for that.
#[derive(Clone, Copy)]
pub struct Part {
    pub from: usize,
    pub to: usize,
    pub next: usize,
    pub last: bool,
}

#[derive(Clone, Copy)]
pub struct Step {
    pub clause: Result<Clause, Refusal>,
    pub part: Part,
}

// The part of the clause that starts at `start`, whatever stands before it. Past the end of the list it has no bytes, and is the last.
pub fn part_at(list: &[u8], start: usize) -> Part
    ensures { PartIs list.now start result }
{
    if list.len() < start {
        return Part {
            from: start,
            to: start,
            next: start,
            last: true,
        };
    }
    let comma = find(list, start, b',');
    let to = start + trimmed_len(&list[start..comma]);
    let from = start + class::run(&list[start..to], class::BLANK, class::BLANK);
    if comma == list.len() {
        return Part {
            from,
            to,
            next: comma,
            last: true,
        };
    }
    Part {
        from,
        to,
        next: comma + 1,
        last: false,
    }
}

// The clause that starts at `start`, and whose bytes are those from `from` to `to`.
fn clause_between(list: &[u8], start: usize, from: usize, to: usize) -> Result<Clause, Refusal>
    requires { (from ≤ to) × (to ≤ max from (length list.now)) }
    ensures { ClauseIs (clause_between list.now start from to) result }
{
    if 1024 < list.len() {
        return Err(Refusal {
            number: 8,
            place: 1024,
        });
    }
    read_clause(part(list, from, to), start, from)
}

// The clause that starts at `start`, its part, and where the next one starts. A clause without bytes is refused, as is one of too long a list.
pub fn step_at(list: &[u8], start: usize) -> Step
    ensures { StepIs list.now start result }
{
    let part = part_at(list, start);
    let clause = clause_between(list, start, part.from, part.to);
    Step { clause, part }
}
