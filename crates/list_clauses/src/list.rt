// Lists of clauses, with commas between them.
ghost use Rattle.std.specs.Prelude.{◌≡◌};
ghost use Rattle.list_clauses.specs.List.{clauses_from, count_of, checked};

use crate::step::step_at;
use answers::Refusal;
use chars::class;

fn check_clauses(list: &[u8]) -> Result<usize, Refusal>
    ensures { result ≡ count_of (clauses_from 16 list.now 0) }
{
    let mut start = 0;
    for count in 0..16 {
        let read = step_at(list, start);
        read.clause?;
        if read.part.last {
            return Ok(count + 1);
        }
        start = read.part.next;
    }
    Err(Refusal {
        number: 17,
        place: start,
    })
}

// How many clauses a list has. Blanks alone, or no byte, are a list of none.
pub fn check(list: &[u8]) -> Result<usize, Refusal>
    ensures { result ≡ checked list.now }
{
    if 1024 < list.len() {
        return Err(Refusal {
            number: 8,
            place: 1024,
        });
    }
    if class::run(list, class::BLANK, class::BLANK) == list.len() {
        return Ok(0);
    }
    check_clauses(list)
}
