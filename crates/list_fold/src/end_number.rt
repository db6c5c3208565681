// The ends of a list by number: 0 below all, 1 above all, then the two ends of each clause in turn.
ghost use Rattle.list_ends.specs.End.{EndIs};
ghost use Rattle.list_ends.specs.Number.{place_from, place_number};

use list_clauses::step::{part_at, step_at};
use list_ends::clause_ends::{first_end, second_end};
use list_ends::end::{End, Side};
use version_parts::fields::Version;

// The ends of the clauses alone. A clause that is refused has the ends of the blank version.
fn clause_end(list: &[u8], number: usize) -> End
    ensures { EndIs (place_from list.now 0 number) 16 result }
{
    let mut start = 0;
    for _passed in 0..number / 2 {
        start = part_at(list, start).next;
    }
    match step_at(list, start).clause {
        Ok(clause) => {
            if number % 2 == 0 {
                first_end(clause)
            } else {
                second_end(clause)
            }
        }
        Err(_) => {
            let version = Version::none();
            if number % 2 == 0 {
                End {
                    side: Side::Before,
                    version,
                }
            } else {
                End {
                    side: Side::After,
                    version,
                }
            }
        }
    }
}

// The end with that number. After the last clause's ends come those of a clause without bytes, which is refused.
pub fn end_number(list: &[u8], number: usize) -> End
    ensures { EndIs (place_number list.now number) 16 result }
{
    if number == 0 {
        return End::bottom();
    }
    if number == 1 {
        return End::topmost();
    }
    clause_end(list, number - 2)
}
