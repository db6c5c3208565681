// A line of a register: an identifier, one blank, a list of clauses.
ghost use Rattle.std.specs.Prelude.{◌≡◌};
ghost use Rattle.register_lines.specs.Line.{SpaceAt, id_where, id_said, id_of, list_in};

use chars::scan::find;
use decimal::parse::leading_number;

// Where the first blank stands, or the line's end where there is none.
fn space_at(line: &[u8]) -> usize
    ensures { SpaceAt line.now result }
{
    find(line, 0, b' ')
}

// A number that takes all the bytes of its text is an identifier if 16 bits can say it; 0 is none.
#[tactic(auto, using(crate::proofs::Lines::in_part, crate::proofs::Lines::in_whole))]
fn id_where(number: u64, digits: usize, size: usize) -> u16
    ensures { result ≡ id_where number digits size }
{
    if digits != size {
        return 0;
    }
    u16::try_from(number).unwrap_or(0)
}

fn id_said(text: &[u8]) -> u16
    ensures { result ≡ id_said text.now }
{
    let Ok(Some((number, digits))) = leading_number(text) else {
        return 0;
    };
    id_where(number, digits, text.len())
}

// The identifier of a line, and 0 where it has none.
#[tactic(auto, using(crate::proofs::Lines::id_before, crate::proofs::Lines::id_missing))]
pub fn id_of(line: &[u8]) -> u16
    ensures { result ≡ id_of line.now }
{
    let space = space_at(line);
    if space < line.len() {
        return id_said(&line[..space]);
    }
    0
}

// What stands after the first blank, which is nothing where there is none.
#[tactic(auto, using(crate::proofs::Lines::list_behind, crate::proofs::Lines::list_missing))]
pub fn list_of(line: &[u8]) -> &[u8]
    ensures { result.now ≡ list_in line.now }
{
    match line.get(space_at(line) + 1..) {
        Some(list) => list,
        None => &[],
    }
}
