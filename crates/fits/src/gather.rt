// Gathering the register from the first lines of the input.
ghost use Rattle.std.specs.Prelude.{◌≤◌, length};
ghost use Rattle.register_lines.specs.Shelved.{room_for_all};
ghost use Rattle.fits.specs.Gather.{Gathering};

use answers::Refusal;
use lines::source::Lines;
use register_lines::shelf::Shelf;
use std::io::Read;

// A longer line is cut, and taken for what is there of it.
pub(crate) const LONGEST_LINE: usize = 65536;

// Which line of the register is refused, counted from 1, and why.
#[derive(Clone, Copy)]
pub(crate) struct RefusedLine {
    pub number: usize,
    pub refusal: Refusal,
}

// The register of the lines up to the empty one, which the versions follow. None where the input ends before that line.
pub(crate) fn gather<R: Read>(
    lines: &mut Lines<'_, R>,
    tables: &mut [u8],
) -> Result<Option<Shelf>, RefusedLine>
    requires { room_for_all ≤ length tables.old }
    ensures { Gathering tables.new result }
{
    let mut shelf = Shelf::empty();
    // No run uses this count up: the 65th line is refused.
    for k in 0..65usize {
        if !lines.advance() {
            return Ok(None);
        }
        let line = lines.line();
        if line.is_empty() {
            return Ok(Some(shelf));
        }
        match shelf.enter(tables, line) {
            Ok(more) => shelf = more,
            Err(refusal) => {
                return Err(RefusedLine {
                    number: k + 1,
                    refusal,
                });
            }
        }
    }
    Ok(None)
}
