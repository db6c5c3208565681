// Where the next answer goes in the buffer of answers.
ghost use Rattle.answer_lines.specs.Room.{RoomFor};

use chars::place::part;
use std::io::Write;

// Writes the answers that end at a place, if the next, which has at most `longest` bytes, might find no room after them.
pub fn make_room<W: Write>(output: &mut W, out: &[u8], end: usize, longest: usize) -> Option<usize>
    ensures { RoomFor out.now end longest result }
{
    if end <= out.len() {
        if longest <= out.len() - end {
            return Some(end);
        }
    }
    if output.write_all(part(out, 0, end)).is_ok() {
        return Some(0);
    }
    None
}
