// The register program: a line for each entry of a register, an empty line, then a version on each line, and to each version which entry fits it.
#![tactic(auto)]

mod answer;
mod gather;

ghost use Rattle.std.specs.Prelude.{◌≡◌, length};

use answer::{LONGEST_ANSWER, put_entry_refusal, put_fit};
use answer_lines::line::Line;
use gather::{LONGEST_LINE, RefusedLine, gather};
use lines::source::Lines;
use register_entries::held::Held;
use std::io::{Read, Write};

// Room for the tables of 64 lists, 16,384 bytes each. Its length is said, so that nobody has to count the zeros again.
fn tables_room() -> [u8; 1048576]
    ensures { 1048576 ≡ length result }
{
    [0; 1048576]
}

fn main(rt: HostRuntime) {
    let mut input = rt.stdin();
    let mut output = rt.stdout();
    let mut buffer = lines::input::buffer();
    let mut tables = tables_room();
    let mut lines = Lines::new(&mut input, &mut buffer, LONGEST_LINE);
    match gather(&mut lines, &mut tables) {
        Ok(Some(shelf)) => answer_versions(&mut lines, &mut output, shelf.held, &tables),
        Ok(None) => {}
        Err(refused) => refuse_entry(&mut output, refused),
    }
}

fn refuse_entry<W: Write>(output: &mut W, refused: RefusedLine) {
    let mut out = [0u8; 128];
    let mut line = Line::new(&mut out);
    put_entry_refusal(&mut line, refused.number, refused.refusal);
    // Nobody is left to be told of a write that fails.
    let _ = output.write_all(line.so_far());
}

// Gathers the answers and writes them whenever the next might find no room.
fn answer_versions<R: Read, W: Write>(
    lines: &mut Lines<'_, R>,
    output: &mut W,
    held: Held,
    tables: &[u8],
) {
    let mut out = [0u8; 65536];
    let mut answers = Line::new(&mut out);
    // A proved loop has to end, and nothing says that the input does: no run uses this count up.
    for _ in 0..u64::MAX {
        if !lines.advance() {
            break;
        }
        if !answers.make_room(output, LONGEST_ANSWER) {
            return;
        }
        put_fit(&mut answers, held, tables, lines.line());
    }
    let _ = output.write_all(answers.so_far());
}
