// The lookup program: a list on the first line of standard input, a version on each line after it, and an answer line to each version.
#![tactic(auto)]

mod answer;

use answer::{LONGEST_ANSWER, put_answer};
use answer_lines::line::Line;
use answers::Refusal;
use chars::place::part;
use lines::source::Lines;
use std::io::{Read, Write};

// Longer texts and lists are refused whatever their end: a longer line is cut, and refused as what is there of it.
const LONGEST_LINE: usize = 1024;

fn main(rt: HostRuntime) {
    let mut input = rt.stdin();
    let mut output = rt.stdout();
    let mut buffer = lines::input::buffer();
    let mut table = [0u8; 16384];
    let mut lines = Lines::new(&mut input, &mut buffer, LONGEST_LINE);
    // An input with no line is an empty list.
    let _ = lines.advance();
    match table_compile::compile(lines.line(), &mut table) {
        Ok(n) => answer_versions(&mut lines, &mut output, part(&table, 0, n)),
        Err(refusal) => refuse_list(&mut output, refusal),
    }
}

fn refuse_list<W: Write>(output: &mut W, refusal: Refusal) {
    let mut out = [0u8; 64];
    let mut line = Line::new(&mut out);
    line.refusal(b"list refused ", refusal);
    // Nobody is left to be told of a write that fails.
    let _ = output.write_all(line.so_far());
}

// Gathers the answers and writes them whenever the next might find no room. The program `fits` has this loop too: as one function that is handed the
// writer of an answer it would be public and ask that each answer is short, and no public function asks anything (README).
fn answer_versions<R: Read, W: Write>(lines: &mut Lines<'_, R>, output: &mut W, table: &[u8]) {
    let mut out = [0u8; 65536];
    let mut answers = Line::new(&mut out);
    // A proved loop has to end, and nothing says that the input does: no run uses this count up.
    for _ in 0..u64::MAX {
        if !lines.advance() {
            break;
        }
        if !answers.make_room(output, LONGEST_ANSWER) {
            return;
        }
        put_answer(&mut answers, table, lines.line());
    }
    let _ = output.write_all(answers.so_far());
}
