// The conformance program: questions on standard input, a line each, and an answer line to each on standard output.
#![tactic(auto)]

mod answer;
mod decode;
mod events;
mod listed;
mod say;

use answer::{LONGEST_LINE, answer};
use answer_lines::line::Line;
use lines::source::Lines;
use std::io::Write;

fn answer_line<W: Write>(output: &mut W, question: &[u8], out: &mut [u8]) {
    let mut line = Line::new(out);
    if answer(output, question, &mut line).is_none() {
        line.clear();
        line.text(b"not a question");
    }
    line.byte(b'\n');
    // Nobody is left to be told of a write that fails.
    let _ = output.write_all(line.so_far());
}

fn main(rt: HostRuntime) {
    let mut input = rt.stdin();
    let mut output = rt.stdout();
    let mut buffer = lines::input::buffer();
    let mut out = [0u8; 65536];
    let mut questions = Lines::new(&mut input, &mut buffer, LONGEST_LINE);
    // A proved loop has to end, and nothing says that the input does: no run uses this count up.
    for _ in 0..u64::MAX {
        if !questions.advance() {
            return;
        }
        answer_line(&mut output, questions.line(), &mut out);
    }
}
