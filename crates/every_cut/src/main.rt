// Cuts each text on standard input, a line each, at every place and at every pair of places, and holds what the lumps are told to what the
// whole text is. A line for each text says what that was, and in how many ways it was cut.
#![tactic(auto)]

mod cut;
mod seen;

use answer_lines::line::Line;
use cut::{Tally, cut_everywhere};
use lines::source::Lines;
use seen::{Seen, whole};
use std::io::Write;

fn put_seen(line: &mut Line<'_>, seen: &Seen) {
    match seen.refused {
        None => line.text(b" bytes accepted"),
        Some((number, place)) => {
            line.text(b" bytes refused ");
            line.number(number as u64);
            line.text(b" at ");
            line.number(place as u64);
        }
    }
}

fn put_tally(line: &mut Line<'_>, tally: Tally) {
    line.text(b", cut in ");
    line.number(tally.ways);
    line.text(b" ways, told otherwise in ");
    line.number(tally.otherwise);
    line.byte(b'\n');
}

fn answer_line<W: Write>(output: &mut W, text: &[u8], out: &mut [u8]) {
    let seen = whole(text);
    let mut line = Line::new(out);
    line.number(text.len() as u64);
    put_seen(&mut line, &seen);
    put_tally(&mut line, cut_everywhere(text, &seen));
    // Nobody is left to be told of a write that fails.
    let _ = output.write_all(line.so_far());
}

fn main(rt: HostRuntime) {
    let mut input = rt.stdin();
    let mut output = rt.stdout();
    let mut buffer = lines::input::buffer();
    let mut out = [0u8; 128];
    let mut texts = Lines::new(&mut input, &mut buffer, 65536);
    // A proved loop has to end, and nothing says that the input does: no run uses this count up.
    for _ in 0..u64::MAX {
        if !texts.advance() {
            return;
        }
        answer_line(&mut output, texts.line(), &mut out);
    }
}
