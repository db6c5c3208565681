// Made lists and versions: what the clauses say one by one, beside what the list's table says.
#![tactic(auto)]

mod made;
mod tally;

use answer_lines::line::Line;
use made::{Seed, put_list};
use std::io::Write;
use tally::Tally;

const LISTS: u64 = 5000;

fn main(rt: HostRuntime) {
    let mut list = [0u8; 4096];
    let mut text = [0u8; 4096];
    let mut table = [0u8; 65536];
    let mut tally = Tally::default();
    let mut seed = Seed::first();
    for _ in 0..LISTS {
        let mut made = Line::new(&mut list);
        put_list(&mut made, &mut seed);
        tally.ask(made.so_far(), &mut text, &mut table, &mut seed);
    }
    let mut out = [0u8; 256];
    let mut line = Line::new(&mut out);
    tally.put(&mut line);
    let mut output = rt.stdout();
    // Nobody is left to be told of a write that fails.
    let _ = output.write_all(line.so_far());
}
