// Both answers to each made question, and how often they were which.
use crate::made::{Seed, put_candidate};
use answer_lines::line::Line;
use answers::RefusedInput;
use chars::place::part;

const VERSIONS: u64 = 8;

// The counts stay below the number of questions, which nothing here says: past the last number they would stand still.
#[derive(Default, Drop)]
pub(crate) struct Tally {
    yes: u64,
    no: u64,
    refused: u64,
    differ: u64,
}

impl Tally {
    // What the clauses say, and what the table says: a list without a table is refused by its clauses too.
    fn count(
        &mut self,
        by_clauses: Result<bool, RefusedInput>,
        by_table: Option<Result<bool, RefusedInput>>,
    ) {
        let counter = match (by_clauses, by_table) {
            (Ok(true), Some(Ok(true))) => &mut self.yes,
            (Ok(false), Some(Ok(false))) => &mut self.no,
            (Err(RefusedInput::First(_)), None) => &mut self.refused,
            _ => &mut self.differ,
        };
        *counter = counter.saturating_add(1);
    }

    // Asks about a list and versions that are made in `text`; its table is compiled in `table`.
    pub(crate) fn ask(&mut self, list: &[u8], text: &mut [u8], table: &mut [u8], seed: &mut Seed) {
        let compiled = match table_compile::compile(list, table) {
            Ok(n) => Some(part(table, 0, n)),
            Err(_) => None,
        };
        for _ in 0..VERSIONS {
            let mut made = Line::new(text);
            put_candidate(&mut made, seed);
            let version = made.so_far();
            self.count(
                list_accepting::accepts(list, version),
                compiled.map(|table| table_lookup::lookup(table, version)),
            );
        }
    }

    pub(crate) fn put(&self, line: &mut Line<'_>) {
        line.number(self.yes);
        line.text(b" yes, ");
        line.number(self.no);
        line.text(b" no, ");
        line.number(self.refused);
        line.text(b" refused; ");
        line.number(self.differ);
        line.text(b" differ\n");
    }
}
