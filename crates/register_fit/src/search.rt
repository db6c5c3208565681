// The search through the tables.
ghost use Rattle.std.specs.Prelude.{◌≡◌};
ghost use Rattle.table_lookup.specs.Lookup.{looked_row};
ghost use Rattle.register_rules.specs.Guilt.{table_in};
ghost use Rattle.register_fit.specs.Search.{met, SearchedBy};

use crate::lowest::lower;
use crate::tables::table_in;
use answers::{Refusal, RefusedInput};
use register_entries::entry::Entry;
use register_rules::lowest::Lowest;
use table_lookup::lookup_row;
use version_reading::text::Verdict;

// What a table makes of the two lowest so far, or its refusal, at that index.
fn meet(
    buffer: &[u8],
    verdict: Verdict,
    row: &[u64; 22],
    entry: Entry,
    i: usize,
    lowest: Lowest,
) -> Result<Lowest, Refusal>
    ensures { result ≡ met (looked_row (table_in buffer.now entry) verdict row.now) entry i lowest }
{
    match lookup_row(table_in(buffer, entry), verdict, row) {
        Ok(true) => Ok(lower(lowest, entry.id)),
        Ok(false) => Ok(lowest),
        Err(RefusedInput::Second(refusal)) => Ok(lowest),
        Err(RefusedInput::First(refusal)) => Err(Refusal {
            number: refusal.number,
            place: i,
        }),
    }
}

// The two lowest identifiers whose tables hold the version of which `read_row` said `verdict` and left `row`, or the first table that is refused.
#[tactic(auto, using(crate::proofs::Searching::search_start, crate::proofs::Searching::search_on, crate::proofs::Searching::search_over))]
pub(crate) fn search(
    entries: &[Entry],
    buffer: &[u8],
    verdict: Verdict,
    row: &[u64; 22],
) -> Result<Lowest, Refusal>
    ensures { SearchedBy buffer.now verdict row.now entries.now result }
{
    let mut lowest = Lowest::Nothing;
    for (i, entry) in entries.iter().enumerate() {
        lowest = meet(buffer, verdict, row, *entry, i, lowest)?;
    }
    Ok(lowest)
}
