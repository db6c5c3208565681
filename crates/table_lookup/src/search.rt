// The ranges of a table, in one pass: each is read, judged and held against a version's row.
ghost use Rattle.std.specs.Prelude.{◌≡◌, None};
ghost use Rattle.table_reading.specs.Table.{ranges_from, table_of};
ghost use Rattle.table_lookup.specs.Lookup.{searched_for};

use crate::end::held_between;
use crate::end_at::{BAD_TABLE, next_end};
use answers::Refusal;
use records::record::{RecordAt, record_at};
use records::two_bytes::two_at;
use table_reading::kind::{Due, Kind, kind_of};

// The next `count` ranges, from `start` on. Ends are read into two rows in turn, so that the end before is still there.
fn search_ranges(
    table: &[u8],
    count: usize,
    start: usize,
    candidate: &[u64; 22],
) -> Result<bool, Refusal>
    ensures { result ≡ searched_for candidate.now (ranges_from count None table.now start) }
{
    let mut low = [0u64; 22];
    let mut high = [0u64; 22];
    let mut held = false;
    let mut last = None;
    let mut next = start;
    for _read in 0..count {
        let lower = next_end(table, Due::Lower, next, last, &high, &mut low)?;
        let upper = next_end(
            table,
            Due::Upper,
            lower.next,
            Some(lower.side),
            &low,
            &mut high,
        )?;
        held = held_between(held, lower.side, &low, upper.side, &high, candidate);
        last = Some(upper.side);
        next = upper.next;
    }
    if next == table.len() {
        return Ok(held);
    }
    Err(BAD_TABLE)
}

// Whether `table` holds the version whose row is `candidate`. First the count of the ranges, then these.
pub fn search_table(table: &[u8], candidate: &[u64; 22]) -> Result<bool, Refusal>
    ensures { result ≡ searched_for candidate.now (table_of table.now) }
{
    let RecordAt::Found(number, start, next) = record_at(table, 0) else {
        return Err(BAD_TABLE);
    };
    let Kind::Count = kind_of(number) else {
        return Err(BAD_TABLE);
    };
    if next - start != 2 {
        return Err(BAD_TABLE);
    }
    let count = two_at(table, start);
    if 17 < count {
        return Err(BAD_TABLE);
    }
    search_ranges(table, count, next, candidate)
}
