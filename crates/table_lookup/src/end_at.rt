// The next end of a table, which must lie strictly above the end before it.
ghost use Rattle.std.specs.Prelude.{◌≡◌};
ghost use Rattle.table_reading.specs.Body.{end_of};
ghost use Rattle.table_lookup.specs.Rows.{at_row, Said};
ghost use Rattle.table_lookup.specs.Ends.{over, EndAbove, NextEnd};

use crate::end::at_most;
use answers::Refusal;
use list_ends::end::Side;
use records::record::{RecordAt, record_at};
use table_reading::kind::{Due, Kind, kind_of};
use version_rows::normal::normal_row;

// The one refusal of a table.
pub(crate) const BAD_TABLE: Refusal = Refusal {
    number: 18,
    place: 0,
};

// The side of an end, and the place after its record. Its row stands beside it.
#[derive(Clone, Copy)]
pub struct EndAt {
    pub side: Side,
    pub next: usize,
}

// Whether `body` is right for an end of that side: none below and none above have no body, the others a version's normal text. Leaves its row.
fn body_row(side: Side, body: &[u8], row: &mut [u64; 22]) -> bool
    ensures { Said (end_of side body.now) result (at_row side row.new) }
{
    match side {
        Side::Bottom => body.len() == 0,
        Side::Top => body.len() == 0,
        Side::Before => normal_row(body, row),
        Side::After => normal_row(body, row),
    }
}

// The first end of a table has none before it.
fn is_above(side: Side, row: &[u64; 22], last: Option<Side>, below: &[u64; 22]) -> bool
    ensures { result ≡ over (at_row side row.now) last below.now }
{
    match last {
        None => true,
        Some(under) => !at_most(side, row, under, below),
    }
}

fn end_above(
    side: Side,
    body: &[u8],
    next: usize,
    last: Option<Side>,
    below: &[u64; 22],
    row: &mut [u64; 22],
) -> Result<EndAt, Refusal>
    ensures { EndAbove (end_of side body.now) next last below.now result row.new }
{
    if !body_row(side, body, row) {
        return Err(BAD_TABLE);
    }
    if !is_above(side, row, last, below) {
        return Err(BAD_TABLE);
    }
    Ok(EndAt { side, next })
}

// The end whose record stands at `at`, if it is the one that is due and lies above `last`, whose row is `below`. Leaves its row.
pub(crate) fn next_end(
    table: &[u8],
    due: Due,
    at: usize,
    last: Option<Side>,
    below: &[u64; 22],
    row: &mut [u64; 22],
) -> Result<EndAt, Refusal>
    ensures { NextEnd due table.now at last below.now result row.new }
{
    let RecordAt::Found(number, start, next) = record_at(table, at) else {
        return Err(BAD_TABLE);
    };
    let Kind::End(end, side) = kind_of(number) else {
        return Err(BAD_TABLE);
    };
    if due == end {
        return end_above(side, &table[start..next], next, last, below, row);
    }
    Err(BAD_TABLE)
}
