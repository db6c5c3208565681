// Writing the records of a table.
ghost use Rattle.std.specs.Prelude.{◌≡◌};
ghost use Rattle.decimal.specs.Put.{Put};
ghost use Rattle.records.specs.Record.{two_bytes_of, record_text};
ghost use Rattle.list_ends.specs.End.{place_of};
ghost use Rattle.table_reading.specs.Kind.{range_count};
ghost use Rattle.table_reading.specs.Text.{lower_kind, upper_kind};
ghost use Rattle.table_compile.specs.Body.{end_text};

use list_ends::end::{End, Side};
use records::record::put_head;
use records::two_bytes::put_two;
use table_reading::kind::{
    FROM_AFTER, FROM_BEFORE, NONE_ABOVE, NONE_BELOW, RANGE_COUNT, TO_AFTER, TO_BEFORE,
};
use version_normal::text::put_version;

// The first record, which says how many ranges there are.
pub(crate) fn put_count(buf: &mut [u8], at: usize, count: usize) -> usize
    ensures { Put 6 buf.old at (record_text range_count (two_bytes_of count)) buf.new result }
{
    let body = put_head(buf, at, 2, RANGE_COUNT);
    put_two(buf, body, count)
}

fn put_body(buf: &mut [u8], at: usize, end: End) -> usize
    ensures { Put 1049325 buf.old at (end_text end) buf.new result }
{
    match end.side {
        Side::Bottom => at,
        Side::Top => at,
        Side::Before => put_version(buf, at, b"", end.version),
        Side::After => put_version(buf, at, b"", end.version),
    }
}

// Above place 4294967296 the next place might not fit 64 bits: there a first run over no buffer tells the body's length.
fn put_far_end(buf: &mut [u8], at: usize, kind: usize, end: End) -> usize
    ensures { Put 1049329 buf.old at (record_text kind (end_text end)) buf.new result }
{
    let mut none = [0u8; 0];
    let len = put_body(&mut none, 0, end);
    let body = put_head(buf, at, len, kind);
    put_body(buf, body, end)
}

// The body's length stands in front of it: the body comes first, four bytes further on, and tells it.
pub(crate) fn put_end(buf: &mut [u8], at: usize, kind: usize, end: End) -> usize
    ensures { Put 1049329 buf.old at (record_text kind (end_text end)) buf.new result }
{
    if 4294967296 < at {
        return put_far_end(buf, at, kind, end);
    }
    let body = at + 4;
    let next = put_body(buf, body, end);
    put_head(buf, at, next - body, kind);
    next
}

pub(crate) fn lower_kind(end: End) -> usize
    ensures { result ≡ lower_kind (place_of end) }
{
    match end.side {
        Side::Bottom => NONE_BELOW,
        Side::Top => NONE_BELOW,
        Side::Before => FROM_BEFORE,
        Side::After => FROM_AFTER,
    }
}

pub(crate) fn upper_kind(end: End) -> usize
    ensures { result ≡ upper_kind (place_of end) }
{
    match end.side {
        Side::Bottom => NONE_ABOVE,
        Side::Top => NONE_ABOVE,
        Side::Before => TO_BEFORE,
        Side::After => TO_AFTER,
    }
}
