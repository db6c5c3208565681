// Writing a table whose ranges are given by the numbers of their ends.
ghost use Rattle.std.specs.Prelude.{◌++◌, ◌+◌, ◌*◌, ◌≤◌, length};
ghost use Rattle.answers.specs.Printed.{Printed};
ghost use Rattle.decimal.specs.Put.{Put};
ghost use Rattle.list_ends.specs.Number.{place_number};
ghost use Rattle.table_reading.specs.Text.{lower_text, upper_text, ranges_text, table_text};
ghost use Rattle.table_compile.specs.Said.{said_by};

use crate::record::{lower_kind, put_count, put_end, upper_kind};
use answers::Refusal;
use list_fold::end_number::end_number;
use list_fold::numbered_ranges::NumberedRange;

fn put_range(buf: &mut [u8], at: usize, list: &[u8], range: NumberedRange) -> usize
    ensures { Put 2098658 buf.old at (lower_text (place_number list.now range.low) ++ upper_text (place_number list.now range.high)) buf.new result }
{
    let lower = end_number(list, range.low as usize);
    let upper = end_number(list, range.high as usize);
    let middle = put_end(buf, at, lower_kind(lower), lower);
    put_end(buf, middle, upper_kind(upper), upper)
}

fn put_ranges(buf: &mut [u8], at: usize, list: &[u8], ranges: &[NumberedRange]) -> usize
    requires { length ranges.now ≤ 17 }
    ensures { Put 35677186 buf.old at (ranges_text (said_by list.now ranges.now)) buf.new result }
{
    let mut next = at;
    for range in ranges {
        next = put_range(buf, next, list, *range);
    }
    next
}

fn put_table(buf: &mut [u8], at: usize, list: &[u8], ranges: &[NumberedRange]) -> usize
    requires { length ranges.now ≤ 17 }
    ensures { Put 35677192 buf.old at (table_text (said_by list.now ranges.now)) buf.new result }
{
    let first = put_count(buf, at, ranges.len());
    put_ranges(buf, first, list, ranges)
}

// Writes the table to the front of a buffer, or says how much room it needs: a first run over no buffer tells.
fn print_measured(list: &[u8], ranges: &[NumberedRange], buf: &mut [u8]) -> Result<usize, Refusal>
    requires { length ranges.now ≤ 17 }
    ensures { Printed (table_text (said_by list.now ranges.now)) buf.old buf.new result }
{
    let mut none = [0u8; 0];
    let need = put_table(&mut none, 0, list, ranges);
    if buf.len() < need {
        return Err(Refusal {
            number: 11,
            place: need,
        });
    }
    let end = put_table(buf, 0, list, ranges);
    Ok(end)
}

// The same. No end's text has more than 427 bytes, so that a buffer with room for as many as that needs no first run.
pub(crate) fn print_table(
    list: &[u8],
    ranges: &[NumberedRange],
    buf: &mut [u8],
) -> Result<usize, Refusal>
    requires few { length ranges.now ≤ 17 }
    requires short { length (table_text (said_by list.now ranges.now)) ≤ 862 * length ranges.now + 6 }
    ensures { Printed (table_text (said_by list.now ranges.now)) buf.old buf.new result }
{
    if buf.len() < 862 * ranges.len() + 6 {
        return print_measured(list, ranges, buf);
    }
    Ok(put_table(buf, 0, list, ranges))
}
