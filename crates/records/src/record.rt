// A record: two bytes body length, two bytes kind, body.
ghost use Rattle.decimal.specs.Put.{Put};
ghost use Rattle.records.specs.Record.{RecordRead, head_text};

use crate::two_bytes::{put_two, two_at};

// What stands at a place: a whole record, with its kind, the place where its body starts and the place after it; some bytes of a record, but
// not all; or no byte at all. No Option: a record that is cut short is told apart from none.
#[derive(Clone, Copy)]
pub enum RecordAt {
    Found(usize, usize, usize),
    Cut,
    Nothing,
}

pub fn record_at(s: &[u8], at: usize) -> RecordAt
    ensures { RecordRead s.now at result }
{
    if s.len() <= at {
        return RecordAt::Nothing;
    }
    let left = s.len() - at;
    let len = two_at(s, at);
    if 4 + len <= left {
        return RecordAt::Found(two_at(s, at + 2), at + 4, at + 4 + len);
    }
    RecordAt::Cut
}

// Writes what stands in front of a body of len bytes.
pub fn put_head(buf: &mut [u8], at: usize, len: usize, kind: usize) -> usize
    ensures { Put 4 buf.old at (head_text len kind) buf.new result }
{
    let middle = put_two(buf, at, len);
    put_two(buf, middle, kind)
}
