// The local label of a normal text.
ghost use Rattle.std.specs.Prelude.{◌+◌, length};
ghost use Rattle.chars.specs.Case.{lowered};
ghost use Rattle.decimal.specs.Put.{Put};
ghost use Rattle.version_normal.specs.Normal.{segment_text, label_text};

use crate::numbers::held;
use chars::case::lower;
use decimal::put::{further, put_byte, put_number};
use version_parts::fields::Local;
use version_reading::segment::{Segment, segment_bytes, segment_of};

fn store_lower(buf: &mut [u8], at: usize, s: &[u8]) -> usize
    ensures { Put (length s.now) buf.old at (lowered s.now) buf.new result }
{
    let mut next = at;
    for byte in s {
        next = put_byte(buf, next, lower(*byte));
    }
    next
}

// After the end nothing has room: so it is in each run that only asks for the length.
pub fn put_lower(buf: &mut [u8], at: usize, s: &[u8]) -> usize
    ensures { Put (length s.now) buf.old at (lowered s.now) buf.new result }
{
    if buf.len() <= at {
        return further(at, s.len());
    }
    store_lower(buf, at, s)
}

// A number without zeros in front, or text in lower case.
pub fn put_segment(buf: &mut [u8], at: usize, bytes: &[u8]) -> usize
    ensures { Put (length bytes.now + 20) buf.old at (segment_text bytes.now) buf.new result }
{
    match segment_of(bytes) {
        Segment::Number(n) => put_number(buf, at, n),
        Segment::Text => put_lower(buf, at, bytes),
    }
}

// A plus and the segments, joined by dots, where there is a label.
pub fn put_label(buf: &mut [u8], at: usize, s: &[u8], local: Local) -> usize
    ensures { Put 1048897 buf.old at (label_text s.now local) buf.new result }
{
    let count = held(local.len);
    if count == 0 {
        return at;
    }
    let first = put_byte(buf, at, b'+');
    let mut next = put_segment(buf, first, segment_bytes(s, local, 0));
    for i in 1..count {
        let dot = put_byte(buf, next, b'.');
        next = put_segment(buf, dot, segment_bytes(s, local, i));
    }
    next
}
