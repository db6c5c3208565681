// The segments of a local label, one by one.
ghost use Rattle.std.specs.Prelude.{◌≡◌};
ghost use Rattle.version_reading.specs.Segment.{BytesOf, segment_of, segment_text};

use crate::text::read_version;
use chars::class;
use chars::place::part;
use decimal::parse::parse_u64;
use version_parts::fields::Local;

// What a segment's bytes say: a number below 2^64, or text. No Option: text is a kind of segment, and not a number that is missing.
#[derive(Clone, Copy)]
pub enum Segment {
    Number(u64),
    Text,
}

pub fn segment_of(bytes: &[u8]) -> Segment
    ensures { result ≡ segment_of bytes.now }
{
    if class::run(bytes, class::DIGIT, class::DIGIT) != bytes.len() {
        return Segment::Text;
    }
    let Ok(n) = parse_u64(bytes) else {
        return Segment::Text;
    };
    Segment::Number(n)
}

// The bytes of the segment with that index, and none where there is no such segment.
pub fn segment_bytes(s: &[u8], local: Local, i: usize) -> &[u8]
    ensures { BytesOf s.now local i result.now }
{
    if local.len <= i {
        return &s[..0];
    }
    if 16 <= i {
        return &s[..0];
    }
    let span = local.spans[i];
    part(s, span.start as usize, span.end as usize)
}

// The text segment of a version's label with that index: none for a number, a missing segment or a refused text.
pub fn segment_text(s: &[u8], i: usize) -> &[u8]
    ensures { result.now ≡ segment_text s.now i }
{
    let read = read_version(s);
    let bytes = segment_bytes(s, read.version.local, i);
    let Segment::Text = segment_of(bytes) else {
        return &bytes[..0];
    };
    bytes
}
