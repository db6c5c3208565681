// The order of local labels, segment by segment.
ghost use Rattle.std.specs.Prelude.{◌≡◌};
ghost use Prim.Native.Nat.{compare};
ghost use Rattle.chars.specs.Case.{lowered};
ghost use Rattle.order.specs.Compare.{list};
ghost use Rattle.order.specs.Answer.{name_of};
ghost use Rattle.version_reading.specs.Value.{label_from, value_of};
ghost use Rattle.version_order.specs.Versions.{compare_label};

use chars::case::lower;
use std::cmp::Ordering;
use version_parts::fields::Version;
use version_reading::segment::{Segment, segment_bytes, segment_of};

// Two texts in lower case, byte by byte, a proper beginning first.
fn compare_lowered(a: &[u8], b: &[u8]) -> Ordering
    ensures { result ≡ name_of (list compare (lowered a.now) (lowered b.now)) }
{
    // by place: a zip costs two instructions more for each byte
    for i in 0..a.len().min(b.len()) {
        let x = lower(a[i]);
        let y = lower(b[i]);
        if x != y {
            return x.cmp(&y);
        }
    }
    a.len().cmp(&b.len())
}

// Two segments by their bytes: text below number.
fn compare_segments(a: &[u8], b: &[u8]) -> Ordering
    ensures { result ≡ name_of (compare_label (label_from a.now) (label_from b.now)) }
{
    match segment_of(a) {
        Segment::Number(m) => match segment_of(b) {
            Segment::Number(n) => m.cmp(&n),
            Segment::Text => Ordering::Greater,
        },
        Segment::Text => match segment_of(b) {
            Segment::Number(_) => Ordering::Less,
            Segment::Text => compare_lowered(a, b),
        },
    }
}

// The labels of two versions, the one lying in s and the other in t.
pub(crate) fn compare_labels(s: &[u8], v: Version, t: &[u8], w: Version) -> Ordering
    ensures { result ≡ name_of (list compare_label (value_of s.now v).label (value_of t.now w).label) }
{
    let a = v.local;
    let b = w.local;
    let m = a.len.min(16);
    let n = b.len.min(16);
    for i in 0..m.min(n) {
        let one = segment_bytes(s, a, i);
        let other = segment_bytes(t, b, i);
        let by_segment = compare_segments(one, other);
        let Ordering::Equal = by_segment else {
            return by_segment;
        };
    }
    m.cmp(&n)
}
