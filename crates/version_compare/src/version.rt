// The order of versions by their fields.
ghost use Rattle.std.specs.Prelude.{◌≡◌, []};
ghost use Rattle.order.specs.Answer.{name_of};
ghost use Rattle.version_reading.specs.Value.{value_of};
ghost use Rattle.version_order.specs.Versions.{compare_release, compare_public, compare_values};

use crate::key::key_of;
use crate::label::compare_labels;
use order::compare_numbers;
use std::cmp::Ordering;
use version_parts::fields::Version;

// The epochs, then the releases, the shorter continued with zeros.
fn compare_release(v: Version, w: Version) -> Ordering
    ensures { result ≡ name_of (compare_release (value_of [] v) (value_of [] w)) }
{
    let a = v.release;
    let b = w.release;
    let one = &a.numbers[..a.len.min(16)];
    let other = &b.numbers[..b.len.min(16)];
    v.epoch
        .cmp(&w.epoch)
        .then_with(|| compare_numbers(one, other))
}

// Two versions without their labels.
pub fn compare_public(v: Version, w: Version) -> Ordering
    ensures { result ≡ name_of (compare_public (value_of [] v) (value_of [] w)) }
{
    compare_release(v, w).then_with(|| key_of(v).cmp(&key_of(w)))
}

// Two versions, the label of the one lying in s and that of the other in t.
pub fn compare_versions(s: &[u8], v: Version, t: &[u8], w: Version) -> Ordering
    ensures { result ≡ name_of (compare_values (value_of s.now v) (value_of t.now w)) }
{
    compare_public(v, w).then_with(|| compare_labels(s, v, t, w))
}
