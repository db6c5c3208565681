// What `==V.*` matches.
ghost use Rattle.std.specs.Prelude.{◌≡◌, [], ◌-◌, length, take};
ghost use Rattle.version_reading.specs.Value.{value_of};
ghost use Rattle.version_prefix.specs.Prefix.{begins, prefix_matches, cut_to, shorter};

use order::number_at;
use version_parts::fields::{Release, Version};

// Whether numbers begin with those of a prefix, 0 standing where there is none.
pub fn begins_with(numbers: &[u64], prefix: &[u64]) -> bool
    ensures { result ≡ begins prefix.now numbers.now }
{
    // no chain: one by `all` takes six instructions more a call
    for (i, wanted) in prefix.iter().enumerate() {
        let number = number_at(numbers, i);
        if *wanted != number {
            return false;
        }
    }
    true
}

// Whether `release` begins with the first `count` numbers of `prefix`.
fn release_begins(release: Release, prefix: Release, count: usize) -> bool
    ensures { result ≡ begins (take count (take prefix.len prefix.numbers)) (take release.len release.numbers) }
{
    let numbers = release.numbers;
    let wanted = prefix.numbers;
    let n = release.len.min(16);
    let m = prefix.len.min(count).min(16);
    begins_with(&numbers[..n], &wanted[..m])
}

// Whether w has the epoch of v, and begins with the first `count` numbers of its release.
pub fn matches_prefix(v: Version, count: usize, w: Version) -> bool
    ensures { result ≡ prefix_matches (cut_to count (value_of [] v)) (value_of [] w) }
{
    if v.epoch != w.epoch {
        return false;
    }
    release_begins(w.release, v.release, count)
}

// How many numbers a release has without its last.
fn all_but_last(release: Release) -> usize
    ensures { result ≡ length (take release.len release.numbers) - 1 }
{
    release.len.min(16).saturating_sub(1)
}

// Whether w matches the whole release of v.
pub fn matches(v: Version, w: Version) -> bool
    ensures { result ≡ prefix_matches (value_of [] v) (value_of [] w) }
{
    matches_prefix(v, v.release.len, w)
}

// Whether w matches the release of v less its last number.
pub fn matches_shorter(v: Version, w: Version) -> bool
    ensures { result ≡ prefix_matches (shorter (value_of [] v)) (value_of [] w) }
{
    let count = all_but_last(v.release);
    matches_prefix(v, count, w)
}
