// Cutting ranges down to what a clause accepts. Ends compare by their rows.
ghost use Rattle.std.specs.Prelude.{◌≡◌, [], ◌++◌, ◌+◌, ◌≤◌, ◌<◌};
ghost use Rattle.ranges.specs.Compile.{tighter, keep as kept, clip as clipped, step as stepped};
ghost use Rattle.list_ends.specs.Shape.{shaped};
ghost use Rattle.list_fold.specs.Row.{le_row};
ghost use Rattle.list_fold.specs.Ranges.{Holds, range_of, ranges_in, packed};
ghost use Rattle.list_fold.specs.Folded.{PartKept};

use crate::numbered_ranges::{NumberedRange, NumberedRanges};
use crate::rows::at_most;

// The greater of two lower ends; of equal ones the old.
fn lower(rows: &[u64], new: u8, old: u8) -> u8
    ensures { result ≡ tighter (le_row rows.now) new old }
{
    if at_most(rows, new, old) { old } else { new }
}

// The smaller of two upper ends; of equal ones the old.
fn upper(rows: &[u64], new: u8, old: u8) -> u8
    ensures { result ≡ tighter (λ a b. le_row rows.now b a) new old }
{
    if at_most(rows, old, new) { old } else { new }
}

// One more range after the others, unless it is empty.
fn keep(rows: &[u64], ranges: NumberedRanges, range: NumberedRange) -> NumberedRanges
    requires { (ranges.count < 34) × Holds ranges.count (ranges_in ranges) ranges }
    ensures { Holds (ranges.count + 1) (ranges_in ranges ++ kept (le_row rows.now) (range_of range) []) result }
{
    if at_most(rows, range.high, range.low) {
        return ranges;
    }
    ranges.push(range)
}

// One more part after the others: what lies between two ends of the old range, unless that is empty.
fn keep_part(
    rows: &[u64],
    parts: NumberedRanges,
    low: u8,
    high: u8,
    old: NumberedRange,
) -> NumberedRanges
    requires { (parts.count < 34) × Holds parts.count (ranges_in parts) parts }
    ensures { PartKept rows.now parts low high old result }
{
    let part = NumberedRange {
        low: lower(rows, low, old.low),
        high: upper(rows, high, old.high),
    };
    keep(rows, parts, part)
}

// The parts of the old ranges between two ends, after the others.
pub(crate) fn clip(
    rows: &[u64],
    old: NumberedRanges,
    low: u8,
    high: u8,
    others: NumberedRanges,
) -> NumberedRanges
    requires { (old.count ≤ 17) × (others.count ≤ 17) × Holds others.count (ranges_in others) others }
    ensures { Holds (others.count + old.count) (ranges_in others ++ clipped (le_row rows.now) low high (ranges_in old)) result }
{
    let ranges = old.ranges();
    let mut parts = others;
    for range in ranges {
        parts = keep_part(rows, parts, low, high, *range);
    }
    parts
}

// The parts of the old ranges that a clause accepts, by the numbers of its two ends: what lies between them, or, around a hole, first all
// that lies below it and then all that lies above.
pub(crate) fn cut_down(
    rows: &[u64],
    old: NumberedRanges,
    hollow: bool,
    low: u8,
    high: u8,
) -> NumberedRanges
    requires { old.count ≤ 17 }
    ensures { result ≡ packed (stepped (le_row rows.now) 0 1 (shaped hollow low high) (ranges_in old)) }
{
    if hollow {
        let below = clip(rows, old, 0, low, NumberedRanges::none());
        return clip(rows, old, high, 1, below);
    }
    clip(rows, old, low, high, NumberedRanges::none())
}
