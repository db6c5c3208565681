// The parts of a word: each fits, or the version is not small.
ghost use Rattle.std.specs.Prelude.{◌≡◌, ◌-◌, ◌^◌, get_or, take};
ghost use Rattle.version_word.specs.Small.{alone, only_suffix};
ghost use Rattle.version_word.specs.Fitted.{FittedTo, numbers_fitted, suffix_fitted};

use version_parts::fields::{Pre, Release};

// The release number at a place, and 0 where there is none.
pub(crate) fn release_number(release: Release, at: usize) -> u64
    ensures { result ≡ get_or (take release.len release.numbers) at 0 }
{
    if release.len <= at {
        return 0;
    }
    if 16 <= at {
        return 0;
    }
    release.numbers[at]
}

pub(crate) fn numbers_word(first: u64, second: u64, third: u64, fourth: u64) -> Option<u64>
    ensures { FittedTo (2 ^ 64 - 2 ^ 24) (numbers_fitted first second third fourth) result }
{
    if 65535 < first {
        return None;
    }
    if 255 < second {
        return None;
    }
    if 255 < third {
        return None;
    }
    if 255 < fourth {
        return None;
    }
    Some(
        first * 0x1000000000000 + second * 0x10000000000 + third * 0x100000000 + fourth * 0x1000000,
    )
}

// The number, where it has room and neither other part is there.
fn alone_number(n: u64, a: Option<u64>, b: Option<u64>) -> Option<u64>
    ensures { FittedTo 2097151 (suffix_fitted (alone n a b)) result }
{
    if let Some(_) = a {
        return None;
    }
    if let Some(_) = b {
        return None;
    }
    if 2097151 < n {
        return None;
    }
    Some(n)
}

pub(crate) fn suffix_number(pre: Option<Pre>, post: Option<u64>, dev: Option<u64>) -> Option<u64>
    ensures { FittedTo 2097151 (suffix_fitted (only_suffix pre post dev)) result }
{
    if let Some((_, n)) = pre {
        return alone_number(n, post, dev);
    }
    if let Some(n) = post {
        return alone_number(n, None, dev);
    }
    if let Some(n) = dev {
        return alone_number(n, None, None);
    }
    Some(0)
}
