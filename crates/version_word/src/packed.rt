// The word of a version's fields.
ghost use Rattle.std.specs.Prelude.{◌≡◌, []};
ghost use Rattle.version_reading.specs.Value.{value_of};
ghost use Rattle.version_word.specs.Beside.{word_beside, packed_word, word_of_plain};

use crate::small::{numbers_word, release_number, suffix_number};
use version_compare::key::kind_of;
use version_parts::fields::{Pre, Version};
use version_reading::plain::Plain;

// A word by itself, so that it is no release number.
#[derive(Clone, Copy, PartialEq, Eq, PartialOrd, Ord)]
pub struct Word(pub u64);

// The word of a version without epoch and label, of whose four release numbers those that are not there are 0.
fn packed(
    first: u64,
    second: u64,
    third: u64,
    fourth: u64,
    pre: Option<Pre>,
    post: Option<u64>,
    dev: Option<u64>,
) -> Option<Word>
    ensures { result ≡ packed_word first second third fourth pre post dev }
{
    let high = numbers_word(first, second, third, fourth)?;
    let low = suffix_number(pre, post, dev)?;
    Some(Word(high + kind_of(pre, post, dev) * 0x200000 + low))
}

// The word of a plain version, where it is small. No field is laid out for it.
pub fn word_of_plain(plain: Plain) -> Option<Word>
    ensures { result ≡ word_of_plain plain }
{
    packed(
        plain.first,
        plain.second,
        plain.third,
        plain.fourth,
        plain.pre,
        plain.post,
        plain.dev,
    )
}

// The word of a version, where it is small.
pub fn word_of(version: Version) -> Option<Word>
    ensures { result ≡ word_beside (value_of [] version) }
{
    if version.epoch != 0 {
        return None;
    }
    let release = version.release;
    if 4 < release.len {
        return None;
    }
    if version.local.len != 0 {
        return None;
    }
    let first = release_number(release, 0);
    let second = release_number(release, 1);
    let third = release_number(release, 2);
    let fourth = release_number(release, 3);
    packed(
        first,
        second,
        third,
        fourth,
        version.pre,
        version.post,
        version.dev,
    )
}
