// Comparing the versions that two texts say: by their words, where both have one.
ghost use Rattle.std.specs.Prelude.{◌≡◌};
ghost use Rattle.order.specs.Answer.{name_of};
ghost use Rattle.version_reading.specs.declared.text.Verdict.TheVariants.{Accepted};
ghost use Rattle.version_reading.specs.Plain.{PlainRead, plain_of};
ghost use Rattle.version_reading.specs.Value.{value_in};
ghost use Rattle.version_order.specs.Versions.{compare_values};
ghost use Rattle.version_order.specs.Compared.{answered, compared};
ghost use Rattle.version_compare.specs.Plain.{compare_plains};
ghost use Rattle.version.specs.Reading.{TextRead};

use crate::reading::{Reading, read_from};
use answers::RefusedInput;
use std::cmp::Ordering;
use version_compare::plain::compare_plains;
use version_compare::version::compare_versions;
use version_reading::plain::{Plain, read_plain};
use version_reading::text::Verdict;
use version_word::packed::word_of_plain;

fn answer(order: Ordering) -> Result<Ordering, RefusedInput>
    ensures { result ≡ answered order }
{
    match order {
        Ordering::Less => Ok(Ordering::Less),
        Ordering::Equal => Ok(Ordering::Equal),
        Ordering::Greater => Ok(Ordering::Greater),
    }
}

// Two plain versions.
fn compare_plain(v: Plain, w: Plain) -> Ordering
    ensures { result ≡ name_of (compare_plains v w) }
{
    match (word_of_plain(v), word_of_plain(w)) {
        (Some(one), Some(other)) => one.cmp(&other),
        _ => compare_plains(v, w),
    }
}

// Two accepted texts, of which `one` and `other` were read.
fn compare_accepted(first: &[u8], one: Reading, second: &[u8], other: Reading) -> Ordering
    requires { TextRead first.now one × (one.verdict ≡ Accepted) × TextRead second.now other × (other.verdict ≡ Accepted) }
    ensures { result ≡ name_of (compare_values (value_in first.now) (value_in second.now)) }
{
    match (one.word, other.word) {
        (Some(m), Some(n)) => m.cmp(&n),
        _ => compare_versions(first, one.version, second, other.version),
    }
}

// Two texts of which `one` and `other` are the quick readings.
fn compare_read(
    first: &[u8],
    one: Option<Plain>,
    second: &[u8],
    other: Option<Plain>,
) -> Result<Ordering, RefusedInput>
    requires { PlainRead (plain_of first.now) one × PlainRead (plain_of second.now) other }
    ensures { result ≡ compared first.now second.now }
{
    let v = read_from(first, one);
    if let Verdict::Refused(refusal) = v.verdict {
        return Err(RefusedInput::First(refusal));
    }
    let w = read_from(second, other);
    if let Verdict::Refused(refusal) = w.verdict {
        return Err(RefusedInput::Second(refusal));
    }
    answer(compare_accepted(first, v, second, w))
}

// Two plain versions, as most are, are compared without their fields being laid out.
pub(crate) fn compare_texts(first: &[u8], second: &[u8]) -> Result<Ordering, RefusedInput>
    ensures { result ≡ compared first.now second.now }
{
    let one = read_plain(first);
    let other = read_plain(second);
    if let (Some(v), Some(w)) = (one, other) {
        return answer(compare_plain(v, w));
    }
    compare_read(first, one, second, other)
}
