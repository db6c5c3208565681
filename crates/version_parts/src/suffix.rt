// Rules 5 to 7: pre-release, post-release and development release.
ghost use Rattle.std.specs.Prelude.{◌+◌, ◌≤◌, length};
ghost use Rattle.chars.specs.Spelling.{spelling_length};
ghost use Rattle.version_parts.specs.Suffix.{CountRead, PreRead, PartRead, SuffixRead, number_or_zero, pre_at, part_from, spelled_post, post_at, dev_at, suffix_at};

use crate::fields::Pre;
use crate::places::{marked_number, number_at, separator_end};
use answers::Refusal;
use chars::spelling::{dev_spelling, post_spelling, pre_spelling};

// The parts of a suffix, each if it is there: the pre-release, the post-release and the development release.
pub type Suffix = (Option<Pre>, Option<u64>, Option<u64>);

// An optional separator, then a number or 0. As with each part, the place after it comes with it.
fn number_or_zero(s: &[u8], at: usize) -> Result<(u64, usize), Refusal>
    requires { at ≤ length s.now }
    ensures { CountRead s.now (number_or_zero s.now at) result }
{
    let digits = separator_end(s, at);
    Ok(number_at(s, digits)?.unwrap_or((0, digits)))
}

fn read_pre(s: &[u8], at: usize) -> Result<(Option<Pre>, usize), Refusal>
    requires { at ≤ length s.now }
    ensures { PreRead s.now (pre_at s.now at) result }
{
    let from = separator_end(s, at);
    let Some((kind, len)) = pre_spelling(&s[from..]) else {
        return Ok((None, at));
    };
    let (n, next) = number_or_zero(s, from + len)?;
    Ok((Some((kind, n)), next))
}

// A part whose spelling was looked for at from. Where there is none, the cursor is the old one, before the separator.
fn read_spelled(
    s: &[u8],
    at: usize,
    from: usize,
    spelling: Option<usize>,
) -> Result<(Option<u64>, usize), Refusal>
    requires { (at ≤ length s.now) × (from + spelling_length spelling ≤ length s.now) }
    ensures { PartRead s.now (part_from s.now at from spelling) result }
{
    let Some(len) = spelling else {
        return Ok((None, at));
    };
    let (n, next) = number_or_zero(s, from + len)?;
    Ok((Some(n), next))
}

fn read_spelled_post(s: &[u8], at: usize) -> Result<(Option<u64>, usize), Refusal>
    requires { at ≤ length s.now }
    ensures { PartRead s.now (spelled_post s.now at) result }
{
    let from = separator_end(s, at);
    read_spelled(s, at, from, post_spelling(&s[from..]))
}

// A dash and a number alone say a post-release too.
fn read_post(s: &[u8], at: usize) -> Result<(Option<u64>, usize), Refusal>
    requires { at ≤ length s.now }
    ensures { PartRead s.now (post_at s.now at) result }
{
    if let Some((n, next)) = marked_number(s, at, b'-')? {
        return Ok((Some(n), next));
    }
    read_spelled_post(s, at)
}

fn read_dev(s: &[u8], at: usize) -> Result<(Option<u64>, usize), Refusal>
    requires { at ≤ length s.now }
    ensures { PartRead s.now (dev_at s.now at) result }
{
    let from = separator_end(s, at);
    read_spelled(s, at, from, dev_spelling(&s[from..]))
}

// After the end of the text there is no part, and the cursor stays.
pub fn read_suffix(s: &[u8], at: usize) -> Result<(Suffix, usize), Refusal>
    ensures { SuffixRead s.now at (suffix_at s.now at) result }
{
    if s.len() < at {
        return Ok(((None, None, None), at));
    }
    let (pre, after_pre) = read_pre(s, at)?;
    let (post, after_post) = read_post(s, after_pre)?;
    let (dev, next) = read_dev(s, after_post)?;
    Ok(((pre, post, dev), next))
}
