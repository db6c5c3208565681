// A whole text: rules 1 to 9, in their order, as a version or as a pattern.
ghost use Rattle.std.specs.Prelude.{◌≤◌, ◌+◌, length};
ghost use Rattle.version_reading.specs.Reading.{Read, VersionRead, reading_of, starred, after_suffix, after_release, pattern_as, pattern_of, version_of};

use crate::label::read_label;
use crate::plain::{read_plain, whole};
use answers::Refusal;
use chars::case::beginning;
use chars::class;
use version_parts::fields::{Local, Pre, Version};
use version_parts::head::{Head, read_head};
use version_parts::suffix::read_suffix;

#[derive(Clone, Copy)]
pub enum Verdict {
    Accepted,
    Refused(Refusal),
}

// A version, and whether a wildcard stands after it. Where it is refused, the version is the blank one and there is no wildcard.
#[derive(Clone, Copy)]
pub struct PatternReading {
    pub verdict: Verdict,
    pub wildcard: bool,
    pub version: Version,
}

#[derive(Clone, Copy)]
pub struct VersionReading {
    pub verdict: Verdict,
    pub version: Version,
}

// Rule 4, at `.*` after the release.
fn read_wildcard(s: &[u8], head: Head, wildcards: bool) -> Result<(Version, bool), Refusal>
    requires { (head.at + 2 ≤ length s.now) × (length s.now ≤ 1024) × (head.release.len ≤ 16) }
    ensures { Read (starred wildcards s.now head) (reading_of result) }
{
    if !wildcards {
        return Err(Refusal {
            number: 6,
            place: head.at,
        });
    }
    if head.at + 2 < s.len() {
        return Err(Refusal {
            number: 7,
            place: head.at + 2,
        });
    }
    let version = Version {
        epoch: head.epoch,
        release: head.release,
        pre: None,
        post: None,
        dev: None,
        local: Local::none(),
    };
    Ok((version, true))
}

// Rules 8 and 9, from after the suffix on.
fn read_end(
    s: &[u8],
    head: Head,
    pre: Option<Pre>,
    post: Option<u64>,
    dev: Option<u64>,
    at: usize,
) -> Result<(Version, bool), Refusal>
    requires { (at ≤ length s.now) × (length s.now ≤ 1024) × (head.release.len ≤ 16) }
    ensures { Read (after_suffix s.now head pre post dev at) (reading_of result) }
{
    let (local, from) = read_label(s, at)?;
    let end = from + class::run(&s[from..], class::BLANK, class::BLANK);
    if end < s.len() {
        return Err(Refusal {
            number: 5,
            place: end,
        });
    }
    let version = Version {
        epoch: head.epoch,
        release: head.release,
        pre,
        post,
        dev,
        local,
    };
    Ok((version, false))
}

// Rules 5 to 9, from after the release on.
fn read_rest(s: &[u8], head: Head) -> Result<(Version, bool), Refusal>
    requires { (head.at ≤ length s.now) × (length s.now ≤ 1024) × (head.release.len ≤ 16) }
    ensures { Read (after_release s.now head) (reading_of result) }
{
    let ((pre, post, dev), next) = read_suffix(s, head.at)?;
    read_end(s, head, pre, post, dev, next)
}

// Rules 1 to 9: the version, and whether a wildcard stands after it.
fn read_all(s: &[u8], wildcards: bool) -> Result<(Version, bool), Refusal>
    ensures { Read (pattern_as wildcards s.now) (reading_of result) }
{
    if 1024 < s.len() {
        return Err(Refusal {
            number: 8,
            place: 1024,
        });
    }
    let head = read_head(s)?;
    if beginning(&s[head.at..], b".*") != 0 {
        return read_wildcard(s, head, wildcards);
    }
    read_rest(s, head)
}

// Any text, by the rules alone: for a caller that has tried `read_plain`. `wildcards` says whether a wildcard may follow the version.
pub fn read_by_rules(s: &[u8], wildcards: bool) -> PatternReading
    ensures { Read (pattern_as wildcards s.now) result }
{
    match read_all(s, wildcards) {
        Ok((version, wildcard)) => PatternReading {
            verdict: Verdict::Accepted,
            wildcard,
            version,
        },
        Err(refusal) => PatternReading {
            verdict: Verdict::Refused(refusal),
            wildcard: false,
            version: Version::none(),
        },
    }
}

// Most texts are plain versions; the others are read by the rules.
fn read_as(s: &[u8], wildcards: bool) -> PatternReading
    ensures { Read (pattern_as wildcards s.now) result }
{
    if let Some(plain) = read_plain(s) {
        return PatternReading {
            verdict: Verdict::Accepted,
            wildcard: false,
            version: whole(plain),
        };
    }
    read_by_rules(s, wildcards)
}

pub fn read_pattern(s: &[u8]) -> PatternReading
    ensures { Read (pattern_of s.now) result }
{
    read_as(s, true)
}

pub fn read_version(s: &[u8]) -> VersionReading
    ensures { VersionRead (version_of s.now) result }
{
    let read = read_as(s, false);
    VersionReading {
        verdict: read.verdict,
        version: read.version,
    }
}
