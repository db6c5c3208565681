// The ends of what `==V.*` matches.
ghost use Rattle.std.specs.Prelude.{◌≡◌, ◌+◌, ◌<◌, min};
ghost use Rattle.decimal.specs.Parse.{largest};
ghost use Rattle.version_prefix.specs.Next.{dev_zero_fields, start_fields, ending_in, next_epoch, next_fields};

use decimal::parse::LARGEST;
use version_parts::fields::{Local, Release, Version};

// An epoch and a release with `.dev0`.
fn dev_zero(epoch: u64, release: Release) -> Version
    ensures { result ≡ dev_zero_fields epoch release }
{
    let local = Local::none();
    Version {
        epoch,
        release,
        pre: None,
        post: None,
        dev: Some(0),
        local,
    }
}

// Where what `==V.*` matches begins.
pub fn match_start(v: Version) -> Version
    ensures { result ≡ start_fields v }
{
    dev_zero(v.epoch, v.release)
}

// With no number left the epoch is raised, unless it is the largest.
fn next_epoch(epoch: u64) -> Option<Version>
    ensures { result ≡ next_epoch epoch }
{
    if epoch == LARGEST {
        return None;
    }
    Some(dev_zero(epoch + 1, Release::only(0)))
}

// The release up to its number i, in whose place stands what follows n.
fn raise(mut release: Release, i: usize, n: u64) -> Release
    requires { (i < 16) × (n ≡ largest → ⊥) }
    ensures { result ≡ ending_in release i (n + 1) }
{
    release.numbers[i] = n + 1;
    release.len = i + 1;
    release
}

// The version before which it ends, if it ends, with the first `count` numbers of v for a prefix. The largest numbers at its end are dropped.
pub fn match_end(v: Version, count: usize) -> Option<Version>
    ensures { result ≡ next_fields v.epoch v.release (min count 16) }
{
    let release = v.release;
    let numbers = release.numbers;
    for last in (0..count.min(16)).rev() {
        let number = numbers[last];
        if number != LARGEST {
            return Some(dev_zero(v.epoch, raise(release, last, number)));
        }
    }
    next_epoch(v.epoch)
}
