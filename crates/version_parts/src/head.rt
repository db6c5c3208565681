// Rules 1 to 3: blanks and `v`, the epoch, the release.
ghost use Rattle.std.specs.Prelude.{◌≤◌, length};
ghost use Rattle.version_parts.specs.Fields.{only_number};
ghost use Rattle.version_parts.specs.Places.{Reached};
ghost use Rattle.version_parts.specs.Head.{Headed, lead_end, after_epoch, release_from, head_of};

use crate::fields::Release;
use crate::places::{marked_number, number_at};
use answers::Refusal;
use chars::case::lower;
use chars::class;
use chars::place::byte_at;

// What rules 1 to 3 read, and where the rest begins.
#[derive(Clone, Copy)]
pub struct Head {
    pub at: usize,
    pub epoch: u64,
    pub release: Release,
}

// Past blanks and a `v`.
fn lead_end(s: &[u8]) -> usize
    ensures { Reached s.now (lead_end s.now) result }
{
    let at = class::run(s, class::BLANK, class::BLANK);
    if lower(byte_at(s, at)) == b'v' {
        return at + 1;
    }
    at
}

// The release from after its first number on: each further number stands after a dot.
fn read_release(s: &[u8], epoch: u64, first: u64, from: usize) -> Result<Head, Refusal>
    requires { from ≤ length s.now }
    ensures { Headed (length s.now) (release_from 15 s.now epoch (only_number first) from) result }
{
    let mut release = Release::only(first);
    let mut at = from;
    while let Some((n, next)) = marked_number(s, at, b'.')? {
        if release.len == 16 {
            return Err(Refusal {
                number: 9,
                place: at + 1,
            });
        }
        release = release.push(n);
        at = next;
    }
    Ok(Head { at, epoch, release })
}

// After the `!` of an epoch a release number must come.
fn after_epoch(s: &[u8], epoch: u64, at: usize) -> Result<Head, Refusal>
    requires { at ≤ length s.now }
    ensures { Headed (length s.now) (after_epoch s.now epoch at) result }
{
    let Some((first, next)) = number_at(s, at)? else {
        return Err(Refusal {
            number: 2,
            place: at,
        });
    };
    read_release(s, epoch, first, next)
}

pub fn read_head(s: &[u8]) -> Result<Head, Refusal>
    ensures { Headed (length s.now) (head_of s.now) result }
{
    let at = lead_end(s);
    let Some((n, next)) = number_at(s, at)? else {
        return Err(Refusal {
            number: 1,
            place: at,
        });
    };
    if byte_at(s, next) == b'!' {
        return after_epoch(s, n, next + 1);
    }
    read_release(s, 0, n, next)
}
