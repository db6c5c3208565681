// The parts of a normal text that are made of numbers.
ghost use Rattle.std.specs.Prelude.{◌≡◌, ◌+◌, min, length};
ghost use Rattle.decimal.specs.Put.{Put};
ghost use Rattle.version_normal.specs.Normal.{epoch_text, release_text, kind_text, pre_text, part_text};

use chars::spelling::PreKind;
use decimal::put::{put_byte, put_bytes, put_number};
use version_parts::fields::{Pre, Release};

// How many elements of an array of 16 count.
pub fn held(len: usize) -> usize
    ensures { result ≡ min len 16 }
{
    len.min(16)
}

// The epoch and its mark, unless it is 0.
pub fn put_epoch(buf: &mut [u8], at: usize, epoch: u64) -> usize
    ensures { Put 21 buf.old at (epoch_text epoch) buf.new result }
{
    if epoch == 0 {
        return at;
    }
    let mark = put_number(buf, at, epoch);
    put_byte(buf, mark, b'!')
}

// The release numbers, joined by dots.
pub fn put_release(buf: &mut [u8], at: usize, release: Release) -> usize
    ensures { Put 336 buf.old at (release_text release) buf.new result }
{
    let numbers = release.numbers;
    let count = held(release.len);
    if count == 0 {
        return at;
    }
    let mut next = put_number(buf, at, numbers[0]);
    for number in &numbers[1..count] {
        let dot = put_byte(buf, next, b'.');
        next = put_number(buf, dot, *number);
    }
    next
}

pub fn put_pre(buf: &mut [u8], at: usize, pre: Option<Pre>) -> usize
    ensures { Put 22 buf.old at (pre_text pre) buf.new result }
{
    let Some((kind, n)) = pre else {
        return at;
    };
    let digits = put_kind(buf, at, kind);
    put_number(buf, digits, n)
}

fn put_kind(buf: &mut [u8], at: usize, kind: PreKind) -> usize
    ensures { Put 2 buf.old at (kind_text kind) buf.new result }
{
    match kind {
        PreKind::Alpha => put_bytes(buf, at, b"a"),
        PreKind::Beta => put_bytes(buf, at, b"b"),
        PreKind::Rc => put_bytes(buf, at, b"rc"),
    }
}

// A part's name and number, where it is there.
pub fn put_part(buf: &mut [u8], at: usize, name: &[u8], part: Option<u64>) -> usize
    ensures { Put (length name.now + 20) buf.old at (part_text name.now part) buf.new result }
{
    let Some(n) = part else {
        return at;
    };
    let digits = put_bytes(buf, at, name);
    put_number(buf, digits, n)
}
