// Numbers as a normal text writes them, with no zero in front, and the parts that bear one.
ghost use Rattle.std.specs.Prelude.{[], ◌++◌, ◌≤◌, length, drop};
ghost use Rattle.decimal.specs.Digits.{decimal};
ghost use Rattle.version_rows.specs.NormalPlain.{PartRead};

use chars::place::byte_at;
use chars::same::same_bytes;
use decimal::parse::LARGEST;

// A part that stands at a place, and the place after it; where there is none, the place itself. No pair: contracts say `part` and `next`.
#[derive(Clone, Copy)]
pub struct PartAt {
    pub part: Option<u64>,
    pub next: usize,
}

// The digits after a number that is not 0. A digit with which it would not fit 64 bits is left, and then fits nothing.
fn more_figures(s: &[u8], first: u64, at: usize) -> PartAt
    requires { (1 ≤ first) × (at ≤ length s.now) }
    ensures { PartRead s.now (decimal first ++ drop at s.now) [] result }
{
    let mut value = first;
    for i in at..s.len() {
        let b = s[i];
        if !b.is_ascii_digit() {
            return PartAt {
                part: Some(value),
                next: i,
            };
        }
        let digit = (b - b'0') as u64;
        if (LARGEST - digit) / 10 < value {
            return PartAt {
                part: Some(value),
                next: i,
            };
        }
        value = value * 10 + digit;
    }
    PartAt {
        part: Some(value),
        next: s.len(),
    }
}

// The number that stands at a place. A zero stands alone.
pub(crate) fn figures_at(s: &[u8], at: usize) -> PartAt
    requires { at ≤ length s.now }
    ensures { PartRead s.now (drop at s.now) [] result }
{
    let b = byte_at(s, at);
    if b < b'0' || b'9' < b {
        return PartAt {
            part: None,
            next: at,
        };
    }
    if b'0' < b {
        return more_figures(s, (b - b'0') as u64, at + 1);
    }
    PartAt {
        part: Some(0),
        next: at + 1,
    }
}

// A name and the number after it.
pub(crate) fn part_at(s: &[u8], at: usize, name: &[u8]) -> PartAt
    requires { at ≤ length s.now }
    ensures { PartRead s.now (drop at s.now) name.now result }
{
    let none = PartAt {
        part: None,
        next: at,
    };
    if s.len() - at < name.len() {
        return none;
    }
    let digits = at + name.len();
    if !same_bytes(&s[at..digits], name) {
        return none;
    }
    let number = figures_at(s, digits);
    match number.part {
        None => none,
        Some(_) => number,
    }
}
