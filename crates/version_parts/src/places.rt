// What stands at a place of the text: a separator, a number, a number after a mark.
ghost use Rattle.version_parts.specs.Places.{Stepped, NumberedAt, MarkedAt, separator_end, number_at, marked_number};

use answers::Refusal;
use chars::class;
use chars::place::byte_at;
use decimal::parse::{NumberError, leading_number};

// Past one separator, if there is one.
pub fn separator_end(s: &[u8], at: usize) -> usize
    ensures { Stepped s.now at (separator_end s.now at) result }
{
    if class::class_of(byte_at(s, at)) == class::SEPARATOR {
        return at + 1;
    }
    at
}

// The number at a place, if one stands there, and the place after it. After the end of the text there is none.
pub fn number_at(s: &[u8], at: usize) -> Result<Option<(u64, usize)>, Refusal>
    ensures { NumberedAt s.now (number_at s.now at) result }
{
    if s.len() < at {
        return Ok(None);
    }
    match leading_number(&s[at..]) {
        Ok(None) => Ok(None),
        Ok(Some((n, len))) => Ok(Some((n, at + len))),
        Err(NumberError::TooBig) => Err(Refusal {
            number: 3,
            place: at,
        }),
    }
}

// The mark, and a number right after it. After the end there is neither, also where the mark is the byte 0.
pub fn marked_number(s: &[u8], at: usize, mark: u8) -> Result<Option<(u64, usize)>, Refusal>
    ensures { MarkedAt s.now at (marked_number mark s.now at) result }
{
    if s.len() <= at {
        return Ok(None);
    }
    if s[at] != mark {
        return Ok(None);
    }
    number_at(s, at + 1)
}
