// The words of a question as what they stand for: bytes in hexadecimal, and numbers.
ghost use Rattle.std.specs.Prelude.{IfSome, ◌<◌};

use decimal::parse::leading_number;

// A lower-case hexadecimal digit's value.
fn nibble(b: u8) -> Option<u8>
    ensures { IfSome result (λ n. n < 16) }
{
    match b {
        b'0'..=b'9' => Some(b - b'0'),
        b'a'..=b'f' => Some(b - b'a' + 10),
        _ => None,
    }
}

// The bytes that a word says, put at the front of the buffer, and the rest of the buffer for the next.
pub(crate) fn decode<'t>(word: &[u8], texts: &'t mut [u8]) -> Option<(&'t [u8], &'t mut [u8])> {
    let digits = match word {
        b"-" => b"",
        b"" => return None,
        _ => word,
    };
    if digits.len() % 2 != 0 {
        return None;
    }
    let (text, rest) = texts.split_at_mut_checked(digits.len() / 2)?;
    for (place, pair) in text.iter_mut().zip(digits.chunks_exact(2)) {
        *place = nibble(pair[0])? * 16 + nibble(pair[1])?;
    }
    Some((text, rest))
}

pub(crate) fn read_natural(word: &[u8]) -> Option<usize> {
    match leading_number(word) {
        Ok(Some((n, len))) if len == word.len() => Some(n as usize),
        _ => None,
    }
}
