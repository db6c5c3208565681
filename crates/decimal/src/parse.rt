// Reading a number of 64 bits from its digits.
ghost use Rattle.std.specs.Prelude.{◌≡◌, ◌+◌, ◌*◌, ◌^◌, ◌≤◌, MatchOption};
ghost use Rattle.chars.specs.Class.{Counted};
ghost use Rattle.decimal.specs.Parse.{is_zero, Digit, Led, number_of, counted};

// The largest number of 64 bits.
pub const LARGEST: u64 = 18446744073709551615;

// Why digits write no number: it has more than 64 bits.
#[derive(Clone, Copy)]
pub enum NumberError {
    TooBig,
}

// A digit's value, and 0 for any other byte.
#[tactic(auto, unfolding(crate::specs::Parse::digit_of))]
fn digit(b: u8) -> u64
    ensures { Digit b result }
{
    match b {
        b'0'..=b'9' => u64::from(b - b'0'),
        _ => 0,
    }
}

// The value with one more digit behind it, where 64 bits hold it.
fn with_digit(value: u64, d: u64) -> Option<u64>
    requires { d ≤ 9 }
    ensures { MatchOption result (2 ^ 64 ≤ value * 10 + d) (λ more. more ≡ value * 10 + d) }
{
    // Nearly every digit is one of these, which can't be too much.
    if value < LARGEST / 10 {
        return Some(value * 10 + d);
    }
    value.checked_mul(10)?.checked_add(d)
}

// The number that the digits write. No digit at all writes 0.
pub fn parse_u64(digits: &[u8]) -> Result<u64, NumberError>
    ensures { result ≡ number_of digits.now }
{
    let mut value = 0;
    for b in digits {
        match with_digit(value, digit(*b)) {
            Some(more) => value = more,
            None => return Err(NumberError::TooBig),
        }
    }
    Ok(value)
}

// A number of `count` digits with its value; none where there is no digit.
fn counted(value: u64, count: usize) -> Option<(u64, usize)>
    ensures { result ≡ counted value count }
{
    match count {
        0 => None,
        _ => Some((value, count)),
    }
}

// How many zeros stand in front. They add nothing, and there may be many.
fn leading_zeros(rest: &[u8]) -> usize
    ensures { Counted is_zero rest.now result }
{
    rest.iter().take_while(|b| **b == b'0').count()
}

// The number at the front of a text with how many digits it has, if one stands there.
pub fn leading_number(rest: &[u8]) -> Result<Option<(u64, usize)>, NumberError>
    ensures { Led rest.now result }
{
    let mut value = 0;
    for i in leading_zeros(rest)..rest.len() {
        let b = rest[i];
        if !b.is_ascii_digit() {
            return Ok(counted(value, i));
        }
        match with_digit(value, digit(b)) {
            Some(more) => value = more,
            None => return Err(NumberError::TooBig),
        }
    }
    Ok(counted(value, rest.len()))
}
