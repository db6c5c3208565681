// A number in two bytes, the lower first.
ghost use Rattle.decimal.specs.Put.{Put};
ghost use Rattle.records.specs.Record.{TwoRead, two_bytes_of};

use chars::place::byte_at;
use decimal::put::put_byte;

// The number that starts at `at`. A byte past the end counts as 0.
pub fn two_at(s: &[u8], at: usize) -> usize
    ensures { TwoRead s.now at result }
{
    if s.len() <= at {
        return 0;
    }
    let low = byte_at(s, at);
    let high = byte_at(s, at + 1);
    low as usize + 256 * (high as usize)
}

// Writes n; of a number above 65535 only the two lowest bytes.
pub fn put_two(buf: &mut [u8], at: usize, n: usize) -> usize
    ensures { Put 2 buf.old at (two_bytes_of n) buf.new result }
{
    let second = put_byte(buf, at, (n % 256) as u8);
    put_byte(buf, second, (n / 256 % 256) as u8)
}
