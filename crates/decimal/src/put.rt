// Writing into a lent buffer. Each writer stores what has room, and always answers the place after its text:
// over an empty buffer it gives the length of what it would write.
ghost use Rattle.std.specs.Prelude.{[], ◌∷◌, length};
ghost use Rattle.decimal.specs.Digits.{decimal};
ghost use Rattle.decimal.specs.Put.{Further, Put};

// The only function that stores. The last place that 64 bits can say stands for all after it.
pub fn put_byte(buf: &mut [u8], at: usize, b: u8) -> usize
    ensures { Put 1 buf.old at (b ∷ []) buf.new result }
{
    if at < buf.len() {
        buf[at] = b;
        return at + 1;
    }
    at.saturating_add(1)
}

// The place n bytes after `at`.
pub fn further(at: usize, n: usize) -> usize
    ensures { Further at n result }
{
    at.saturating_add(n)
}

pub fn put_bytes(buf: &mut [u8], at: usize, s: &[u8]) -> usize
    ensures { Put (length s.now) buf.old at s.now buf.new result }
{
    let mut next = at;
    for b in s {
        next = put_byte(buf, next, *b);
    }
    next
}

// The digits of n, with no zero in front.
pub fn put_number(buf: &mut [u8], at: usize, n: u64) -> usize
    ensures { Put 20 buf.old at (decimal n) buf.new result }
{
    if n < 10 {
        put_byte(buf, at, (48 + n) as u8)
    } else {
        let last = put_number(buf, at, n / 10);
        put_byte(buf, last, (48 + n % 10) as u8)
    }
}
