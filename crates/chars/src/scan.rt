// Looking for a byte in a text.
ghost use Rattle.chars.specs.Scan.{FoundFrom};

// The place of the first byte b at `from` or after it, and the end of the text where there is none. Behind the end it is `from` itself.
pub fn find(s: &[u8], from: usize, b: u8) -> usize
    ensures { FoundFrom s.now from b result }
{
    match s.get(from..) {
        Some(rest) => from + rest.iter().take_while(|x| **x != b).count(),
        None => from,
    }
}
