// Bytes and parts of a text, whether or not the text reaches that far.
ghost use Rattle.chars.specs.Place.{ByteAt, PartOf};

// The byte at a place, and 0 past the end.
pub fn byte_at(s: &[u8], at: usize) -> u8
    ensures { ByteAt s.now at result }
{
    s.get(at).copied().unwrap_or(0)
}

// The part from start to end, as far as the text goes.
pub fn part(s: &[u8], start: usize, end: usize) -> &[u8]
    ensures { PartOf s.now start end result.now }
{
    let end = end.min(s.len());
    &s[start.min(end)..end]
}
