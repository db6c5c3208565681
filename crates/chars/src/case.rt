// Letters in either case: the lower case of a byte, and beginnings of a text that are blind to case.
ghost use Rattle.chars.specs.Case.{Lowered, Begun};

#[tactic(auto, unfolding(crate::specs::Case::lower_of))]
pub fn lower(b: u8) -> u8
    ensures { Lowered b result }
{
    b.to_ascii_lowercase()
}

// How many bytes of s are the word, which is in lower case: all of the word's, or 0 where s does not begin with it.
pub fn beginning(s: &[u8], word: &[u8]) -> usize
    ensures { Begun word.now s.now result }
{
    if word.len() <= s.len() && s.iter().zip(word).all(|(b, x)| lower(*b) == *x) {
        word.len()
    } else {
        0
    }
}
