// The class of each byte, from one table, and runs of bytes of neighbouring classes.
ghost use Rattle.std.specs.Prelude.{◌≡◌};
ghost use Rattle.chars.specs.Class.{Classed, Counted, between};

// The numbers go so that letters and digits, the bytes of a word, are the classes from DIGIT up.
pub const OTHER: u8 = 0;

pub const BLANK: u8 = 1;

pub const SEPARATOR: u8 = 2;

pub const DIGIT: u8 = 3;

pub const LETTER: u8 = 4;

const CLASSES: [u8; 256] = [
    0, 0, 0, 0, 0, 0, 0, 0, 0, 1, 1, 0, 1, 1, 0, 0, 0, 0, 0, 0, 0, 0, 0, 0, 0, 0, 0, 0, 0, 0, 0, 0,
    1, 0, 0, 0, 0, 0, 0, 0, 0, 0, 0, 0, 0, 2, 2, 0, 3, 3, 3, 3, 3, 3, 3, 3, 3, 3, 0, 0, 0, 0, 0, 0,
    0, 4, 4, 4, 4, 4, 4, 4, 4, 4, 4, 4, 4, 4, 4, 4, 4, 4, 4, 4, 4, 4, 4, 4, 4, 4, 4, 0, 0, 0, 0, 2,
    0, 4, 4, 4, 4, 4, 4, 4, 4, 4, 4, 4, 4, 4, 4, 4, 4, 4, 4, 4, 4, 4, 4, 4, 4, 4, 4, 0, 0, 0, 0, 0,
    0, 0, 0, 0, 0, 0, 0, 0, 0, 0, 0, 0, 0, 0, 0, 0, 0, 0, 0, 0, 0, 0, 0, 0, 0, 0, 0, 0, 0, 0, 0, 0,
    0, 0, 0, 0, 0, 0, 0, 0, 0, 0, 0, 0, 0, 0, 0, 0, 0, 0, 0, 0, 0, 0, 0, 0, 0, 0, 0, 0, 0, 0, 0, 0,
    0, 0, 0, 0, 0, 0, 0, 0, 0, 0, 0, 0, 0, 0, 0, 0, 0, 0, 0, 0, 0, 0, 0, 0, 0, 0, 0, 0, 0, 0, 0, 0,
    0, 0, 0, 0, 0, 0, 0, 0, 0, 0, 0, 0, 0, 0, 0, 0, 0, 0, 0, 0, 0, 0, 0, 0, 0, 0, 0, 0, 0, 0, 0, 0,
];

// By the table. It is laid on the stack at each use, so that a loop over a text asks `class_by_ranges` instead.
pub fn class_of(b: u8) -> u8
    ensures { Classed b result }
{
    let i = b as usize;
    CLASSES[i]
}

// The same by the ranges of bytes, from the letters down: the longest runs are those of small letters, of digits and of blanks, and one `match`
// over all ranges would ask for those last.
#[tactic(auto, unfolding(crate::specs::Class::class_of))]
pub fn class_by_ranges(b: u8) -> u8
    ensures { Classed b result }
{
    if b'z' < b {
        return OTHER;
    }
    if b'a' <= b {
        return LETTER;
    }
    if b'9' < b {
        return match b {
            b'A'..=b'Z' => LETTER,
            b'_' => SEPARATOR,
            _ => OTHER,
        };
    }
    if b'0' <= b {
        return DIGIT;
    }
    match b {
        b' ' => BLANK,
        b'.' | b'-' => SEPARATOR,
        b'\t' | b'\n' | 12 | b'\r' => BLANK,
        _ => OTHER,
    }
}

// Whether the class of b lies from low to high.
#[tactic(auto, unfolding(crate::specs::Class::between))]
fn is_between(b: u8, low: u8, high: u8) -> bool
    ensures { result ≡ between low high b }
{
    (low..=high).contains(&class_by_ranges(b))
}

// How many bytes at the front of s have a class from low to high.
pub fn run(s: &[u8], low: u8, high: u8) -> usize
    ensures { Counted (between low high) s.now result }
{
    s.iter().take_while(|b| is_between(**b, low, high)).count()
}
