// The version layer's promises: each entry point takes any bytes, and says all of its answer.
#![tactic(auto)]

mod comparing;
pub mod reading;

ghost use Rattle.std.specs.Prelude.{◌≡◌};
ghost use Rattle.version_order.specs.Compared.{compared};
ghost use Rattle.version_normal.specs.Normal.{NormalPrinted};
ghost use Rattle.version_reading.specs.Reading.{Read, pattern_of};
ghost use Rattle.version_reading.specs.Segment.{segment_text};
ghost use Rattle.version_word.specs.Worded.{word_answer};
ghost use Rattle.version.specs.Reading.{TextRead};

use crate::comparing::compare_texts;
use crate::reading::{Reading, read_from};
use answers::{Refusal, RefusedInput};
use std::cmp::Ordering;
use version_reading::plain::read_plain;
use version_reading::text::{PatternReading, read_pattern};
use version_word::packed::Word;

// The fields of a version and its word, or its refusal.
pub fn read(text: &[u8]) -> Reading
    ensures { TextRead text.now result }
{
    let quick = read_plain(text);
    read_from(text, quick)
}

// The fields of a version that a wildcard may follow, or its refusal.
pub fn pattern(text: &[u8]) -> PatternReading
    ensures { Read (pattern_of text.now) result }
{
    read_pattern(text)
}

// The text segment of a version's label with that index, as a part of the caller's bytes: empty for a number, a missing segment or a refused text.
pub fn segment(text: &[u8], index: usize) -> &[u8]
    ensures { result.now ≡ segment_text text.now index }
{
    version_reading::segment::segment_text(text, index)
}

// Writes the normal text of a version to the front of a buffer. A refused call leaves the buffer as it was, and success what lies after the text.
pub fn normal(text: &[u8], buffer: &mut [u8]) -> Result<usize, Refusal>
    ensures { NormalPrinted text.now buffer.old buffer.new result }
{
    version_normal::text::print_normal(text, buffer)
}

// How the first version compares with the second, or which text is refused: the first is judged first.
pub fn compare(first: &[u8], second: &[u8]) -> Result<Ordering, RefusedInput>
    ensures { result ≡ compared first.now second.now }
{
    compare_texts(first, second)
}

// The packed word of a small version; that a version has none is no refusal.
pub fn word(text: &[u8]) -> Result<Option<Word>, Refusal>
    ensures { result ≡ word_answer text.now }
{
    version_word::text::word(text)
}
