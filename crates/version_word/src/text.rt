// The word of the version that a text says.
ghost use Rattle.std.specs.Prelude.{◌≡◌};
ghost use Rattle.version_word.specs.Worded.{word_answer};

use crate::packed::{Word, word_of, word_of_plain};
use answers::Refusal;
use version_reading::plain::read_plain;
use version_reading::text::{Verdict, read_by_rules};

pub fn word(text: &[u8]) -> Result<Option<Word>, Refusal>
    ensures { result ≡ word_answer text.now }
{
    if let Some(plain) = read_plain(text) {
        return Ok(word_of_plain(plain));
    }
    let read = read_by_rules(text, false);
    if let Verdict::Refused(refusal) = read.verdict {
        return Err(refusal);
    }
    Ok(word_of(read.version))
}
