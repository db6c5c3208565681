// What reading a text gives.
ghost use Rattle.version_reading.specs.Plain.{PlainRead, plain_of};
ghost use Rattle.version.specs.Reading.{TextRead};

use version_parts::fields::Version;
use version_reading::plain::{Plain, whole};
use version_reading::text::{Verdict, read_by_rules};
use version_word::packed::{Word, word_of, word_of_plain};

// The fields of a version and its word, or its refusal. A version that is not small has no word, nor has a refused text.
#[derive(Clone, Copy)]
pub struct Reading {
    pub verdict: Verdict,
    pub version: Version,
    pub word: Option<Word>,
}

// What `text` says, of which `quick` is the quick reading: that is not tried again.
pub(crate) fn read_from(text: &[u8], quick: Option<Plain>) -> Reading
    requires { PlainRead (plain_of text.now) quick }
    ensures { TextRead text.now result }
{
    if let Some(plain) = quick {
        return Reading {
            verdict: Verdict::Accepted,
            version: whole(plain),
            word: word_of_plain(plain),
        };
    }
    let read = read_by_rules(text, false);
    let verdict = read.verdict;
    let version = read.version;
    if let Verdict::Refused(_) = verdict {
        return Reading {
            verdict,
            version,
            word: None,
        };
    }
    Reading {
        verdict,
        version,
        word: word_of(version),
    }
}
