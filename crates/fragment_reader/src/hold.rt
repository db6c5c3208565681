// What both forms of a reader do: hold a lump's bytes, and say what there is to say.
ghost use Rattle.fragment_rules.specs.Reader.{Said, said_by};
ghost use Rattle.fragment_reader.specs.Hold.{Holds, reader_by};

use answers::Refusal;
use chars::place::part;
use decimal::put::put_bytes;
use fragment_rules::answer::Answer;
use version_parts::fields::Version;
use version_reading::text::Verdict;

pub(crate) const LONGEST: usize = 1024;

// Puts a lump after the bytes that came, as far as there is room, and says how many came: 1,025 stands for all that are too many.
pub(crate) fn hold(held: &mut [u8], count: usize, lump: &[u8]) -> usize
    ensures { Holds held.old count lump.now held.new result }
{
    let came = put_bytes(held, count, lump);
    if LONGEST < came {
        return LONGEST + 1;
    }
    came
}

// What there is to say of the first `count` bytes.
pub(crate) fn say(held: &[u8], count: usize, ended: bool) -> Answer
    ensures { Said (said_by (reader_by held.now count ended)) result }
{
    if LONGEST < count {
        let refusal = Refusal {
            number: 8,
            place: 1024,
        };
        return Answer {
            says: Some(Verdict::Refused(refusal)),
            version: Version::none(),
        };
    }
    if ended {
        let read = version::read(part(held, 0, count));
        let verdict = read.verdict;
        return Answer {
            says: Some(verdict),
            version: read.version,
        };
    }
    Answer {
        says: None,
        version: Version::none(),
    }
}
