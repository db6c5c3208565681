// A reader by value: each event gives the reader that comes of it.
ghost use Rattle.std.specs.Prelude.{◌≡◌};
ghost use Rattle.fragment_rules.specs.Reader.{Said, fresh, taken, marked, said_by};

use crate::hold::{hold, say};
use fragment_rules::answer::Answer;
use fragment_rules::reader::Reader;

pub fn fresh() -> Reader
    ensures { result ≡ fresh }
{
    Reader {
        held: [0; 1024],
        count: 0,
        ended: false,
    }
}

// A lump of any length, also none. After the end mark it changes nothing.
pub fn take(reader: Reader, lump: &[u8]) -> Reader
    ensures { result ≡ taken reader lump.now }
{
    if reader.ended {
        return reader;
    }
    let mut held = reader.held;
    let count = hold(&mut held, reader.count, lump);
    Reader {
        held,
        count,
        ended: reader.ended,
    }
}

// The end mark.
pub fn end(reader: Reader) -> Reader
    ensures { result ≡ marked reader }
{
    let held = reader.held;
    Reader {
        held,
        count: reader.count,
        ended: true,
    }
}

// As new, byte for byte: nothing of the reader before it stays.
pub fn reset(reader: Reader) -> Reader
    ensures { result ≡ fresh }
{
    let count = 0;
    Reader {
        held: [0; 1024],
        count,
        ended: false,
    }
}

// The fields of the whole text or its refusal, once there is a verdict.
pub fn said(reader: Reader) -> Answer
    ensures { Said (said_by reader) result }
{
    let held = reader.held;
    say(&held, reader.count, reader.ended)
}
