// The entry points for C that read a text in lumps. The reader is 1,027 bytes that the caller lends: all zeros are a new one.
ghost use Rattle.std.specs.Prelude.{◌≡◌, length};
ghost use Rattle.fragment_rules.specs.Reader.{fresh, taken, marked, settled, said_by};
ghost use Rattle.fragment_rules.specs.Lent.{flag, lent, reader_in, text_in};
ghost use Rattle.boundary_fields.specs.Fields.{fields_said};
ghost use Rattle.boundary_answers.specs.Said.{Told, of_says};

use boundary_answers::said::{of_says, of_verdict, tell};
use boundary_fields::fields::{put_plain, put_said};
use fragment_reader::lent;
use version_reading::plain::read_plain;
use version_reading::text::Verdict;

// A lump of any length, also none. Returns 1 where there is a verdict, else 0.
#[unsafe(no_mangle)]
pub extern "C" fn knappulf_reader_take(reader: &mut [u8; 1027], lump: &[u8]) -> u8
    ensures value { result ≡ flag (settled (taken (reader_in reader.old) lump.now)) }
    ensures reader_after { reader.new ≡ lent (taken (reader_in reader.old) lump.now) }
{
    lent::take(reader, lump) as u8
}

// The end mark.
#[unsafe(no_mangle)]
pub extern "C" fn knappulf_reader_end(reader: &mut [u8; 1027])
    ensures { reader.new ≡ lent (marked (reader_in reader.old)) }
{
    lent::end(reader)
}

#[unsafe(no_mangle)]
pub extern "C" fn knappulf_reader_reset(reader: &mut [u8; 1027])
    ensures { reader.new ≡ lent fresh }
{
    lent::reset(reader)
}

// What the reader says: 255 is returned while that is nothing. Without a verdict, and by a refused text, the fields are left as they were.
#[unsafe(no_mangle)]
pub extern "C" fn knappulf_reader_verdict(
    reader: &[u8; 1027],
    fields: &mut [u64; 89],
    answer: &mut [u64; 3],
) -> u8
    ensures told { Told (of_says (said_by (reader_in reader.now)).says) answer.new result }
    ensures fields_after { fields.new ≡ fields_said (said_by (reader_in reader.now)).says (text_in reader.now) (said_by (reader_in reader.now)).version fields.old }
{
    let text = lent::text(reader);
    if let Some(plain) = read_plain(text) {
        put_plain(fields, plain);
        return tell(of_verdict(Verdict::Accepted, false), answer);
    }
    let said = lent::said(reader);
    put_said(fields, text, said.says, said.version);
    tell(of_says(said.says), answer)
}

// How many bytes of the reader, from its first on, are the text that questions may be asked of.
#[unsafe(no_mangle)]
pub extern "C" fn knappulf_reader_held(reader: &[u8; 1027]) -> usize
    ensures { result ≡ length (text_in reader.now) }
{
    lent::text(reader).len()
}
