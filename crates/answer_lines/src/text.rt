// Lines that say a refusal, or a version in its normal text.
ghost use Rattle.std.specs.Prelude.{◌+◌, length};
ghost use Rattle.decimal.specs.Put.{Put};
ghost use Rattle.answer_lines.specs.Text.{place_text, refusal_line, normal_line};

use answers::Refusal;
use decimal::put::{put_byte, put_bytes, put_number};
use version_normal::text::put_version;

fn put_place(out: &mut [u8], at: usize, place: usize) -> usize
    ensures { Put 25 out.old at (place_text place) out.new result }
{
    let number = put_bytes(out, at, b" at ");
    let end = put_number(out, number, place as u64);
    put_byte(out, end, b'\n')
}

pub fn put_refusal(out: &mut [u8], at: usize, name: &[u8], refusal: Refusal) -> usize
    ensures { Put (length name.now + 45) out.old at (refusal_line name.now refusal) out.new result }
{
    let number = put_bytes(out, at, name);
    let end = put_number(out, number, refusal.number as u64);
    put_place(out, end, refusal.place)
}

// A version's text is read once more: whoever looked at it has its answer and not its fields.
pub fn put_normal(out: &mut [u8], at: usize, name: &[u8], version: &[u8]) -> usize
    ensures { Put (length name.now + 1049326) out.old at (normal_line name.now version.now) out.new result }
{
    let read = version::read(version);
    let fields = read.version;
    let text = put_bytes(out, at, name);
    let end = put_version(out, text, version, fields);
    put_byte(out, end, b'\n')
}
