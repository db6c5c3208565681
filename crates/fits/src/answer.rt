// The answer lines, put into a buffer.
ghost use Rattle.decimal.specs.Digits.{decimal};
ghost use Rattle.decimal.specs.Put.{Put};
ghost use Rattle.register_entries.specs.Held.{entries_in};
ghost use Rattle.register_rules.specs.Fit.{fit_of};
ghost use Rattle.fits.specs.Answer.{several_text, lowest_text, fit_line, entry_line, longest_answer};

use answer_lines::line::Line;
use answers::{Refusal, RefusedInput};
use register_entries::held::Held;
use register_fit::plain::fit_held;
use register_rules::lowest::Lowest;

// `several 65535 65535 `, the longest normal text, and a line feed.
pub(crate) const LONGEST_ANSWER: usize = 1054;

fn put_id(line: &mut Line<'_>, id: u16)
    ensures { Put 5 line.old.buffer.now line.old.end (decimal id) line.new.buffer.now line.new.end }
{
    line.number(id as u64);
}

fn put_several(line: &mut Line<'_>, first: u16, second: u16)
    ensures { Put 19 line.old.buffer.now line.old.end (several_text first second) line.new.buffer.now line.new.end }
{
    line.text(b"several ");
    put_id(line, first);
    line.byte(b' ');
    put_id(line, second);
}

// The identifier that fits; of several the two lowest.
fn put_lowest(line: &mut Line<'_>, lowest: Lowest)
    ensures { Put 19 line.old.buffer.now line.old.end (lowest_text lowest) line.new.buffer.now line.new.end }
{
    match lowest {
        Lowest::Nothing => line.text(b"none"),
        Lowest::One(id) => put_id(line, id),
        Lowest::Two(first, second) => put_several(line, first, second),
    }
}

// Which entries' tables hold the version, or why it can't be told.
pub(crate) fn put_fit(line: &mut Line<'_>, held: Held, tables: &[u8], version: &[u8])
    ensures { Put longest_answer line.old.buffer.now line.old.end (fit_line (fit_of (entries_in held) tables.now version.now) version.now) line.new.buffer.now line.new.end }
{
    match fit_held(held, tables, version) {
        Ok(lowest) => {
            put_lowest(line, lowest);
            line.normal(b" ", version);
        }
        Err(RefusedInput::First(refusal)) => line.refusal(b"register refused ", refusal),
        Err(RefusedInput::Second(refusal)) => line.refusal(b"refused ", refusal),
    }
}

// Why a line of the register, counted from 1, was refused.
pub(crate) fn put_entry_refusal(line: &mut Line<'_>, k: usize, refusal: Refusal)
    ensures { Put 80 line.old.buffer.now line.old.end (entry_line k refusal) line.new.buffer.now line.new.end }
{
    line.text(b"entry ");
    line.number(k as u64);
    line.refusal(b" refused ", refusal);
}
