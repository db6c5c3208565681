// The answer lines, put into a buffer.
ghost use Rattle.decimal.specs.Put.{Put};
ghost use Rattle.table_reading.specs.Lookup.{looked};
ghost use Rattle.lookup.specs.Answer.{longest_answer, answer_line};

use answer_lines::line::Line;
use answers::RefusedInput;
use table_lookup::lookup;

// `yes `, the longest normal text, and a line feed.
pub(crate) const LONGEST_ANSWER: usize = 1038;

// Whether the table holds the version, or why it can't be told.
pub(crate) fn put_answer(line: &mut Line<'_>, table: &[u8], version: &[u8])
    ensures { Put longest_answer line.old.buffer.now line.old.end (answer_line (looked table.now version.now) version.now) line.new.buffer.now line.new.end }
{
    match lookup(table, version) {
        Ok(true) => line.normal(b"yes ", version),
        Ok(false) => line.normal(b"no ", version),
        Err(RefusedInput::First(refusal)) => line.refusal(b"table refused ", refusal),
        Err(RefusedInput::Second(refusal)) => line.refusal(b"refused ", refusal),
    }
}
