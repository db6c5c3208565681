// The entry points for C. Each returns a refusal's number, 0 for none, and leaves a value, a place and which text in the lent answer.
#![tactic(auto)]

mod reader;

ghost use Rattle.std.specs.Prelude.{◌≡◌, false, length};
ghost use Rattle.version_reading.specs.Reading.{pattern_as, pattern_of, version_of};
ghost use Rattle.version_reading.specs.Segment.{segment_text};
ghost use Rattle.version_normal.specs.Normal.{answer_to, filled_to, normal_text};
ghost use Rattle.version_order.specs.Compared.{compared};
ghost use Rattle.version_word.specs.Worded.{word_answer};
ghost use Rattle.list_clauses.specs.List.{checked, list_of};
ghost use Rattle.list_accepting.specs.Accept.{accepted};
ghost use Rattle.table_compile.specs.Compiled as compiled;
ghost use Rattle.table_reading.specs.Lookup.{looked};
ghost use Rattle.register_entries.specs.Held.{entries_of};
ghost use Rattle.register_rules.specs.Fit.{fit_of};
ghost use Rattle.boundary_fields.specs.Fields.{fields_by, segment_start};
ghost use Rattle.boundary_answers.specs.Said.{Told, of_verdict, of_measured, of_compared, of_worded, of_yes_no, of_fit};

use boundary_answers::said::{
    of_compared, of_fit, of_measured, of_verdict, of_worded, of_yes_no, tell,
};
use boundary_fields::fields::{put_accepted, put_plain, span_at};
use register_fit::plain::fit_numbers;
use version_reading::plain::read_plain;
use version_reading::segment::{Segment, segment_bytes, segment_of};
use version_reading::text::{Verdict, read_by_rules};

// Leaves the fields of a version, which a wildcard may follow if `wildcards` says so; gives the verdict, and whether a wildcard follows.
fn read_fields(text: &[u8], wildcards: bool, fields: &mut [u64; 89]) -> (Verdict, bool)
    ensures verdict { result.0 ≡ (pattern_as wildcards text.now).verdict }
    ensures wildcard { result.1 ≡ (pattern_as wildcards text.now).wildcard }
    ensures fields_after { fields.new ≡ fields_by (pattern_as wildcards text.now).verdict text.now (pattern_as wildcards text.now).version fields.old }
{
    if let Some(plain) = read_plain(text) {
        put_plain(fields, plain);
        return (Verdict::Accepted, false);
    }
    let read = read_by_rules(text, wildcards);
    put_accepted(fields, text, read.verdict, read.version);
    (read.verdict, read.wildcard)
}

// The fields of a version. A refused text leaves them as they were.
#[unsafe(no_mangle)]
pub extern "C" fn knappulf_read(text: &[u8], fields: &mut [u64; 89], answer: &mut [u64; 3]) -> u8
    ensures told { Told (of_verdict (version_of text.now).verdict false) answer.new result }
    ensures fields_after { fields.new ≡ fields_by (version_of text.now).verdict text.now (version_of text.now).version fields.old }
{
    let (verdict, _) = read_fields(text, false, fields);
    tell(of_verdict(verdict, false), answer)
}

// The fields of a version that a wildcard may follow; the value says whether it does.
#[unsafe(no_mangle)]
pub extern "C" fn knappulf_pattern(text: &[u8], fields: &mut [u64; 89], answer: &mut [u64; 3]) -> u8
    ensures told { Told (of_verdict (pattern_of text.now).verdict (pattern_of text.now).wildcard) answer.new result }
    ensures fields_after { fields.new ≡ fields_by (pattern_of text.now).verdict text.now (pattern_of text.now).version fields.old }
{
    let (verdict, wildcard) = read_fields(text, true, fields);
    tell(of_verdict(verdict, wildcard), answer)
}

// How long the text segment with that index is, and where it begins: both 0 for a number, a missing segment or a refused text.
#[unsafe(no_mangle)]
pub extern "C" fn knappulf_segment(text: &[u8], index: usize, start: &mut u64) -> usize
    ensures value { result ≡ length (segment_text text.now index) }
    ensures start_after { start.new ≡ segment_start text.now index }
{
    let read = version::read(text);
    let bytes = segment_bytes(text, read.version.local, index);
    let Segment::Text = segment_of(bytes) else {
        *start = 0;
        return 0;
    };
    let span = span_at(read.version.local, index);
    *start = span.start as u64;
    bytes.len()
}

// The normal text of a version, in front of a buffer; the value is its length.
#[unsafe(no_mangle)]
pub extern "C" fn knappulf_normal(text: &[u8], buffer: &mut [u8], answer: &mut [u64; 3]) -> u8
    ensures told { Told (of_measured (answer_to (version_of text.now).verdict (normal_text text.now) buffer.old)) answer.new result }
    ensures buffer_after { buffer.new ≡ filled_to (version_of text.now).verdict (normal_text text.now) buffer.old }
{
    tell(of_measured(version::normal(text, buffer)), answer)
}

// The value is 0 for less, 1 for equal, 2 for greater.
#[unsafe(no_mangle)]
pub extern "C" fn knappulf_compare(first: &[u8], second: &[u8], answer: &mut [u64; 3]) -> u8
    ensures { Told (of_compared (compared first.now second.now)) answer.new result }
{
    tell(of_compared(version::compare(first, second)), answer)
}

// The value is the packed word of a small version, 0 where it is not small.
#[unsafe(no_mangle)]
pub extern "C" fn knappulf_word(text: &[u8], answer: &mut [u64; 3]) -> u8
    ensures { Told (of_worded (word_answer text.now)) answer.new result }
{
    tell(of_worded(version::word(text)), answer)
}

// The value is how many clauses a list has.
#[unsafe(no_mangle)]
pub extern "C" fn knappulf_check(list: &[u8], answer: &mut [u64; 3]) -> u8
    ensures { Told (of_measured (checked list.now)) answer.new result }
{
    tell(of_measured(list_clauses::list::check(list)), answer)
}

// The value is 1 where every clause of the list accepts the version, else 0.
#[unsafe(no_mangle)]
pub extern "C" fn knappulf_accepts(list: &[u8], version: &[u8], answer: &mut [u64; 3]) -> u8
    ensures { Told (of_yes_no (accepted list.now version.now)) answer.new result }
{
    tell(of_yes_no(list_accepting::accepts(list, version)), answer)
}

// The range table of a list, in front of a buffer; the value is its length.
#[unsafe(no_mangle)]
pub extern "C" fn knappulf_compile(list: &[u8], buffer: &mut [u8], answer: &mut [u64; 3]) -> u8
    ensures told { Told (of_measured (compiled.answer_to (list_of list.now) buffer.old)) answer.new result }
    ensures buffer_after { buffer.new ≡ compiled.filled_to (list_of list.now) buffer.old }
{
    tell(of_measured(table_compile::compile(list, buffer)), answer)
}

// The value is 1 where the table holds the version, else 0.
#[unsafe(no_mangle)]
pub extern "C" fn knappulf_lookup(table: &[u8], version: &[u8], answer: &mut [u64; 3]) -> u8
    ensures { Told (of_yes_no (looked table.now version.now)) answer.new result }
{
    tell(of_yes_no(table_lookup::lookup(table, version)), answer)
}

// The value is the lowest identifier whose table holds the version and, 65,536 times, the second lowest: 0 for each that there is not. An entry
// stands for each identifier; a start or a length that is missing is 0.
#[unsafe(no_mangle)]
pub extern "C" fn knappulf_register(
    ids: &[u16],
    starts: &[usize],
    lengths: &[usize],
    buffer: &[u8],
    version: &[u8],
    answer: &mut [u64; 3],
) -> u8
    ensures { Told (of_fit (fit_of (entries_of ids.now starts.now lengths.now) buffer.now version.now)) answer.new result }
{
    tell(
        of_fit(fit_numbers(ids, starts, lengths, buffer, version)),
        answer,
    )
}
