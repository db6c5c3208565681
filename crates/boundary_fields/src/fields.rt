// The fields of a version as 89 numbers.
ghost use Rattle.std.specs.Prelude.{◌≡◌, [], ◌+◌, ◌≤◌, length};
ghost use Rattle.std.proofs.lemmas.List.Edits.{sets};
ghost use Rattle.version_reading.specs.Plain.{whole_version};
ghost use Rattle.boundary_fields.specs.Fields.{span_at, parts, segment_row, segment_rows, fields_of, fields_by, fields_said};

use crate::pair::{part_pair, pre_pair, segment_pair};
use version_parts::fields::{Local, Span, Version};
use version_reading::plain::Plain;
use version_reading::segment::{segment_bytes, segment_of};
use version_reading::text::Verdict;

// Writes the numbers from a place on.
fn put_numbers(fields: &mut [u64], at: usize, numbers: &[u64])
    requires { at + length numbers.now ≤ length fields.old }
    ensures { fields.new ≡ sets fields.old at numbers.now }
{
    fields[at..at + numbers.len()].copy_from_slice(numbers);
}

// Where the segment with that index lies; the blank span where there is none.
pub fn span_at(local: Local, index: usize) -> Span
    ensures { result ≡ span_at local index }
{
    if index < 16 {
        return local.spans[index];
    }
    Span { start: 0, end: 0 }
}

// All but the lists.
fn put_parts(fields: &mut [u64], version: Version)
    requires { 9 ≤ length fields.old }
    ensures { fields.new ≡ sets fields.old 0 (parts version) }
{
    let pre = pre_pair(version.pre);
    let post = part_pair(version.post);
    let dev = part_pair(version.dev);
    let numbers = [
        version.epoch,
        pre.kind,
        pre.number,
        post.kind,
        post.number,
        dev.kind,
        dev.number,
        version.release.len as u64,
        version.local.len as u64,
    ];
    put_numbers(fields, 0, &numbers)
}

fn put_segment(fields: &mut [u64], at: usize, text: &[u8], local: Local, index: usize)
    requires { at + 4 ≤ length fields.old }
    ensures { fields.new ≡ sets fields.old at (segment_row text.now local index) }
{
    let span = span_at(local, index);
    if local.len <= index {
        let missing = [0, 0, span.start as u64, span.end as u64];
        return put_numbers(fields, at, &missing);
    }
    let pair = segment_pair(segment_of(segment_bytes(text, local, index)));
    let numbers = [pair.kind, pair.number, span.start as u64, span.end as u64];
    put_numbers(fields, at, &numbers)
}

fn put_segments(fields: &mut [u64], at: usize, text: &[u8], local: Local)
    requires { at + 64 ≤ length fields.old }
    ensures { fields.new ≡ sets fields.old at (segment_rows text.now local 0 16) }
{
    for i in 0..16 {
        put_segment(fields, at + 4 * i, text, local, i);
    }
}

// All the fields of a version that the text says.
fn put_fields(fields: &mut [u64; 89], text: &[u8], version: Version)
    ensures { fields.new ≡ fields_of text.now version }
{
    let numbers = version.release.numbers;
    put_parts(fields, version);
    put_numbers(fields, 9, &numbers);
    put_segments(fields, 25, text, version.local);
}

// All the fields of a plain version: what it has not is 0.
pub fn put_plain(fields: &mut [u64; 89], plain: Plain)
    ensures { fields.new ≡ fields_of [] (whole_version plain) }
{
    let pre = pre_pair(plain.pre);
    let post = part_pair(plain.post);
    let dev = part_pair(plain.dev);
    let numbers = [
        0,
        pre.kind,
        pre.number,
        post.kind,
        post.number,
        dev.kind,
        dev.number,
        plain.count as u64,
        0,
        plain.first,
        plain.second,
        plain.third,
        plain.fourth,
    ];
    *fields = [0; 89];
    put_numbers(fields, 0, &numbers)
}

// A refused text leaves the lent numbers as they were.
pub fn put_accepted(fields: &mut [u64; 89], text: &[u8], verdict: Verdict, version: Version)
    ensures { fields.new ≡ fields_by verdict text.now version fields.old }
{
    if let Verdict::Accepted = verdict {
        put_fields(fields, text, version);
    }
}

// A reader of lumps that has nothing to say leaves them too.
pub fn put_said(fields: &mut [u64; 89], text: &[u8], says: Option<Verdict>, version: Version)
    ensures { fields.new ≡ fields_said says text.now version fields.old }
{
    if let Some(verdict) = says {
        put_accepted(fields, text, verdict, version);
    }
}
