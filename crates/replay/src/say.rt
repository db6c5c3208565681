// Answers, put into a line: what was read, what was found, and refusals.
use answer_lines::line::Line;
use answers::{Refusal, RefusedInput};
use register_rules::lowest::Lowest;
use std::cmp::Ordering;
use version_normal::numbers::{put_pre, put_release};
use version_parts::fields::{Local, Span, Version};
use version_reading::segment::{Segment, segment_bytes, segment_of};
use version_reading::text::Verdict;

// The longest buffer that a question may lend.
const LARGEST_ROOM: usize = 16384;

const DIGITS: [u8; 16] = *b"0123456789abcdef";

// Two digits for each byte, and a dash for none.
pub(crate) fn put_hex(line: &mut Line<'_>, bytes: &[u8]) {
    if bytes.is_empty() {
        line.byte(b'-');
    }
    for b in bytes {
        line.byte(DIGITS[(*b / 16) as usize]);
        line.byte(DIGITS[(*b % 16) as usize]);
    }
}

fn put_refusal(line: &mut Line<'_>, name: &[u8], refusal: Refusal) {
    line.text(name);
    line.number(refusal.number as u64);
    line.byte(b' ');
    line.number(refusal.place as u64);
}

// A blank, and the number or a dash.
fn put_part(line: &mut Line<'_>, part: Option<u64>) {
    line.byte(b' ');
    match part {
        Some(n) => line.number(n),
        None => line.byte(b'-'),
    }
}

// A number with its value, a text with its place.
fn put_segment(line: &mut Line<'_>, bytes: &[u8], span: Span) {
    match segment_of(bytes) {
        Segment::Number(n) => {
            line.byte(b'n');
            line.number(n);
        }
        Segment::Text => {
            line.byte(b't');
            line.number(span.start as u64);
            line.byte(b':');
            line.number(span.end as u64);
        }
    }
}

fn put_local(line: &mut Line<'_>, text: &[u8], local: Local) {
    line.byte(b' ');
    if local.len == 0 {
        line.byte(b'-');
    }
    for (i, span) in local.spans.iter().take(local.len).enumerate() {
        if i > 0 {
            line.byte(b',');
        }
        put_segment(line, segment_bytes(text, local, i), *span);
    }
}

fn put_fields(line: &mut Line<'_>, text: &[u8], version: Version) {
    line.number(version.epoch);
    line.byte(b' ');
    line.end = put_release(line.buffer, line.end, version.release);
    line.byte(b' ');
    match version.pre {
        None => line.byte(b'-'),
        pre => line.end = put_pre(line.buffer, line.end, pre),
    }
    put_part(line, version.post);
    put_part(line, version.dev);
    put_local(line, text, version.local);
}

// What was read, after `ok` or `ok*`.
pub(crate) fn put_reading(
    line: &mut Line<'_>,
    text: &[u8],
    ok: &[u8],
    verdict: Verdict,
    version: Version,
) {
    match verdict {
        Verdict::Refused(refusal) => put_refusal(line, b"no ", refusal),
        Verdict::Accepted => {
            line.text(ok);
            put_fields(line, text, version);
        }
    }
}

pub(crate) fn put_read(line: &mut Line<'_>, text: &[u8]) {
    let read = version::read(text);
    put_reading(line, text, b"ok ", read.verdict, read.version);
}

pub(crate) fn put_pattern(line: &mut Line<'_>, text: &[u8]) {
    let read = version::pattern(text);
    let ok: &[u8] = if read.wildcard { b"ok* " } else { b"ok " };
    put_reading(line, text, ok, read.verdict, read.version);
}

// A word's sixteen digits.
pub(crate) fn put_word(line: &mut Line<'_>, text: &[u8]) {
    match version::word(text) {
        Ok(Some(word)) => {
            line.text(b"word ");
            put_hex(line, &word.0.to_be_bytes());
        }
        Ok(None) => line.text(b"none"),
        Err(refusal) => put_refusal(line, b"no ", refusal),
    }
}

fn put_length(line: &mut Line<'_>, measured: Result<usize, Refusal>) {
    match measured {
        Ok(n) => {
            line.text(b"ok ");
            line.number(n as u64);
        }
        Err(refusal) => put_refusal(line, b"no ", refusal),
    }
}

pub(crate) fn put_clause_count(line: &mut Line<'_>, list: &[u8]) {
    put_length(line, list_clauses::list::check(list));
}

// What a printer answers when it is lent n bytes, and the bytes as it left them: none where they are too many to lend.
pub(crate) fn put_printed<P: FnOnce(&mut [u8]) -> Result<usize, Refusal>>(
    line: &mut Line<'_>,
    n: usize,
    print: P,
) -> Option<()>
    requires { P.IsAlwaysCallable print }
{
    let mut buffer = [165u8; LARGEST_ROOM];
    let room = buffer.get_mut(..n)?;
    put_length(line, print(room));
    line.byte(b' ');
    put_hex(line, room);
    Some(())
}

// The first text has that name.
pub(crate) fn put_yes_no(line: &mut Line<'_>, name: &[u8], said: Result<bool, RefusedInput>) {
    match said {
        Ok(true) => line.text(b"yes"),
        Ok(false) => line.text(b"no"),
        Err(RefusedInput::First(refusal)) => put_refusal(line, name, refusal),
        Err(RefusedInput::Second(refusal)) => put_refusal(line, b"version ", refusal),
    }
}

pub(crate) fn put_compared(line: &mut Line<'_>, compared: Result<Ordering, RefusedInput>) {
    match compared {
        Ok(Ordering::Less) => line.text(b"less"),
        Ok(Ordering::Equal) => line.text(b"equal"),
        Ok(Ordering::Greater) => line.text(b"greater"),
        Err(RefusedInput::First(refusal)) => put_refusal(line, b"first ", refusal),
        Err(RefusedInput::Second(refusal)) => put_refusal(line, b"second ", refusal),
    }
}

fn put_lowest(line: &mut Line<'_>, lowest: Lowest) {
    match lowest {
        Lowest::Nothing => line.text(b"none"),
        Lowest::One(id) => {
            line.text(b"one ");
            line.number(id as u64);
        }
        Lowest::Two(first, second) => {
            line.text(b"two ");
            line.number(first as u64);
            line.byte(b' ');
            line.number(second as u64);
        }
    }
}

pub(crate) fn put_fit(line: &mut Line<'_>, fit: Result<Lowest, RefusedInput>) {
    match fit {
        Ok(lowest) => put_lowest(line, lowest),
        Err(RefusedInput::First(refusal)) => put_refusal(line, b"register ", refusal),
        Err(RefusedInput::Second(refusal)) => put_refusal(line, b"version ", refusal),
    }
}
