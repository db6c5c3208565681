// Rule 8: the local label.
ghost use Rattle.std.specs.Prelude.{◌<◌, ◌≤◌, length};
ghost use Rattle.version_parts.specs.Fields.{Spans, no_local, pushed_span};
ghost use Rattle.version_parts.specs.Places.{Stepped};
ghost use Rattle.version_reading.specs.Label.{Labelled, word_end, segments_from, label_at};

use answers::Refusal;
use chars::class;
use chars::place::byte_at;
use version_parts::fields::{Local, Span};
use version_parts::places::separator_end;

// Past letters and digits.
fn word_end(s: &[u8], at: usize) -> usize
    requires { at ≤ length s.now }
    ensures { Stepped s.now at (word_end s.now at) result }
{
    at + class::run(&s[at..], class::DIGIT, class::LETTER)
}

// The label so far, and one segment more.
fn pushed(mut local: Local, span: Span) -> Local
    requires { local.len < 16 }
    ensures { Spans (pushed_span local span) result }
{
    let i = local.len;
    local.spans[i] = span;
    local.len = i + 1;
    local
}

// Segments from a place on, one separator between two, and the place after them.
fn read_segments(s: &[u8], from: usize) -> Result<(Local, usize), Refusal>
    requires { (from ≤ length s.now) × (length s.now ≤ 1024) }
    ensures { Labelled (length s.now) (segments_from 16 s.now no_local from) result }
{
    let mut local = Local::none();
    let mut at = from;
    // A turn begins where the last segment and its separator ended: there is no element to go over.
    loop {
        let end = word_end(s, at);
        if end == at {
            return Err(Refusal {
                number: 4,
                place: at,
            });
        }
        if local.len == 16 {
            return Err(Refusal {
                number: 10,
                place: at,
            });
        }
        let span = Span {
            start: at as u16,
            end: end as u16,
        };
        local = pushed(local, span);
        let next = separator_end(s, end);
        if next == end {
            return Ok((local, end));
        }
        at = next;
    }
}

// The label, if one stands there, and where the rest begins.
pub(crate) fn read_label(s: &[u8], at: usize) -> Result<(Local, usize), Refusal>
    requires { (at ≤ length s.now) × (length s.now ≤ 1024) }
    ensures { Labelled (length s.now) (label_at s.now at) result }
{
    if byte_at(s, at) == b'+' {
        return read_segments(s, at + 1);
    }
    Ok((Local::none(), at))
}
