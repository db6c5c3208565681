// The events of a reader of lumps, as words say them, and what it says after each.
use crate::decode::decode;
use crate::say::put_reading;
use answer_lines::line::Line;
use chars::place::part;
use fragment_reader::reader;
use fragment_rules::reader::Reader;
use std::io::Write;

#[derive(Clone, Copy)]
enum Event<'t> {
    Lump(&'t [u8]),
    End,
    Reset,
}

// A lump is put into the buffer.
fn event_of<'t>(word: &[u8], texts: &'t mut [u8]) -> Option<Event<'t>> {
    match word {
        b"end" => Some(Event::End),
        b"reset" => Some(Event::Reset),
        _ => {
            let (lump, _) = decode(word, texts)?;
            Some(Event::Lump(lump))
        }
    }
}

fn after(state: Reader, event: Event<'_>) -> Reader {
    match event {
        Event::Lump(lump) => reader::take(state, lump),
        Event::End => reader::end(state),
        Event::Reset => reader::reset(state),
    }
}

fn put_said(line: &mut Line<'_>, state: &Reader) {
    let said = reader::said(*state);
    match said.says {
        Some(verdict) => put_reading(
            line,
            part(&state.held, 0, state.count),
            b"ok ",
            verdict,
            said.version,
        ),
        _ => line.text(b"none"),
    }
}

// What is said after each event. All but the last are written here, since a line may have more events than the buffer has room for; nothing
// is said of a question with a word that is no event, or with none.
pub(crate) fn answer_events<W: Write>(
    output: &mut W,
    question: &[u8],
    texts: &mut [u8],
    line: &mut Line<'_>,
) -> Option<()> {
    let words = || question.split(|b| *b == b' ').skip(1);
    if words().count() == 0 || !words().all(|word| event_of(word, texts).is_some()) {
        return None;
    }
    let mut state = reader::fresh();
    for (i, word) in words().enumerate() {
        if i > 0 {
            line.text(b" | ");
            // Nobody is left to be told of a write that fails.
            let _ = output.write_all(line.so_far());
            line.clear();
        }
        state = after(state, event_of(word, texts)?);
        put_said(line, &state);
    }
    Some(())
}
