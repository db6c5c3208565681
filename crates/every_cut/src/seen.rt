// What a text is told, whole and in lumps, in a form that can be compared.
use boundary_fields::fields::put_accepted;
use chars::place::part;
use fragment_reader::{lent, reader};
use fragment_rules::reader::Reader;
use version_parts::fields::Version;
use version_reading::text::Verdict;

// The number and the place of a refusal, or none, and the fields.
#[derive(PartialEq, Eq, Drop)]
pub(crate) struct Seen {
    pub refused: Option<(u8, usize)>,
    pub fields: [u64; 89],
}

fn told(text: &[u8], verdict: Verdict, version: Version) -> Seen {
    let mut fields = [0u64; 89];
    put_accepted(&mut fields, text, verdict, version);
    let refused = match verdict {
        Verdict::Accepted => None,
        Verdict::Refused(refusal) => Some((refusal.number, refusal.place)),
    };
    Seen { refused, fields }
}

pub(crate) fn whole(text: &[u8]) -> Seen {
    let read = version::read(text);
    told(text, read.verdict, read.version)
}

fn says_nothing(state: &Reader) -> bool {
    matches!(reader::said(*state).says, None)
}

// A verdict before the end mark is one too early, unless the text is too long.
fn is_early(text: &[u8], settled: bool) -> bool {
    settled != (1024 < text.len())
}

// By a reader by value; a lump after the end mark changes nothing. None where the verdict comes too early, or not at all.
pub(crate) fn by_value(text: &[u8], first: usize, second: usize) -> Option<Seen> {
    let mut state = reader::fresh();
    state = reader::take(state, part(text, 0, first));
    state = reader::take(state, part(text, first, second));
    state = reader::take(state, part(text, second, text.len()));
    if is_early(text, !says_nothing(&state)) {
        return None;
    }
    state = reader::end(state);
    state = reader::take(state, b"9");
    by_said(&state)
}

// The text is asked for its fields where it is held.
fn by_said(state: &Reader) -> Option<Seen> {
    let said = reader::said(*state);
    match said.says {
        Some(verdict) => Some(told(part(&state.held, 0, state.count), verdict, said.version)),
        None => None,
    }
}

// The same by a reader in lent bytes, of which the text is asked again.
pub(crate) fn by_lent(text: &[u8], first: usize, second: usize) -> Option<Seen> {
    let mut state = [0u8; 1027];
    lent::take(&mut state, part(text, 0, first));
    lent::take(&mut state, part(text, first, second));
    let settled = lent::take(&mut state, part(text, second, text.len()));
    if is_early(text, settled) {
        return None;
    }
    lent::end(&mut state);
    if lent::take(&mut state, b"9") {
        Some(whole(lent::text(&state)))
    } else {
        None
    }
}
