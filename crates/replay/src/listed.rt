// The entries of a register, as a word says them: `ID:START:LENGTH`, with commas between two.
use crate::decode::read_natural;
use register_entries::entry::Entry;
use register_entries::held::Held;

fn read_entry(word: &[u8]) -> Option<Entry> {
    let mut numbers = word.split(|b| *b == b':');
    let id = read_natural(numbers.next()?)?;
    let start = read_natural(numbers.next()?)?;
    let length = read_natural(numbers.next()?)?;
    if numbers.next().is_some() {
        return None;
    }
    let id = u16::try_from(id).ok()?;
    Some(Entry { id, start, length })
}

// None where the word says anything else. Entries after the 65th are read as well, and not held.
pub(crate) fn read_entries(word: &[u8]) -> Option<Held> {
    let mut held = Held::none();
    if word == b"-".as_slice() {
        return Some(held);
    }
    for entry in word.split(|b| *b == b',') {
        held.push(read_entry(entry)?);
    }
    Some(held)
}
