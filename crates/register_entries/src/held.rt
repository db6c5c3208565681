// A list of entries in fixed memory: the first 65 of it, which is enough to tell a list over 64.
ghost use Rattle.std.specs.Prelude.{◌≡◌, [], get_or};
ghost use Rattle.register_entries.specs.Held.{held_of, with_entry, entries_in, entries_of};

use crate::entry::Entry;

// The first `count` of the list; those after them are blank.
#[derive(Clone, Copy)]
pub struct Held {
    pub list: [Entry; 65],
    pub count: usize,
}

fn number_at(numbers: &[usize], at: usize) -> usize
    ensures { result ≡ get_or numbers.now at 0 }
{
    numbers.get(at).copied().unwrap_or(0)
}

impl Held {
    #[tactic(auto, unfolding(crate::specs::Held::held_of))]
    pub fn none() -> Held
        ensures { result ≡ held_of [] }
    {
        Held {
            list: [Entry {
                id: 0,
                start: 0,
                length: 0,
            }; 65],
            count: 0,
        }
    }

    // An entry for each identifier, in turn; a start or a length that is missing is 0.
    #[tactic(auto, using(crate::proofs::Numbered::numbers_turn, crate::proofs::Numbered::numbers_end))]
    pub fn of_numbers(ids: &[u16], starts: &[usize], lengths: &[usize]) -> Held
        ensures { result ≡ held_of (entries_of ids.now starts.now lengths.now) }
    {
        let mut held = Held::none();
        // None after the 65th is held, however many there are.
        let first = &ids[..ids.len().min(65)];
        for (i, id) in first.iter().enumerate() {
            held.push(Entry {
                id: *id,
                start: number_at(starts, i),
                length: number_at(lengths, i),
            });
        }
        held
    }

    // One more entry after the others, while there is room.
    #[tactic(auto, unfolding(crate::specs::Held::with_entry))]
    pub fn push(&mut self, entry: Entry)
        ensures { self.new ≡ with_entry self.old entry }
    {
        if self.count < 65 {
            self.list[self.count] = entry;
            self.count += 1;
        }
    }

    // The entries that are held.
    #[tactic(auto, using(crate::proofs::Holding::held_whole))]
    pub fn entries(&self) -> &[Entry]
        ensures { result.now ≡ entries_in self.now }
    {
        &self.list[..self.count.min(65)]
    }
}
