// A lent list of entries, held by value.
ghost use Rattle.std.specs.Prelude.{◌≡◌};
ghost use Rattle.register_entries.specs.Held.{held_of};

use crate::entry::Entry;
use crate::held::Held;

// The list as it is lent.
#[tactic(auto, using(crate::proofs::Holding::gathers_turn, crate::proofs::Holding::gathers_end))]
pub fn gathered(entries: &[Entry]) -> Held
    ensures { result ≡ held_of entries.now }
{
    let mut held = Held::none();
    // None after the 65th is held, however many there are.
    for entry in &entries[..entries.len().min(65)] {
        held.push(*entry);
    }
    held
}
