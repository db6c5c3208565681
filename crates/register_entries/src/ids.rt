// Which identifiers a list has.
ghost use Rattle.std.specs.Prelude.{◌≡◌};
ghost use Rattle.register_entries.specs.Held.{has};

use crate::entry::Entry;

// Whether one of the entries has the identifier `id`.
#[tactic(auto, unfolding(crate::specs::Held::has))]
pub fn has_id(entries: &[Entry], id: u16) -> bool
    ensures { result ≡ has id entries.now }
{
    entries.iter().any(|entry| entry.id == id)
}
