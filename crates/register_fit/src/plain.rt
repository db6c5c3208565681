// The register for callers that have no list of entries to lend.
ghost use Rattle.std.specs.Prelude.{◌≡◌};
ghost use Rattle.register_entries.specs.Held.{entries_in, entries_of};
ghost use Rattle.register_rules.specs.Fit.{fit_of};

use crate::lent::fitting;
use answers::RefusedInput;
use register_entries::held::Held;
use register_rules::lowest::Lowest;

// Entries that are held by value.
pub fn fit_held(held: Held, buffer: &[u8], text: &[u8]) -> Result<Lowest, RefusedInput>
    ensures { result ≡ fit_of (entries_in held) buffer.now text.now }
{
    fitting(held.entries(), buffer, text)
}

// An entry for each identifier; a start or a length that is missing is 0.
#[tactic(auto, using(crate::proofs::Whole::fit_gathered))]
pub fn fit_numbers(
    ids: &[u16],
    starts: &[usize],
    lengths: &[usize],
    buffer: &[u8],
    text: &[u8],
) -> Result<Lowest, RefusedInput>
    ensures { result ≡ fit_of (entries_of ids.now starts.now lengths.now) buffer.now text.now }
{
    fit_held(Held::of_numbers(ids, starts, lengths), buffer, text)
}
