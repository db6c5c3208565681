// The rules on entries that need no table, and the first entry that breaks one.
ghost use Rattle.std.specs.Prelude.{◌≡◌, ◌+◌, ◌==◌, eqb, ltb, length, position};
ghost use Rattle.register_fit.specs.Rules.{is_repeated, FirstWhere, refused_at, rules_kept};

use answers::Refusal;
use register_entries::entry::Entry;
use register_entries::ids::has_id;

fn first_zero(entries: &[Entry]) -> Option<usize>
    ensures { result ≡ position (λ e. eqb e.id 0) entries.now }
{
    entries.iter().position(|entry| entry.id == 0)
}

// The first entry whose identifier an earlier one has.
#[tactic(auto, using(crate::proofs::Keeping::also_not))]
fn first_repeated(entries: &[Entry]) -> Option<usize>
    ensures { FirstWhere (is_repeated entries.now) (length entries.now) result }
{
    for (i, entry) in entries.iter().enumerate() {
        if has_id(&entries[..i], entry.id) {
            return Some(i);
        }
    }
    None
}

// The first entry whose table does not end within a buffer of that size.
fn first_outside(entries: &[Entry], size: usize) -> Option<usize>
    ensures { result ≡ position (λ e. ltb size (e.start + e.length)) entries.now }
{
    // Start and length may be any numbers: their sum is not made.
    entries.iter().position(|entry| size < entry.start || size - entry.start < entry.length)
}

// The refusal of an entry that breaks a rule, where there is one.
fn refuse_at(number: u8, place: Option<usize>) -> Result<(), Refusal>
    ensures { result ≡ refused_at number place }
{
    match place {
        Some(place) => Err(Refusal { number, place }),
        None => Ok(()),
    }
}

// Each rule is held against all entries before the next one is.
#[tactic(auto, using(crate::proofs::Keeping::too_many, crate::proofs::Keeping::outside_told))]
pub(crate) fn keep_rules(entries: &[Entry], buffer: &[u8]) -> Result<(), Refusal>
    ensures { result ≡ rules_kept buffer.now entries.now }
{
    if entries.len() > 64 {
        return Err(Refusal {
            number: 30,
            place: 64,
        });
    }
    refuse_at(31, first_zero(entries))?;
    refuse_at(32, first_repeated(entries))?;
    refuse_at(33, first_outside(entries, buffer.len()))
}
