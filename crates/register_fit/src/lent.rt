// Which table fits a unit.
ghost use Rattle.std.specs.Prelude.{◌≡◌};
ghost use Rattle.register_rules.specs.Fit.{fit_of};

use crate::rules::keep_rules;
use crate::search::search;
use answers::RefusedInput;
use register_entries::entry::Entry;
use register_rules::lowest::Lowest;
use version_reading::text::Verdict;
use version_rows::read::read_row;

// Which of the tables that the entries name in the buffer holds the version. The register's rules come in their order, then its tables, then
// the version, which is read once for all tables.
#[tactic(auto, using(crate::proofs::Fitting::rules_told, crate::proofs::Fitting::table_told, crate::proofs::Fitting::version_told, crate::proofs::Fitting::lowest_told))]
pub fn fitting(entries: &[Entry], buffer: &[u8], text: &[u8]) -> Result<Lowest, RefusedInput>
    ensures { result ≡ fit_of entries.now buffer.now text.now }
{
    keep_rules(entries, buffer).map_err(RefusedInput::First)?;
    let mut row = [0u64; 22];
    let verdict = read_row(text, &mut row);
    let lowest = search(entries, buffer, verdict, &row).map_err(RefusedInput::First)?;
    match verdict {
        Verdict::Accepted => Ok(lowest),
        Verdict::Refused(refusal) => Err(RefusedInput::Second(refusal)),
    }
}
