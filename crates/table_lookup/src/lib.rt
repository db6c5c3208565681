// Looking a version up in a table. The version and the table's ends are rows of numbers, which compare as the versions do.
#![tactic(auto)]

mod end;
mod end_at;
pub mod search;

ghost use Rattle.std.specs.Prelude.{◌≡◌};
ghost use Rattle.table_reading.specs.Lookup.{judged, looked};
ghost use Rattle.table_lookup.specs.Lookup.{looked_row};

use crate::search::search_table;
use answers::RefusedInput;
use version_reading::text::Verdict;
use version_rows::read::read_row;

// What is said of a version, and where it is accepted, whether it is held.
fn judge(verdict: Verdict, held: bool) -> Result<bool, RefusedInput>
    ensures { result ≡ judged verdict held }
{
    match verdict {
        Verdict::Accepted => Ok(held),
        Verdict::Refused(refusal) => Err(RefusedInput::Second(refusal)),
    }
}

// What `lookup` answers of `table` and the text of which `read_row` said `verdict` and left `row`: who asks several tables reads the text once.
pub fn lookup_row(table: &[u8], verdict: Verdict, row: &[u64; 22]) -> Result<bool, RefusedInput>
    ensures { result ≡ looked_row table.now verdict row.now }
{
    match search_table(table, row) {
        Err(refusal) => Err(RefusedInput::First(refusal)),
        Ok(held) => judge(verdict, held),
    }
}

// Whether `version`, without its label, lies between the two ends of some range of `table`. The table is judged before the version.
pub fn lookup(table: &[u8], version: &[u8]) -> Result<bool, RefusedInput>
    ensures { result ≡ looked table.now version.now }
{
    let mut row = [0u64; 22];
    let verdict = read_row(version, &mut row);
    lookup_row(table, verdict, &row)
}
