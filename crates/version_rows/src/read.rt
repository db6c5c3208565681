// Reading a version or a pattern into a lent row.
ghost use Rattle.std.specs.Prelude.{◌≡◌, []};
ghost use Rattle.version_reading.specs.Reading.{pattern_as, pattern_of};
ghost use Rattle.version_reading.specs.Value.{value_of};
ghost use Rattle.version_rows.specs.Read.{row_by, RowRead, PatternRowRead};

use crate::row::{row_of, row_of_plain};
use version_parts::fields::Version;
use version_reading::plain::read_plain;
use version_reading::text::{Verdict, read_by_rules};

// What is said of a pattern beside its row: whether a wildcard follows, how many release numbers it has, and whether it has a label.
#[derive(Clone, Copy)]
pub struct PatternRow {
    pub verdict: Verdict,
    pub wildcard: bool,
    pub count: usize,
    pub labelled: bool,
}

// A refused text leaves the row as it was.
fn put_accepted(verdict: Verdict, version: Version, row: &mut [u64; 22])
    ensures { row.new ≡ row_by verdict (value_of [] version) row.old }
{
    if let Verdict::Accepted = verdict {
        row_of(version, row);
    }
}

fn row_by_rules(text: &[u8], wildcards: bool, row: &mut [u64; 22]) -> PatternRow
    ensures { PatternRowRead (pattern_as wildcards text.now) row.old row.new result }
{
    let read = read_by_rules(text, wildcards);
    let version = read.version;
    put_accepted(read.verdict, version, row);
    PatternRow {
        verdict: read.verdict,
        wildcard: read.wildcard,
        count: version.release.len,
        labelled: version.local.len != 0,
    }
}

// Most texts are plain versions; the others are read by the rules.
fn row_as(text: &[u8], wildcards: bool, row: &mut [u64; 22]) -> PatternRow
    ensures { PatternRowRead (pattern_as wildcards text.now) row.old row.new result }
{
    if let Some(plain) = read_plain(text) {
        row_of_plain(plain, row);
        return PatternRow {
            verdict: Verdict::Accepted,
            wildcard: false,
            count: plain.count,
            labelled: false,
        };
    }
    row_by_rules(text, wildcards, row)
}

// Leaves the row of the version that `text` says; where it is refused, the row as it was.
pub fn read_row(text: &[u8], row: &mut [u64; 22]) -> Verdict
    ensures { RowRead text.now row.old row.new result }
{
    let read = row_as(text, false, row);
    read.verdict
}

// The same of a version that a wildcard may follow.
pub fn read_pattern_row(text: &[u8], row: &mut [u64; 22]) -> PatternRow
    ensures { PatternRowRead (pattern_of text.now) row.old row.new result }
{
    row_as(text, true, row)
}
