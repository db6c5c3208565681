// A text without its trailing blanks.
ghost use Rattle.list_clauses.specs.Trim.{Trimmed};

use chars::class;

// How many bytes are left without the trailing blanks.
pub(crate) fn trimmed_len(s: &[u8]) -> usize
    ensures { Trimmed s.now result }
{
    s.iter()
        .rposition(|b| class::class_by_ranges(*b) != class::BLANK)
        .map_or(0, |last| last + 1)
}
