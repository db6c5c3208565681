// One clause of a list.
ghost use Rattle.std.specs.Prelude.{◌≡◌, ◌+◌, ◌-◌, ◌≤◌, length};
ghost use Rattle.list_clauses.specs.Clause.{ClauseIs, stray_wildcard, too_short_for, judged, pattern_clause, clause_of};

use crate::operator::{Operator, find_operator};
use answers::Refusal;
use version_parts::fields::Version;
use version_reading::text::Verdict;

// An operator and a pattern that was read.
#[derive(Clone, Copy)]
pub struct Clause {
    pub operator: Operator,
    pub wildcard: bool,
    pub version: Version,
}

// A wildcard stands after an operator that takes none.
fn stray_wildcard(operator: Operator, wildcard: bool) -> bool
    ensures { result ≡ stray_wildcard operator wildcard }
{
    wildcard && !matches!(operator, Operator::Equal | Operator::NotEqual)
}

// `~=` drops the last release number, and so wants two.
pub fn too_short(operator: Operator, count: usize) -> bool
    ensures { result ≡ too_short_for operator count }
{
    matches!(operator, Operator::Compatible) && count == 1
}

// Refusals 14 to 16 of a pattern that was read, in their order; `place` is where the pattern begins.
fn judge(
    operator: Operator,
    wildcard: bool,
    version: Version,
    place: usize,
) -> Result<Clause, Refusal>
    requires { version.release.len ≤ 16 }
    ensures { ClauseIs (judged operator wildcard version place) result }
{
    if stray_wildcard(operator, wildcard) {
        return Err(Refusal { number: 14, place });
    }
    if version.local.len != 0 {
        return Err(Refusal { number: 15, place });
    }
    if too_short(operator, version.release.len) {
        return Err(Refusal { number: 16, place });
    }
    Ok(Clause {
        operator,
        wildcard,
        version,
    })
}

// The clause with `operator` and the pattern `text`, which stands at `place` of the list.
fn read_pattern(operator: Operator, text: &[u8], place: usize) -> Result<Clause, Refusal>
    requires { place + length text.now ≤ 1024 }
    ensures { ClauseIs (pattern_clause operator text.now place) result }
{
    let read = version::pattern(text);
    match read.verdict {
        Verdict::Refused(refusal) => Err(Refusal {
            number: refusal.number,
            place: place + refusal.place,
        }),
        Verdict::Accepted => judge(operator, read.wildcard, read.version, place),
    }
}

// The clause that starts at `start`, by its bytes without outer blanks, which stand at `from`.
pub(crate) fn read_clause(bytes: &[u8], start: usize, from: usize) -> Result<Clause, Refusal>
    requires { length bytes.now ≤ 1024 - from }
    ensures { ClauseIs (clause_of bytes.now start from) result }
{
    if bytes.len() == 0 {
        return Err(Refusal {
            number: 12,
            place: start,
        });
    }
    let Some((operator, width)) = find_operator(bytes) else {
        return Err(Refusal {
            number: 13,
            place: from,
        });
    };
    read_pattern(operator, &bytes[width..], from + width)
}
