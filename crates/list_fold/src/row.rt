// The keys of ends, computed once: an end's row of numbers is its level, and where that is 1 its version's row and its side.
ghost use Rattle.std.specs.Prelude.{◌≡◌, [], ◌∷◌, ◌++◌};
ghost use Rattle.list_ends.specs.End.{place_of};
ghost use Rattle.version_reading.specs.Value.{value_of};
ghost use Rattle.list_fold.specs.Row.{VersionRow, PlaceRow};

use list_ends::end::{End, Side};
use version_parts::fields::Version;
use version_rows::row::row_of;

// The row `numbers` of a version after the level, and `side` after it.
fn with_side(numbers: [u64; 22], side: u64) -> [u64; 24]
    ensures { result ≡ 1 ∷ (numbers ++ (side ∷ [])) }
{
    let mut row = [0u64; 24];
    row[0] = 1;
    row[23] = side;
    row[1..23].copy_from_slice(&numbers);
    row
}

fn version_row(version: Version, side: u64) -> [u64; 24]
    ensures { VersionRow side (value_of [] version) result }
{
    let mut numbers = [0u64; 22];
    row_of(version, &mut numbers);
    with_side(numbers, side)
}

// The row of an end.
pub(crate) fn key_row(end: End) -> [u64; 24]
    ensures { PlaceRow (place_of end) result }
{
    match end.side {
        Side::Bottom => [0; 24],
        Side::Top => {
            let mut row = [0u64; 24];
            row[0] = 2;
            row
        }
        Side::Before => version_row(end.version, 0),
        Side::After => version_row(end.version, 1),
    }
}
