// The rows of all ends of a list, one after the other, and the order of ends by their rows.
ghost use Rattle.std.specs.Prelude.{◌≡◌, ◌≤◌, ◌<◌, ◌*◌, ◌+◌, length};
ghost use Rattle.std.proofs.Math.Seq.{paste};
ghost use Rattle.list_fold.specs.Row.{row_at, le_row};

use order::compare_numbers;

// Stores a row as the one with that number.
pub(crate) fn put_row(rows: &mut [u64], number: usize, row: [u64; 24])
    requires { (24 * number + 24 ≤ length rows.old) × (number < 34) }
    ensures { rows.new ≡ paste rows.old (24 * number) row 24 }
{
    let start = 24 * number;
    rows[start..start + 24].copy_from_slice(&row);
}

// The row with that number, as far as there are rows.
fn row_at(rows: &[u64], number: u8) -> &[u64]
    ensures { result.now ≡ row_at rows.now number }
{
    let start = 24 * (number as usize);
    let end = start + 24;
    if rows.len() <= start {
        return &rows[..0];
    }
    if rows.len() < end {
        return &rows[start..];
    }
    &rows[start..end]
}

// The end with the one number lies at or below the other.
pub(crate) fn at_most(rows: &[u64], a: u8, b: u8) -> bool
    ensures { result ≡ le_row rows.now a b }
{
    compare_numbers(row_at(rows, a), row_at(rows, b)).is_le()
}
