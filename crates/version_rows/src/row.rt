// Making rows, and what two rows say of their versions.
ghost use Rattle.std.specs.Prelude.{◌≡◌, [], ◌∷◌, ◌++◌, replicate};
ghost use Prim.Native.Nat.{compare};
ghost use Rattle.order.specs.Answer.{name_of};
ghost use Rattle.order.specs.Compare.{padded};
ghost use Rattle.version_reading.specs.Plain.{FilledPlain, whole_version};
ghost use Rattle.version_reading.specs.Value.{value_of};
ghost use Rattle.version_rows.specs.Row.{post_mark, post_number, key_numbers, RowOf, row_begins};

use order::compare_numbers;
use std::cmp::Ordering;
use version_compare::key::{key_from, key_of};
use version_order::key::Key;
use version_parts::fields::Version;
use version_prefix::prefix::begins_with;
use version_reading::plain::Plain;

// 1 where there is a post, so that a missing one is below post 0.
fn post_mark(post: Option<u64>) -> u64
    ensures { result ≡ post_mark post }
{
    match post {
        None => 0,
        Some(_) => 1,
    }
}

fn post_number(post: Option<u64>) -> u64
    ensures { result ≡ post_number post }
{
    post.unwrap_or(0)
}

// Leaves the epoch, four release numbers, zeros for the others, and the key.
fn put_four(
    row: &mut [u64; 22],
    epoch: u64,
    first: u64,
    second: u64,
    third: u64,
    fourth: u64,
    key: Key,
)
    ensures { row.new ≡ epoch ∷ first ∷ second ∷ third ∷ fourth ∷ (replicate 12 0 ++ key_numbers key) }
{
    *row = [0; 22];
    row[0] = epoch;
    row[1] = first;
    row[2] = second;
    row[3] = third;
    row[4] = fourth;
    row[17] = key.kind;
    row[18] = key.pre;
    row[19] = post_mark(key.post);
    row[20] = post_number(key.post);
    row[21] = key.dev;
}

// Leaves the row of `version`.
pub fn row_of(version: Version, row: &mut [u64; 22])
    ensures { RowOf (value_of [] version) row.new }
{
    let numbers = version.release.numbers;
    let count = version.release.len.min(16);
    put_four(row, version.epoch, 0, 0, 0, 0, key_of(version));
    row[1..1 + count].copy_from_slice(&numbers[..count]);
}

// The same of a plain version, whose fields need not be laid out.
pub(crate) fn row_of_plain(plain: Plain, row: &mut [u64; 22])
    requires { FilledPlain plain }
    ensures { RowOf (value_of [] (whole_version plain)) row.new }
{
    let key = key_from(plain.pre, plain.post, plain.dev);
    put_four(
        row,
        0,
        plain.first,
        plain.second,
        plain.third,
        plain.fourth,
        key,
    );
}

// How the version of the row `a` compares with that of `b`.
pub fn compare_rows(a: &[u64; 22], b: &[u64; 22]) -> Ordering
    ensures { result ≡ name_of (padded compare 0 a.now b.now) }
{
    compare_numbers(a, b)
}

// Whether `row` has the epoch of `prefix` and the first `count` of its release numbers.
pub fn row_begins(prefix: &[u64; 22], count: usize, row: &[u64; 22]) -> bool
    ensures { result ≡ row_begins count prefix.now row.now }
{
    begins_with(row, &prefix[..=count.min(16)])
}
