// The order of plain versions: four numbers and a key.
ghost use Rattle.std.specs.Prelude.{◌≡◌};
ghost use Rattle.order.specs.Answer.{name_of};
ghost use Rattle.version_order.specs.Key.{key_of};
ghost use Rattle.version_compare.specs.Plain.{compare_numbers, compare_plains};

use crate::key::key_from;
use std::cmp::Ordering;
use version_order::key::Key;
use version_reading::plain::Plain;

fn compare_four(v: Plain, w: Plain) -> Ordering
    ensures { result ≡ name_of (compare_numbers v w) }
{
    (v.first, v.second, v.third, v.fourth).cmp(&(w.first, w.second, w.third, w.fourth))
}

fn key_of_plain(plain: Plain) -> Key
    ensures { result ≡ key_of plain.pre plain.post plain.dev }
{
    key_from(plain.pre, plain.post, plain.dev)
}

pub fn compare_plains(v: Plain, w: Plain) -> Ordering
    ensures { result ≡ name_of (compare_plains v w) }
{
    compare_four(v, w).then_with(|| key_of_plain(v).cmp(&key_of_plain(w)))
}
