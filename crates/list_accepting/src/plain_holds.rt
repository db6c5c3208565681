// What a clause with a plain version accepts of plain versions.
ghost use Rattle.std.specs.Prelude.{◌≡◌, false, ◌&&◌};
ghost use Rattle.order.specs.Ordering.{is_ge};
ghost use Rattle.order.specs.Answer.{name_of};
ghost use Rattle.version_reading.specs.Plain.{FilledPlain};
ghost use Rattle.version_order.specs.Versions.{compare_public};
ghost use Rattle.version_prefix.specs.Prefix.{prefix_matches, shorter};
ghost use Rattle.list_accepting.specs.Accept.{holds};
ghost use Rattle.list_accepting.specs.Plain.{plain_value};

use list_clauses::operator::Operator;
use std::cmp::Ordering;
use version_compare::plain::compare_plains;
use version_reading::plain::Plain;

fn order_of(w: Plain, v: Plain) -> Ordering
    requires { FilledPlain w × FilledPlain v }
    ensures { result ≡ name_of (compare_public (plain_value w) (plain_value v)) }
{
    compare_plains(w, v)
}

// Whether w has the release numbers of v but the last.
fn begins_alike(v: Plain, w: Plain) -> bool
    requires { FilledPlain v × FilledPlain w }
    ensures { result ≡ prefix_matches (shorter (plain_value v)) (plain_value w) }
{
    let count = v.count;
    if count <= 1 {
        return true;
    }
    if v.first != w.first {
        return false;
    }
    if count == 2 {
        return true;
    }
    if v.second != w.second {
        return false;
    }
    if count == 3 {
        return true;
    }
    if v.third != w.third {
        return false;
    }
    true
}

// At least v, and a match without its last release number.
fn compatible_plain(v: Plain, w: Plain) -> bool
    requires { FilledPlain v × FilledPlain w }
    ensures { result ≡ is_ge (compare_public (plain_value w) (plain_value v)) && prefix_matches (shorter (plain_value v)) (plain_value w) }
{
    order_of(w, v).is_ge() && begins_alike(v, w)
}

pub(crate) fn holds_plain(operator: Operator, v: Plain, w: Plain) -> bool
    requires { FilledPlain v × FilledPlain w }
    ensures { result ≡ holds operator false (plain_value v) (plain_value w) }
{
    match operator {
        Operator::Equal => order_of(w, v).is_eq(),
        Operator::NotEqual => order_of(w, v).is_ne(),
        Operator::Compatible => compatible_plain(v, w),
        Operator::AtMost => order_of(w, v).is_le(),
        Operator::AtLeast => order_of(w, v).is_ge(),
        Operator::Below => order_of(w, v).is_lt(),
        Operator::Above => order_of(w, v).is_gt(),
    }
}
