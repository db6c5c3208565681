// The operators of clauses, by their bytes.
ghost use Rattle.list_clauses.specs.Operator.{Operated, operator_of, order_of};

use chars::place::byte_at;

#[derive(Clone, Copy)]
pub enum Operator {
    Equal,
    NotEqual,
    Compatible,
    AtMost,
    AtLeast,
    Below,
    Above,
}

// `===` is no operator here. A byte past the end is 0, which stands in none.
pub fn find_operator(rest: &[u8]) -> Option<(Operator, usize)>
    ensures { Operated rest.now (operator_of rest.now) result }
{
    if byte_at(rest, 1) != b'=' {
        return find_order(rest);
    }
    let first = byte_at(rest, 0);
    if first == b'=' {
        if byte_at(rest, 2) == b'=' {
            return None;
        }
        return Some((Operator::Equal, 2));
    }
    if first == b'!' {
        return Some((Operator::NotEqual, 2));
    }
    if first == b'~' {
        return Some((Operator::Compatible, 2));
    }
    find_order(rest)
}

// The two bytes of `<=` and `>=` come before their own beginnings.
fn find_order(rest: &[u8]) -> Option<(Operator, usize)>
    ensures { Operated rest.now (order_of rest.now) result }
{
    let first = byte_at(rest, 0);
    if byte_at(rest, 1) == b'=' {
        if first == b'<' {
            return Some((Operator::AtMost, 2));
        }
        if first == b'>' {
            return Some((Operator::AtLeast, 2));
        }
        return None;
    }
    if first == b'<' {
        return Some((Operator::Below, 1));
    }
    if first == b'>' {
        return Some((Operator::Above, 1));
    }
    None
}
