// The kinds of a table's records, by their numbers.
ghost use Rattle.std.specs.Prelude.{◌≡◌};
ghost use Rattle.table_reading.specs.Kind.{kind_of};

use list_ends::end::Side;

// The numbers are the table's format. How many ranges there are.
pub const RANGE_COUNT: usize = 1;

// The lower ends: none below, before V, after V.
pub const NONE_BELOW: usize = 2;

pub const FROM_BEFORE: usize = 3;

pub const FROM_AFTER: usize = 4;

// The upper ends: none above, before V, after V.
pub const NONE_ABOVE: usize = 5;

pub const TO_BEFORE: usize = 6;

pub const TO_AFTER: usize = 7;

// The two ends of a range: the one that is due, or the one that a record holds.
#[derive(Clone, Copy, PartialEq, Eq)]
pub enum Due {
    Lower,
    Upper,
}

// The count of the ranges, an end with its side, or nothing that a table may hold.
#[derive(Clone, Copy)]
pub enum Kind {
    Count,
    End(Due, Side),
    Unknown,
}

#[tactic(auto, unfolding(crate::specs::Kind::kind_of))]
pub fn kind_of(number: usize) -> Kind
    ensures { result ≡ kind_of number }
{
    match number {
        RANGE_COUNT => Kind::Count,
        NONE_BELOW => Kind::End(Due::Lower, Side::Bottom),
        FROM_BEFORE => Kind::End(Due::Lower, Side::Before),
        FROM_AFTER => Kind::End(Due::Lower, Side::After),
        NONE_ABOVE => Kind::End(Due::Upper, Side::Top),
        TO_BEFORE => Kind::End(Due::Upper, Side::Before),
        TO_AFTER => Kind::End(Due::Upper, Side::After),
        _ => Kind::Unknown,
    }
}
