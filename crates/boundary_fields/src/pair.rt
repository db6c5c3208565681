// Parts of a version as two numbers: which kind it is, and its number.
ghost use Rattle.std.specs.Prelude.{◌≡◌};
ghost use Rattle.boundary_fields.specs.Pair.{kind_number, pre_pair, part_pair, segment_pair};

use chars::spelling::PreKind;
use version_parts::fields::Pre;
use version_reading::segment::Segment;

#[derive(Clone, Copy)]
pub struct Pair {
    pub kind: u64,
    pub number: u64,
}

fn kind_number(kind: PreKind) -> u64
    ensures { result ≡ kind_number kind }
{
    match kind {
        PreKind::Alpha => 1,
        PreKind::Beta => 2,
        PreKind::Rc => 3,
    }
}

pub(crate) fn pre_pair(pre: Option<Pre>) -> Pair
    ensures { result ≡ pre_pair pre }
{
    match pre {
        None => Pair { kind: 0, number: 0 },
        Some((kind, number)) => Pair {
            kind: kind_number(kind),
            number,
        },
    }
}

pub(crate) fn part_pair(part: Option<u64>) -> Pair
    ensures { result ≡ part_pair part }
{
    match part {
        None => Pair { kind: 0, number: 0 },
        Some(number) => Pair { kind: 1, number },
    }
}

pub(crate) fn segment_pair(segment: Segment) -> Pair
    ensures { result ≡ segment_pair segment }
{
    match segment {
        Segment::Number(number) => Pair { kind: 0, number },
        Segment::Text => Pair { kind: 1, number: 0 },
    }
}
