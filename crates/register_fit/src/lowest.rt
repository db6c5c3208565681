// The two lowest identifiers of those that were met.
ghost use Rattle.std.specs.Prelude.{◌≡◌};
ghost use Rattle.register_rules.specs.Lowest.{lowered};

use register_rules::lowest::Lowest;

// One more is met.
pub(crate) fn lower(lowest: Lowest, id: u16) -> Lowest
    ensures { result ≡ lowered lowest id }
{
    match lowest {
        Lowest::Nothing => Lowest::One(id),
        Lowest::One(first) => {
            if id < first {
                return Lowest::Two(id, first);
            }
            Lowest::Two(first, id)
        }
        Lowest::Two(first, second) => {
            if id < first {
                return Lowest::Two(id, first);
            }
            if id < second {
                return Lowest::Two(first, id);
            }
            Lowest::Two(first, second)
        }
    }
}
