// The table of an entry.
ghost use Rattle.std.specs.Prelude.{◌≡◌};
ghost use Rattle.register_rules.specs.Guilt.{table_in};

use chars::place::part;
use register_entries::entry::Entry;

// The bytes from the entry's start on, as many as its length says, as far as the buffer goes.
pub(crate) fn table_in(buffer: &[u8], entry: Entry) -> &[u8]
    ensures { result.now ≡ table_in buffer.now entry }
{
    let behind = part(buffer, entry.start, buffer.len());
    part(behind, 0, entry.length)
}
