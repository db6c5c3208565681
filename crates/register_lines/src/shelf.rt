// Entering lines one after the other.
ghost use Rattle.std.specs.Prelude.{◌≡◌};
ghost use Rattle.register_entries.specs.Held.{entries_in};
ghost use Rattle.register_lines.specs.Enter.{ListPut, empty_shelf, line_refusal, Entering};

use crate::line::{id_of, list_of};
use answers::Refusal;
use register_entries::entry::Entry;
use register_entries::held::Held;
use register_entries::ids::has_id;
use table_compile::compile;

// The entries so far, and where the next table goes in the lent buffer.
#[derive(Clone, Copy)]
pub struct Shelf {
    pub held: Held,
    pub used: usize,
}

// Writes the table of a list from a place of the buffer on. After the buffer's end there is no room for any.
fn put_list(tables: &mut [u8], used: usize, list: &[u8]) -> Result<usize, Refusal>
    ensures { ListPut tables.old used list.now tables.new result }
{
    if tables.len() < used {
        let mut none = [0u8; 0];
        return compile(list, &mut none);
    }
    compile(list, &mut tables[used..])
}

// Whether a line with that identifier can be entered, whatever its list.
fn admit(entries: &[Entry], id: u16) -> Result<(), Refusal>
    ensures { result ≡ line_refusal entries.now id }
{
    if entries.len() > 63 {
        return Err(Refusal {
            number: 30,
            place: 64,
        });
    }
    if id == 0 {
        return Err(Refusal {
            number: 31,
            place: 0,
        });
    }
    if has_id(entries, id) {
        return Err(Refusal {
            number: 32,
            place: 0,
        });
    }
    Ok(())
}

impl Shelf {
    #[tactic(auto, unfolding(crate::specs::Enter::empty_shelf))]
    pub fn empty() -> Shelf
        ensures { result ≡ empty_shelf }
    {
        Shelf {
            held: Held::none(),
            used: 0,
        }
    }

    // The shelf with one more line. A line that is refused changes no byte of the buffer, and this shelf stands as it was.
    pub fn enter(&self, tables: &mut [u8], line: &[u8]) -> Result<Shelf, Refusal>
        ensures { Entering tables.old self.now line.now tables.new result }
    {
        let id = id_of(line);
        admit(self.held.entries(), id)?;
        let length = put_list(tables, self.used, list_of(line))?;
        let mut held = self.held;
        held.push(Entry {
            id,
            start: self.used,
            length,
        });
        Ok(Shelf {
            held,
            used: self.used + length,
        })
    }
}
