// Compiling a clause list into a range table.
#![tactic(auto)]

mod print;
mod record;

ghost use Rattle.table_compile.specs.Compiled.{Compiled};

use answers::Refusal;
use list_fold::fold::fold;
use print::print_table;

// Writes the table of a list to the front of a buffer. A refused list, or a buffer that is too short, leaves the buffer as it was, and success
// what lies after the table.
pub fn compile(list: &[u8], buffer: &mut [u8]) -> Result<usize, Refusal>
    ensures { Compiled list.now buffer.old buffer.new result }
{
    let folded = fold(list)?;
    print_table(list, folded.ranges.ranges(), buffer)
}
