// What a list of clauses accepts: each clause by itself.
#![tactic(auto)]

pub mod accept;
mod holds;
mod plain;
mod plain_accept;
mod plain_holds;

ghost use Rattle.std.specs.Prelude.{◌≡◌};
ghost use Rattle.list_accepting.specs.Accept.{accepted};

use crate::accept::accept_version;
use crate::plain_accept::accept_plain;
use answers::RefusedInput;
use version_reading::plain::read_plain;
use version_reading::text::Verdict;

// The list is judged first; what it says of a refused version is not used.
fn accept_read(list: &[u8], text: &[u8]) -> Result<bool, RefusedInput>
    ensures { result ≡ accepted list.now text.now }
{
    let read = version::read(text);
    let held = accept_version(list, read.version).map_err(RefusedInput::First)?;
    match read.verdict {
        Verdict::Accepted => Ok(held),
        Verdict::Refused(refusal) => Err(RefusedInput::Second(refusal)),
    }
}

// Whether every clause of a list accepts a version. Most versions are plain, and need no fields laid out.
pub fn accepts(list: &[u8], text: &[u8]) -> Result<bool, RefusedInput>
    ensures { result ≡ accepted list.now text.now }
{
    let Some(plain) = read_plain(text) else {
        return accept_read(list, text);
    };
    accept_plain(list, plain).map_err(RefusedInput::First)
}
