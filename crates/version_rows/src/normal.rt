// Texts that are the normal text of a version without a label, as the ends of a table have them.
ghost use Rattle.std.specs.Prelude.{◌≡◌};
ghost use Rattle.chars.specs.Same.{same_bytes};
ghost use Rattle.version_reading.specs.declared.text.Verdict.TheVariants.{Accepted};
ghost use Rattle.version_reading.specs.Reading.{version_of};
ghost use Rattle.version_normal.specs.Normal.{normal_text};
ghost use Rattle.version_rows.specs.Normal.{NormalRead, NormalRow};

use crate::normal_plain::read_normal_plain;
use crate::row::{row_of, row_of_plain};
use chars::same::same_bytes;
use version_normal::text::print_version;
use version_parts::fields::Version;
use version_reading::text::{Verdict, read_by_rules};

// A normal text without a label has at most 427 bytes, so that the buffer has room for it.
fn is_normal(text: &[u8], version: Version) -> bool
    requires { (version ≡ (version_of text.now).version) × ((version_of text.now).verdict ≡ Accepted) × (version.local.len ≡ 0) }
    ensures { result ≡ same_bytes (normal_text text.now) text.now }
{
    let mut buffer = [0u8; 512];
    let Ok(len) = print_version(text, version, &mut buffer) else {
        return false;
    };
    same_bytes(&buffer[..len], text)
}

// The way for every text: it is read by the rules, and compared with what is printed of it. An error has the version that was read all the same.
pub fn read_normal(text: &[u8]) -> Result<Version, Version>
    ensures { NormalRead text.now result }
{
    let read = read_by_rules(text, false);
    let version = read.version;
    let Verdict::Accepted = read.verdict else {
        return Err(version);
    };
    if version.local.len != 0 {
        return Err(version);
    }
    if is_normal(text, version) {
        Ok(version)
    } else {
        Err(version)
    }
}

// Whether `text` is the normal text of a version without a label. It leaves that version's row; where it is not, the row as it was.
pub fn normal_row(text: &[u8], row: &mut [u64; 22]) -> bool
    ensures { NormalRow text.now row.old row.new result }
{
    if let Some(plain) = read_normal_plain(text) {
        row_of_plain(plain, row);
        return true;
    }
    match read_normal(text) {
        Ok(version) => {
            row_of(version, row);
            true
        }
        Err(_) => false,
    }
}
