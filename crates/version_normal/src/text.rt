// The whole normal text of a version.
ghost use Rattle.answers.specs.Printed.{Printed};
ghost use Rattle.decimal.specs.Put.{Put};
ghost use Rattle.version_normal.specs.Normal.{front_text, back_text, version_text, NormalPrinted};

use crate::label::put_label;
use crate::numbers::{put_epoch, put_part, put_pre, put_release};
use answers::Refusal;
use version_parts::fields::Version;
use version_reading::text::{Verdict, read_version};

fn put_front(buf: &mut [u8], at: usize, version: Version) -> usize
    ensures { Put 379 buf.old at (front_text version) buf.new result }
{
    let first = put_epoch(buf, at, version.epoch);
    let behind = put_release(buf, first, version.release);
    put_pre(buf, behind, version.pre)
}

fn put_back(buf: &mut [u8], at: usize, s: &[u8], version: Version) -> usize
    ensures { Put 1048946 buf.old at (back_text s.now version) buf.new result }
{
    let after_post = put_part(buf, at, b".post", version.post);
    let after_dev = put_part(buf, after_post, b".dev", version.dev);
    put_label(buf, after_dev, s, version.local)
}

// The normal text of a version whose label lies in s.
pub fn put_version(buf: &mut [u8], at: usize, s: &[u8], version: Version) -> usize
    ensures { Put 1049325 buf.old at (version_text s.now version) buf.new result }
{
    let middle = put_front(buf, at, version);
    put_back(buf, middle, s, version)
}

// Writes the normal text of a version to the front of a buffer, or says how much room it needs.
pub fn print_version(s: &[u8], version: Version, buf: &mut [u8]) -> Result<usize, Refusal>
    ensures { Printed (version_text s.now version) buf.old buf.new result }
{
    let mut none = [0u8; 0];
    let need = put_version(&mut none, 0, s, version);
    if buf.len() < need {
        return Err(Refusal {
            number: 11,
            place: need,
        });
    }
    Ok(put_version(buf, 0, s, version))
}

// The normal text of the version that a text says.
pub fn print_normal(text: &[u8], buf: &mut [u8]) -> Result<usize, Refusal>
    ensures { NormalPrinted text.now buf.old buf.new result }
{
    let read = read_version(text);
    if let Verdict::Refused(refusal) = read.verdict {
        return Err(refusal);
    }
    print_version(text, read.version, buf)
}
