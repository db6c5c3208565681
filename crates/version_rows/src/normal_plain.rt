// The quick way for the normal texts that are met most, those of plain versions. What is found here is what the rules say of the text; what is
// not found may still be a version's normal text.
ghost use Rattle.std.specs.Prelude.{◌≡◌, ◌≤◌, length};
ghost use Rattle.version_normal.specs.Normal.{kind_text};
ghost use Rattle.version_reading.specs.Plain.{plain_head};
ghost use Rattle.version_rows.specs.NormalPlain.{PreRead, TwoRead, HeadRead, NormalPlainRead};

use crate::figures::{figures_at, part_at};
use chars::place::byte_at;
use chars::spelling::PreKind;
use version_parts::fields::Pre;
use version_reading::plain::{Plain, PlainHead, plain_with};

// The same of a pre-release.
#[derive(Clone, Copy)]
pub struct PreAt {
    pub pre: Option<Pre>,
    pub next: usize,
}

fn pre_of(s: &[u8], at: usize, name: &[u8], kind: PreKind) -> PreAt
    requires { (at ≤ length s.now) × (name.now ≡ kind_text kind) }
    ensures { PreRead s.now at result }
{
    let read = part_at(s, at, name);
    PreAt {
        pre: read.part.map(|n| (kind, n)),
        next: read.next,
    }
}

fn pre_at(s: &[u8], at: usize) -> PreAt
    requires { at ≤ length s.now }
    ensures { PreRead s.now at result }
{
    match byte_at(s, at) {
        b'a' => pre_of(s, at, b"a", PreKind::Alpha),
        b'b' => pre_of(s, at, b"b", PreKind::Beta),
        _ => pre_of(s, at, b"rc", PreKind::Rc),
    }
}

fn head(count: usize, first: u64, second: u64, third: u64, fourth: u64, at: usize) -> PlainHead
    ensures { result ≡ plain_head count first second third fourth at }
{
    PlainHead {
        count,
        first,
        second,
        third,
        fourth,
        at,
    }
}

// The third release number and the fourth, where they are there.
fn after_second(s: &[u8], first: u64, second: u64, at: usize) -> PlainHead
    requires { TwoRead s.now first second at }
    ensures { HeadRead s.now result }
{
    let three = part_at(s, at, b".");
    let Some(third) = three.part else {
        return head(2, first, second, 0, 0, at);
    };
    let four = part_at(s, three.next, b".");
    let Some(fourth) = four.part else {
        return head(3, first, second, third, 0, three.next);
    };
    head(4, first, second, third, fourth, four.next)
}

// The release numbers, four at most.
fn head_of(s: &[u8]) -> PlainHead
    ensures { HeadRead s.now result }
{
    let one = figures_at(s, 0);
    let Some(first) = one.part else {
        return head(0, 0, 0, 0, 0, 0);
    };
    let two = part_at(s, one.next, b".");
    let Some(second) = two.part else {
        return head(1, first, 0, 0, 0, one.next);
    };
    after_second(s, first, second, two.next)
}

// A suffix after the release, and nothing after it.
fn suffixed(s: &[u8], head: PlainHead) -> Option<Plain>
    requires { HeadRead s.now head × (head.count ≡ 0 → ⊥) }
    ensures { NormalPlainRead s.now result }
{
    let pre_read = pre_at(s, head.at);
    let post_read = part_at(s, pre_read.next, b".post");
    let dev_read = part_at(s, post_read.next, b".dev");
    if dev_read.next != s.len() {
        return None;
    }
    Some(plain_with(head, pre_read.pre, post_read.part, dev_read.part))
}

// The plain version whose normal text `s` is, if it is found.
pub fn read_normal_plain(s: &[u8]) -> Option<Plain>
    ensures { NormalPlainRead s.now result }
{
    let head = head_of(s);
    if head.count == 0 {
        return None;
    }
    if head.at == s.len() {
        return Some(plain_with(head, None, None, None));
    }
    suffixed(s, head)
}
