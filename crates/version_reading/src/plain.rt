// The quick way for the versions that are met most: no epoch, at most four release numbers, no label, no blanks. They need no array.
ghost use Rattle.std.specs.Prelude.{◌≡◌, ◌≤◌, length};
ghost use Rattle.version_reading.specs.Plain.{
  Filled,
  PlainHeaded,
  PlainRead,
  after_first,
  after_second,
  after_third,
  after_fourth,
  plain_head_of,
  plain_at,
  plain_of,
  plain_with,
  whole_version,
};

use chars::case::beginning;
use chars::place::byte_at;
use version_parts::fields::{Local, Pre, Release, Version};
use version_parts::places::{marked_number, number_at};
use version_parts::suffix::read_suffix;

// The release numbers, and how many they are. Those that are not there are 0. Each number has a field of its own, and so a step of its own.
#[derive(Clone, Copy)]
pub struct PlainHead {
    pub count: usize,
    pub first: u64,
    pub second: u64,
    pub third: u64,
    pub fourth: u64,
    pub at: usize,
}

#[derive(Clone, Copy)]
pub struct Plain {
    pub count: usize,
    pub first: u64,
    pub second: u64,
    pub third: u64,
    pub fourth: u64,
    pub pre: Option<Pre>,
    pub post: Option<u64>,
    pub dev: Option<u64>,
}

// After the fourth number no fifth may come.
fn after_fourth(
    s: &[u8],
    first: u64,
    second: u64,
    third: u64,
    fourth: u64,
    at: usize,
) -> Option<PlainHead>
    requires { at ≤ length s.now }
    ensures { PlainHeaded (length s.now) (after_fourth s.now first second third fourth at) result }
{
    match marked_number(s, at, b'.') {
        Ok(None) => Some(PlainHead {
            count: 4,
            first,
            second,
            third,
            fourth,
            at,
        }),
        Ok(Some(_)) => None,
        Err(_) => None,
    }
}

fn after_third(s: &[u8], first: u64, second: u64, third: u64, at: usize) -> Option<PlainHead>
    requires { at ≤ length s.now }
    ensures { PlainHeaded (length s.now) (after_third s.now first second third at) result }
{
    match marked_number(s, at, b'.') {
        Ok(None) => Some(PlainHead {
            count: 3,
            first,
            second,
            third,
            fourth: 0,
            at,
        }),
        Ok(Some((fourth, next))) => after_fourth(s, first, second, third, fourth, next),
        Err(_) => None,
    }
}

fn after_second(s: &[u8], first: u64, second: u64, at: usize) -> Option<PlainHead>
    requires { at ≤ length s.now }
    ensures { PlainHeaded (length s.now) (after_second s.now first second at) result }
{
    match marked_number(s, at, b'.') {
        Ok(None) => Some(PlainHead {
            count: 2,
            first,
            second,
            third: 0,
            fourth: 0,
            at,
        }),
        Ok(Some((third, next))) => after_third(s, first, second, third, next),
        Err(_) => None,
    }
}

fn after_first(s: &[u8], first: u64, at: usize) -> Option<PlainHead>
    requires { at ≤ length s.now }
    ensures { PlainHeaded (length s.now) (after_first s.now first at) result }
{
    match marked_number(s, at, b'.') {
        Ok(None) => Some(PlainHead {
            count: 1,
            first,
            second: 0,
            third: 0,
            fourth: 0,
            at,
        }),
        Ok(Some((second, next))) => after_second(s, first, second, next),
        Err(_) => None,
    }
}

fn read_plain_head(s: &[u8]) -> Option<PlainHead>
    ensures { PlainHeaded (length s.now) (plain_head_of s.now) result }
{
    let Ok(Some((first, next))) = number_at(s, 0) else {
        return None;
    };
    if byte_at(s, next) == b'!' {
        return None;
    }
    after_first(s, first, next)
}

pub fn plain_with(head: PlainHead, pre: Option<Pre>, post: Option<u64>, dev: Option<u64>) -> Plain
    ensures { result ≡ plain_with head pre post dev }
{
    Plain {
        count: head.count,
        first: head.first,
        second: head.second,
        third: head.third,
        fourth: head.fourth,
        pre,
        post,
        dev,
    }
}

// From after the release on: nothing, or a suffix and nothing.
fn read_plain_rest(s: &[u8], head: PlainHead) -> Option<Plain>
    requires { (head.at ≤ length s.now) × (head.count ≤ 4) × Filled head.count head.first head.second head.third head.fourth }
    ensures { PlainRead (plain_at s.now head) result }
{
    let at = head.at;
    if at == s.len() {
        return Some(plain_with(head, None, None, None));
    }
    if beginning(&s[at..], b".*") != 0 {
        return None;
    }
    let Ok(((pre, post, dev), next)) = read_suffix(s, at) else {
        return None;
    };
    if next == s.len() {
        return Some(plain_with(head, pre, post, dev));
    }
    None
}

// A text that is not found here may still be a version.
pub fn read_plain(s: &[u8]) -> Option<Plain>
    ensures { PlainRead (plain_of s.now) result }
{
    if 1024 < s.len() {
        return None;
    }
    let head = read_plain_head(s)?;
    read_plain_rest(s, head)
}

// The same version in all its fields.
pub fn whole(plain: Plain) -> Version
    ensures { result ≡ whole_version plain }
{
    let mut numbers = [0u64; 16];
    numbers[0] = plain.first;
    numbers[1] = plain.second;
    numbers[2] = plain.third;
    numbers[3] = plain.fourth;
    let release = Release {
        numbers,
        len: plain.count,
    };
    let local = Local::none();
    Version {
        epoch: 0,
        release,
        pre: plain.pre,
        post: plain.post,
        dev: plain.dev,
        local,
    }
}
