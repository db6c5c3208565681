// Reading on from an input that comes in parts.
ghost use Rattle.std.specs.Prelude.{◌≡◌, ◌≤◌, length, replicate};
ghost use Rattle.lines.specs.Input.{Slid, Behind, ReadOn, Told};

use crate::window::{Found, Next, Window, first_line, past_cut};
use chars::place::part;
use std::io::Read;

// Room for a line of 65,536 bytes and some of what follows it. Its length is said, so that nobody has to count the zeros again.
pub fn buffer() -> [u8; 69632]
    ensures value { result ≡ replicate 69632 0 }
    ensures value_2 { 69632 ≡ length result }
{
    [0; 69632]
}

// Moves the part from start to end to the front, and says how long it is.
fn slide(buffer: &mut [u8], start: usize, end: usize) -> usize
    ensures { Slid buffer.old start end buffer.new result }
{
    let count = part(buffer, start, end).len();
    if 0 < count {
        buffer.copy_within(start..start + count, 0);
    }
    count
}

// The place after what one read brings, which is the same place at the end of the input. A read that fails counts as the end.
fn read_behind<R: Read>(input: &mut R, buffer: &mut [u8], at: usize) -> usize
    requires { at ≤ length buffer.old }
    ensures { Behind buffer.old at buffer.new result }
{
    match input.read(&mut buffer[at..]) {
        Ok(n) => at + n,
        Err(_) => at,
    }
}

// Moves what is held to the front of the buffer and reads on after it. A read that brings nothing is the end of the input.
pub fn read_on<R: Read>(input: &mut R, buffer: &mut [u8], window: Window) -> Window
    ensures { ReadOn buffer.old window buffer.new result }
{
    let kept = slide(buffer, window.start, window.end);
    let end = read_behind(input, buffer, kept);
    Window {
        start: 0,
        end,
        cut: window.cut,
        done: end == kept,
    }
}

// The next line, with as many reads as it takes.
pub fn next_line<R: Read>(input: &mut R, buffer: &mut [u8], window: Window, longest: usize) -> Next
    ensures { Told buffer.new longest result }
{
    let mut open = past_cut(buffer, window);
    // A proved loop has to end, and nothing says that the input does: no run uses this count up.
    for _ in 0..u64::MAX {
        let next = first_line(buffer, open, longest);
        let found = next.found;
        let Found::More = found else {
            return next;
        };
        let read = read_on(input, buffer, open);
        open = past_cut(buffer, read);
    }
    first_line(
        buffer,
        Window {
            start: open.start,
            end: open.end,
            cut: open.cut,
            done: true,
        },
        longest,
    )
}
