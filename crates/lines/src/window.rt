// What was read and not yet told lies in a window of a buffer: where its first line stands, and the window after that line.
ghost use Rattle.std.specs.Prelude.{◌≡◌, ◌+◌, ◌^◌, ◌<◌};
ghost use Rattle.lines.specs.Window.{unread, LineLength, limit, told, untold, front, past_cut, text_of};

use chars::place::part;
use chars::scan::find;

#[derive(Clone, Copy)]
pub struct Window {
    pub start: usize,
    pub end: usize,
    // Inside a line that was told before its end was read.
    pub cut: bool,
    // The input has ended.
    pub done: bool,
}

// A line's first place and the place after its last byte; or that more has to be read; or that there is no further line. No Option: the last two
// are no line for different reasons.
#[derive(Clone, Copy)]
pub enum Found {
    Line(usize, usize),
    More,
    End,
}

#[derive(Clone, Copy)]
pub struct Next {
    pub found: Found,
    pub window: Window,
}

// Nothing was read yet.
pub fn empty() -> Window
    ensures { result ≡ unread }
{
    Window {
        start: 0,
        end: 0,
        cut: false,
        done: false,
    }
}

// How many bytes stand before the first line feed, or in all where there is none.
fn line_length(text: &[u8]) -> usize
    ensures { LineLength text.now result }
{
    find(text, 0, b'\n')
}

// The longest line that waits for its line feed: one that fills the buffer can't, and at the end of the input none does.
fn longest_open(done: bool, longest: usize, size: usize) -> usize
    ensures { result ≡ limit done longest size }
{
    if done {
        return 0;
    }
    longest.min(size.saturating_sub(1))
}

// The line of that length at the front, and the window that begins `behind` bytes later.
fn tell(window: Window, len: usize, behind: usize, cut: bool) -> Next
    requires { (window.start + len < 2 ^ 64) × (window.start + behind < 2 ^ 64) }
    ensures { result ≡ told window len behind cut }
{
    let start = window.start;
    Next {
        found: Found::Line(start, start + len),
        window: Window {
            start: start + behind,
            end: window.end,
            cut,
            done: window.done,
        },
    }
}

fn tell_nothing(window: Window) -> Next
    ensures { result ≡ untold window }
{
    if window.done {
        return Next {
            found: Found::End,
            window,
        };
    }
    Next {
        found: Found::More,
        window,
    }
}

// The line at the front of the window. It is told when its line feed is there, and without it when it is longer than the longest or the input
// has ended: what comes up to that line feed is then still to be dropped.
pub fn first_line(buffer: &[u8], window: Window, longest: usize) -> Next
    ensures { result ≡ front buffer.now window longest }
{
    let text = part(buffer, window.start, window.end);
    let len = line_length(text);
    if len < text.len() {
        return tell(window, len, len + 1, false);
    }
    if longest_open(window.done, longest, buffer.len()) < len {
        return tell(window, len, len, true);
    }
    tell_nothing(window)
}

// Drops what is left of a line that was cut.
pub fn past_cut(buffer: &[u8], window: Window) -> Window
    ensures { result ≡ past_cut buffer.now window }
{
    let start = window.start;
    let end = window.end;
    if !window.cut {
        return window;
    }
    let text = part(buffer, start, end);
    let len = line_length(text);
    if len < text.len() {
        return Window {
            start: start + len + 1,
            end,
            cut: false,
            done: window.done,
        };
    }
    Window {
        start: end,
        end,
        cut: true,
        done: window.done,
    }
}

// The bytes of the line that was found, and none where none was.
pub fn text_of(buffer: &[u8], found: Found) -> &[u8]
    ensures { result.now ≡ text_of buffer.now found }
{
    match found {
        Found::Line(start, end) => part(buffer, start, end),
        Found::More => part(buffer, 0, 0),
        Found::End => part(buffer, 0, 0),
    }
}
