// The lines of an input, one after the other.
ghost use Rattle.std.specs.Prelude.{IfSome, ◌≡◌, length};
ghost use Rattle.lines.specs.Window.{unread, text_of};
ghost use Rattle.lines.specs.Input.{Told, ToldLine, next_of, is_line, nothing_found};

use crate::input::next_line;
use crate::window::{Found, Window, empty, text_of};
use std::io::Read;

// An input with the buffer that it is read through, the line that was found last, and what stands in the buffer after it: of a longer line than
// `longest` only a beginning is told.
#[derive(Drop)]
pub struct Lines<'a, R> {
    input: &'a mut R,
    buffer: &'a mut [u8],
    found: Found,
    window: Window,
    longest: usize,
}

impl<'a, R: Read> Lines<'a, R> {
    pub fn new(input: &'a mut R, buffer: &'a mut [u8], longest: usize) -> Lines<'a, R>
        ensures nothing_read { result.window ≡ unread }
        ensures no_line { result.found ≡ nothing_found }
        ensures in_the_buffer { result.buffer.now ≡ buffer.entry.now }
        ensures limited { result.longest ≡ longest }
    {
        Lines {
            input,
            buffer,
            found: Found::More,
            window: empty(),
            longest,
        }
    }

    // Reads on to the next line, which `line` then gives. False at the end of the input.
    pub fn advance(&mut self) -> bool
        ensures told { Told self.new.buffer.now self.old.longest (next_of self.new.found self.new.window) }
        ensures is_line { result ≡ is_line self.new.found }
        ensures limited { self.new.longest ≡ self.old.longest }
        ensures room { length self.new.buffer.now ≡ length self.old.buffer.now }
    {
        // By a name, so that the proof knows the bytes afterwards.
        let buffer = &mut *self.buffer;
        let next = next_line(self.input, buffer, self.window, self.longest);
        self.found = next.found;
        self.window = next.window;
        match next.found {
            Found::Line(_, _) => true,
            _ => false,
        }
    }

    // The line that was read last; no byte before the first one, and at the end of the input.
    pub fn line(&self) -> &[u8]
        ensures { result.now ≡ text_of self.now.buffer.now self.now.found }
    {
        text_of(self.buffer, self.found)
    }

    // The next line, for those who need to know no more of it than that it was told. None at the end of the input.
    pub fn next(&mut self) -> Option<&[u8]>
        ensures { IfSome result (λ line. ToldLine self.old.longest line.now) }
    {
        if self.advance() {
            return Some(self.line());
        }
        None
    }
}
