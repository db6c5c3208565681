// A text that is put together in a lent buffer, for those that print it.
ghost use Rattle.std.specs.Prelude.{◌≡◌, false, ◌+◌, ◌≤◌, [], ◌∷◌, length, max, IsTrue};
ghost use Rattle.chars.specs.Place.{PartOf};
ghost use Rattle.decimal.specs.Digits.{decimal};
ghost use Rattle.decimal.specs.Put.{Put};
ghost use Rattle.answer_lines.specs.Room.{Roomed, made};
ghost use Rattle.answer_lines.specs.Text.{refusal_line, normal_line};

use crate::room::make_room;
use crate::text::{put_normal, put_refusal};
use answers::Refusal;
use chars::place::part;
use decimal::put::{put_byte, put_bytes, put_number};
use std::io::Write;

// The buffer, and where the text ends in it. What has no room there is left out.
#[derive(Drop)]
pub struct Line<'a> {
    pub buffer: &'a mut [u8],
    pub end: usize,
}

impl<'a> Line<'a> {
    // An empty one.
    pub fn new(buffer: &'a mut [u8]) -> Line<'a>
        ensures at_the_front { result.end ≡ 0 }
        ensures in_the_buffer { result.buffer.now ≡ buffer.entry.now }
    {
        Line { buffer, end: 0 }
    }

    pub fn so_far(&self) -> &[u8]
        ensures { PartOf self.now.buffer.now 0 self.now.end result.now }
    {
        part(self.buffer, 0, self.end)
    }

    pub fn clear(&mut self)
        ensures at_the_front { self.new.end ≡ 0 }
        ensures as_it_was { self.new.buffer.now ≡ self.old.buffer.now }
    {
        self.end = 0;
    }

    pub fn byte(&mut self, b: u8)
        ensures { Put 1 self.old.buffer.now self.old.end (b ∷ []) self.new.buffer.now self.new.end }
    {
        self.end = put_byte(self.buffer, self.end, b);
    }

    pub fn text(&mut self, text: &[u8])
        ensures { Put (length text.now) self.old.buffer.now self.old.end text.now self.new.buffer.now self.new.end }
    {
        self.end = put_bytes(self.buffer, self.end, text);
    }

    pub fn number(&mut self, n: u64)
        ensures { Put 20 self.old.buffer.now self.old.end (decimal n) self.new.buffer.now self.new.end }
    {
        self.end = put_number(self.buffer, self.end, n);
    }

    pub fn refusal(&mut self, name: &[u8], refusal: Refusal)
        ensures { Put (length name.now + 45) self.old.buffer.now self.old.end (refusal_line name.now refusal) self.new.buffer.now self.new.end }
    {
        self.end = put_refusal(self.buffer, self.end, name, refusal);
    }

    // A version in its normal text.
    pub fn normal(&mut self, name: &[u8], version: &[u8])
        ensures { Put (length name.now + 1049326) self.old.buffer.now self.old.end (normal_line name.now version.now) self.new.buffer.now self.new.end }
    {
        self.end = put_normal(self.buffer, self.end, name, version);
    }

    // Writes the text so far and begins anew, if what comes next, which has at most `longest` bytes, might find no room after it. False where
    // it can't be written.
    pub fn make_room<W: Write>(&mut self, output: &mut W, longest: usize) -> bool
        ensures made { Roomed self.old.buffer.now self.old.end longest (made result self.new.end) }
        ensures room { IsTrue result → (self.new.end + longest ≤ max longest (length self.old.buffer.now)) }
        ensures closed { result ≡ false → self.new.end ≡ self.old.end }
        ensures as_it_was { self.new.buffer.now ≡ self.old.buffer.now }
    {
        let end = self.end;
        // By a name, so that the proof knows the bytes afterwards.
        let buffer = &mut *self.buffer;
        let Some(next) = make_room(output, buffer, end, longest) else {
            return false;
        };
        self.end = next;
        true
    }
}
