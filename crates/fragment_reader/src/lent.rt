// A reader in bytes that the caller lends, for callers who can't pass one by value: nothing of it is copied. All zeros are a new one, and
// any bytes are some reader.
ghost use Rattle.std.specs.Prelude.{◌≡◌, ◌++◌, ◌+◌, ◌≤◌, length, take, drop};
ghost use Rattle.std.proofs.lemmas.List.Edits.{sets};
ghost use Rattle.fragment_rules.specs.Reader.{Said, counted, fresh, taken, marked, said_by, settled};
ghost use Rattle.fragment_rules.specs.Lent.{lent, reader_in, text_in};
ghost use Rattle.fragment_reader.specs.Hold.{reader_by};

use crate::hold::{LONGEST, hold, say};
use chars::place::{byte_at, part};
use fragment_rules::answer::Answer;

fn count_in(state: &[u8]) -> usize
    ensures { result ≡ (reader_in state.now).count }
{
    let came = byte_at(state, 1024) as usize + 256 * (byte_at(state, 1025) as usize);
    if LONGEST < came {
        return LONGEST + 1;
    }
    came
}

fn ended_in(state: &[u8]) -> bool
    ensures { result ≡ (reader_in state.now).ended }
{
    byte_at(state, 1026) != 0
}

fn put_mark(state: &mut [u8], count: usize, ended: bool)
    requires count_bound { count ≤ 1025 }
    requires state_len { length state.old ≡ 1027 }
    ensures { state.new ≡ lent (reader_by (take 1024 state.old) count ended) }
{
    state[1024] = (count % 256) as u8;
    state[1025] = (count / 256) as u8;
    state[1026] = ended as u8;
}

// A lump after the text, and not after the count and the mark.
fn hold_in(state: &mut [u8], count: usize, lump: &[u8]) -> usize
    requires { 1024 ≤ length state.old }
    ensures value { result ≡ counted (count + length lump.now) }
    ensures state_after { state.new ≡ sets (take 1024 state.old) count lump.now ++ drop 1024 state.old }
{
    hold(&mut state[..1024], count, lump)
}

// A lump of any length, also none; says whether there is a verdict.
pub fn take(state: &mut [u8; 1027], lump: &[u8]) -> bool
    ensures value { result ≡ settled (taken (reader_in state.old) lump.now) }
    ensures state_after { state.new ≡ lent (taken (reader_in state.old) lump.now) }
{
    let count = count_in(state);
    if ended_in(state) {
        put_mark(state, count, true);
        return true;
    }
    let came = hold_in(state, count, lump);
    put_mark(state, came, false);
    LONGEST < came
}

// The end mark.
pub fn end(state: &mut [u8; 1027])
    ensures { state.new ≡ lent (marked (reader_in state.old)) }
{
    let count = count_in(state);
    put_mark(state, count, true)
}

// As new, byte for byte.
pub fn reset(state: &mut [u8; 1027])
    ensures { state.new ≡ lent fresh }
{
    *state = [0; 1027];
}

// The fields of the whole text or its refusal, once there is a verdict.
pub fn said(state: &[u8; 1027]) -> Answer
    ensures { Said (said_by (reader_in state.now)) result }
{
    say(state, count_in(state), ended_in(state))
}

// The text that came, as a part of the lent bytes, of which every question about a version may be asked: no byte before the verdict.
pub fn text(state: &[u8; 1027]) -> &[u8]
    ensures { result.now ≡ text_in state.now }
{
    let count = count_in(state);
    if LONGEST < count {
        return part(state, 0, count);
    }
    if ended_in(state) {
        return part(state, 0, count);
    }
    part(state, 0, 0)
}
