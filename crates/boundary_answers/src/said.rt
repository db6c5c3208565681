// Answers in numbers: what a call returns, and what it leaves in the lent answer.
ghost use Rattle.std.specs.Prelude.{◌≡◌};
ghost use Rattle.boundary_answers.specs.Said.{Told, answered, refused_of, of_refused, of_verdict, of_says, of_measured, of_compared, of_worded, of_yes_no, of_lowest, of_fit};

use answers::{Refusal, RefusedInput};
use register_rules::lowest::Lowest;
use std::cmp::Ordering;
use version_reading::text::Verdict;
use version_word::packed::Word;

// A refusal's number and place, and which of the two texts it is about; or a value, with 0 for the rest.
#[derive(Clone, Copy)]
pub struct Said {
    pub number: u8,
    pub value: u64,
    pub place: u64,
    pub of: u64,
}

fn answer(value: u64) -> Said
    ensures { result ≡ answered value }
{
    Said {
        number: 0,
        value,
        place: 0,
        of: 0,
    }
}

fn refused(of: u64, refusal: Refusal) -> Said
    ensures { result ≡ refused_of of refusal }
{
    Said {
        number: refusal.number,
        value: 0,
        place: refusal.place as u64,
        of,
    }
}

pub fn of_verdict(verdict: Verdict, wildcard: bool) -> Said
    ensures { result ≡ of_verdict verdict wildcard }
{
    match verdict {
        Verdict::Accepted => answer(wildcard as u64),
        Verdict::Refused(refusal) => refused(1, refusal),
    }
}

// While a reader of lumps has nothing to say, the number is none of a refusal.
pub fn of_says(says: Option<Verdict>) -> Said
    ensures { result ≡ of_says says }
{
    match says {
        None => Said {
            number: 255,
            value: 0,
            place: 0,
            of: 0,
        },
        Some(verdict) => of_verdict(verdict, false),
    }
}

pub fn of_measured(measured: Result<usize, Refusal>) -> Said
    ensures { result ≡ of_measured measured }
{
    match measured {
        Ok(length) => answer(length as u64),
        Err(refusal) => refused(1, refusal),
    }
}

// Which of the two inputs is refused, and why.
fn of_refused(input: RefusedInput) -> Said
    ensures { result ≡ of_refused input }
{
    match input {
        RefusedInput::First(refusal) => refused(1, refusal),
        RefusedInput::Second(refusal) => refused(2, refusal),
    }
}

pub fn of_compared(compared: Result<Ordering, RefusedInput>) -> Said
    ensures { result ≡ of_compared compared }
{
    match compared {
        Ok(Ordering::Less) => answer(0),
        Ok(Ordering::Equal) => answer(1),
        Ok(Ordering::Greater) => answer(2),
        Err(input) => of_refused(input),
    }
}

pub fn of_worded(worded: Result<Option<Word>, Refusal>) -> Said
    ensures { result ≡ of_worded worded }
{
    match worded {
        Ok(Some(word)) => answer(word.0),
        Ok(None) => answer(0),
        Err(refusal) => refused(1, refusal),
    }
}

pub fn of_yes_no(yes_no: Result<bool, RefusedInput>) -> Said
    ensures { result ≡ of_yes_no yes_no }
{
    match yes_no {
        Ok(false) => answer(0),
        Ok(true) => answer(1),
        Err(input) => of_refused(input),
    }
}

// Two identifiers in one number: each has 16 bits.
fn of_lowest(lowest: Lowest) -> Said
    ensures { result ≡ of_lowest lowest }
{
    match lowest {
        Lowest::Nothing => answer(0),
        Lowest::One(id) => answer(id as u64),
        Lowest::Two(first, second) => answer(first as u64 + 65536 * (second as u64)),
    }
}

pub fn of_fit(fit: Result<Lowest, RefusedInput>) -> Said
    ensures { result ≡ of_fit fit }
{
    match fit {
        Ok(lowest) => of_lowest(lowest),
        Err(input) => of_refused(input),
    }
}

// Leaves the value, the place and which text in the answer, and returns the number.
pub fn tell(said: Said, answer: &mut [u64; 3]) -> u8
    ensures { Told said answer.new result }
{
    *answer = [said.value, said.place, said.of];
    said.number
}
