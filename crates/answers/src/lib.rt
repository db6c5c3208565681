// Why calls refuse: one kind of refusal everywhere, and one for calls that judge two inputs.
#![tactic(auto)]

// A refusal's number and its place, as the table of refusals has them. The number is no enum: it is what C is told, and what the statements that
// name each refusal's case (`Fault`) range over.
#[derive(Clone, Copy)]
pub struct Refusal {
    pub number: u8,
    pub place: usize,
}

// Which of the two inputs of a call is refused, and why: a list or a table before a version, a register before a version, the first version
// before the second.
#[derive(Clone, Copy)]
pub enum RefusedInput {
    First(Refusal),
    Second(Refusal),
}
