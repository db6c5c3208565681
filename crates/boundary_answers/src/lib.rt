// How answers are told to a caller in C: a number that is returned, and three in a lent array.
#![tactic(auto)]

pub mod said;
