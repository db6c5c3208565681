// The spellings of a version's optional parts, tried in the order of the rules.
ghost use Rattle.std.specs.Prelude.{◌≡◌};
ghost use Rattle.chars.specs.Words.{WordFound, first_in, words_in};
ghost use Rattle.chars.specs.Spelling.{Spelled, PreSpelled, pre_kind_of, pre_spelling, spelling_of, post_spelling, dev_spelling};

use crate::case::beginning;

#[derive(Clone, Copy)]
pub enum PreKind {
    Alpha,
    Beta,
    Rc,
}

// The first word of `words` that `rest` begins with, in either case. One blank stands between two words.
fn first_word(words: &[u8], rest: &[u8]) -> Option<(usize, usize)>
    ensures { WordFound rest.now (first_in 0 (words_in words.now) rest.now) result }
{
    let lens = words
        .split(|b| *b == b' ')
        .map(|word| beginning(rest, word));
    match lens.enumerate().find(|(_, len)| *len != 0) {
        Some((which, len)) => Some((which, len)),
        None => None,
    }
}

// The kind that the pre-release spelling number `which` says.
#[tactic(auto, unfolding(crate::specs::Spelling::pre_kind_of))]
fn pre_kind(which: usize) -> PreKind
    ensures { result ≡ pre_kind_of which }
{
    match which {
        0 => PreKind::Alpha,
        1 => PreKind::Beta,
        2 => PreKind::Rc,
        3 => PreKind::Rc,
        4 => PreKind::Rc,
        5 => PreKind::Alpha,
        6 => PreKind::Beta,
        _ => PreKind::Rc,
    }
}

// 'preview' and the long names come before their own beginnings, which would hide them.
#[tactic(auto, using(crate::proofs::Spellings::pre_found, crate::proofs::Spellings::pre_missing))]
pub fn pre_spelling(rest: &[u8]) -> Option<(PreKind, usize)>
    ensures { PreSpelled rest.now (pre_spelling rest.now) result }
{
    match first_word(b"alpha beta preview pre rc a b c", rest) {
        Some((which, len)) => Some((pre_kind(which), len)),
        None => None,
    }
}

// The first of `words` as a spelling that has no kinds.
fn spelling_of(words: &[u8], rest: &[u8]) -> Option<usize>
    ensures { Spelled rest.now (spelling_of (first_in 0 (words_in words.now) rest.now)) result }
{
    match first_word(words, rest) {
        Some((_, len)) => Some(len),
        None => None,
    }
}

#[tactic(auto, using(crate::proofs::Spellings::post_spelled))]
pub fn post_spelling(rest: &[u8]) -> Option<usize>
    ensures { Spelled rest.now (post_spelling rest.now) result }
{
    spelling_of(b"post rev r", rest)
}

#[tactic(auto, using(crate::proofs::Spellings::dev_spelled))]
pub fn dev_spelling(rest: &[u8]) -> Option<usize>
    ensures { Spelled rest.now (dev_spelling rest.now) result }
{
    spelling_of(b"dev", rest)
}
