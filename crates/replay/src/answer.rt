// A question's answer, by its first word and the number of words.
use crate::decode::{decode, read_natural};
use crate::events::answer_events;
use crate::listed::read_entries;
use crate::say::{
    put_clause_count, put_compared, put_fit, put_hex, put_pattern, put_printed, put_read, put_word,
    put_yes_no,
};
use answer_lines::line::Line;
use register_fit::plain::fit_held;
use std::io::Write;

pub(crate) const LONGEST_LINE: usize = 65536;

fn word(question: &[u8], index: usize) -> &[u8] {
    question.split(|b| *b == b' ').nth(index).unwrap_or(b"")
}

// Puts the answer into the line: none where the question is none, and then what stands in the line is no answer.
pub(crate) fn answer<W: Write>(output: &mut W, question: &[u8], line: &mut Line<'_>) -> Option<()> {
    if LONGEST_LINE < question.len() {
        return None;
    }
    let mut texts = [0u8; LONGEST_LINE];
    if word(question, 0) == b"fragments".as_slice() {
        return answer_events(output, question, &mut texts, line);
    }
    match question.split(|b| *b == b' ').count() {
        2 => of_one_word(question, &mut texts, line),
        3 => of_two_words(question, &mut texts, line),
        4 => of_three_words(question, &mut texts, line),
        _ => None,
    }
}

fn of_one_word(question: &[u8], texts: &mut [u8], line: &mut Line<'_>) -> Option<()> {
    let (text, _) = decode(word(question, 1), texts)?;
    match word(question, 0) {
        b"read" => put_read(line, text),
        b"pattern" => put_pattern(line, text),
        b"word" => put_word(line, text),
        b"list" => put_clause_count(line, text),
        _ => return None,
    }
    Some(())
}

fn of_two_words(question: &[u8], texts: &mut [u8], line: &mut Line<'_>) -> Option<()> {
    let (text, rest) = decode(word(question, 1), texts)?;
    let second = word(question, 2);
    match word(question, 0) {
        b"segment" => put_hex(line, version::segment(text, read_natural(second)?)),
        b"normal" => put_printed(line, read_natural(second)?, |buffer| {
            version::normal(text, buffer)
        })?,
        b"compile" => put_printed(line, read_natural(second)?, |buffer| {
            table_compile::compile(text, buffer)
        })?,
        b"compare" => put_compared(line, version::compare(text, decode(second, rest)?.0)),
        b"accepts" => put_yes_no(
            line,
            b"list ",
            list_accepting::accepts(text, decode(second, rest)?.0),
        ),
        b"lookup" => put_yes_no(
            line,
            b"table ",
            table_lookup::lookup(text, decode(second, rest)?.0),
        ),
        _ => return None,
    }
    Some(())
}

fn of_three_words(question: &[u8], texts: &mut [u8], line: &mut Line<'_>) -> Option<()> {
    if word(question, 0) != b"register".as_slice() {
        return None;
    }
    let held = read_entries(word(question, 1))?;
    let (tables, rest) = decode(word(question, 2), texts)?;
    let (version, _) = decode(word(question, 3), rest)?;
    put_fit(line, fit_held(held, tables, version));
    Some(())
}
