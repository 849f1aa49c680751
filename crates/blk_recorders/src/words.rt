//! The words of a line, and what a word may be: a number, the nanoseconds of a second.

ghost use Rattle.std.specs.Prelude.{◌≡◌, ◌==◌, ◌≤◌, ◌<◌, ◌^◌, ◌∷◌, ◌++◌, IfOk, OnOk, IfSome, get_or, length, []};
ghost use Rattle.std.specs.List.{position};
ghost use Rattle.blk_recorders.specs.Words.{is_blank, words, line_between, IsLineEnd, fields, not_empty, number_from, number, nanoseconds, before_byte, behind_byte, behind_last, begins_with, word_texts};

use std::alloc::{AllocError, Global};

/// Whether a byte stands between words: a space, a tab, or the carriage return before a line's end.
pub(crate) fn is_blank(byte: u8) -> bool
    ensures { result ≡ is_blank byte }
{
    byte == b' ' || byte == b'\t' || byte == b'\r'
}

/// The words of lines, and the fields of rows: two lists that are filled anew for each line, so that few lines ask for memory.
#[derive(Drop)]
pub(crate) struct SplitLine<'a> {
    /// The words of the line that was cut last.
    pub(crate) words: Vec<&'a [u8]>,
    /// The fields of the row that was cut last.
    pub(crate) fields: Vec<&'a [u8]>,
}

impl<'a> SplitLine<'a> {
    /// Empty lists, which take no memory.
    pub(crate) fn new(alloc: Global) -> SplitLine<'a> {
        SplitLine {
            words: Vec::new(alloc),
            fields: Vec::new(alloc),
        }
    }
}

/// Puts the words of the line of a text that begins at a place, what stands between blanks, in place of those in a list. Answers where the line
/// ends: at its line feed, or else at the end of the text.
pub(crate) fn cut_line<'a>(
    text: &'a [u8],
    from: usize,
    cut: &mut Vec<&'a [u8]>,
) -> Result<usize, AllocError>
    requires { from ≤ length text.now }
    ensures end { IfOk result (IsLineEnd text.now from) }
    ensures cut { IfOk result (λ end. word_texts cut.new.items ≡ words (line_between text.now from end)) }
{
    cut.clear();
    let mut begin = from;
    for place in from..text.len() {
        let byte = text[place];
        // most bytes are greater than a blank, and are asked once
        if byte > b' ' {
            continue;
        }
        if is_blank(byte) {
            push_word(&text[begin..place], cut)?;
            begin = place + 1;
        } else if byte == b'\n' {
            push_word(&text[begin..place], cut)?;
            return Ok(place);
        }
    }
    push_word(&text[begin..], cut)?;
    Ok(text.len())
}

/// Adds a word, unless it is empty.
fn push_word<'a>(word: &'a [u8], cut: &mut Vec<&'a [u8]>) -> Result<(), AllocError>
    ensures { OnOk result (word_texts cut.new.items ≡ word_texts cut.old.items ++ not_empty (word.now ∷ [])) }
{
    if !word.is_empty() {
        cut.push(word)?;
    }
    Ok(())
}

/// Puts the fields of a row, what stands between commas, in place of those in a list.
pub(crate) fn cut_fields<'a>(row: &'a [u8], cut: &mut Vec<&'a [u8]>) -> Result<(), AllocError>
    ensures { OnOk result (word_texts cut.new.items ≡ fields row.now) }
{
    cut.clear();
    let mut begin = 0;
    for place in 0..row.len() {
        if row[place] == b',' {
            cut.push(&row[begin..place])?;
            begin = place + 1;
        }
    }
    cut.push(&row[begin..])?;
    Ok(())
}

/// The word at a place, empty where there are fewer.
pub(crate) fn word_at<'a>(words: &[&'a [u8]], place: usize) -> &'a [u8]
    ensures { result.now ≡ get_or (word_texts words.now) place [] }
{
    if place < words.len() {
        words[place]
    } else {
        &[]
    }
}

/// Whether a word begins with a byte.
pub(crate) fn begins_with(word: &[u8], byte: u8) -> bool
    ensures { result ≡ begins_with byte word.now }
{
    match word {
        [first, ..] => *first == byte,
        [] => false,
    }
}

/// The first place of a byte in a word.
fn place_of(word: &[u8], byte: u8) -> Option<usize>
    ensures value { result ≡ position (λ c. c == byte) word.now }
    ensures inside { IfSome result (λ k. k < length word.now) }
{
    word.iter().position(|c| *c == byte)
}

/// What stands before the first such byte of a word, or all of it.
pub(crate) fn before(word: &[u8], byte: u8) -> &[u8]
    ensures { result.now ≡ before_byte byte word.now }
{
    match place_of(word, byte) {
        Some(place) => &word[..place],
        None => word,
    }
}

/// What stands before the first such byte of a word and what behind it: all of it and nothing, where it has none.
pub(crate) fn parted(word: &[u8], byte: u8) -> (&[u8], &[u8])
    ensures before { result.0.now ≡ before_byte byte word.now }
    ensures behind { result.1.now ≡ behind_byte byte word.now }
{
    match place_of(word, byte) {
        Some(place) => (&word[..place], &word[place + 1..]),
        None => (word, &[]),
    }
}

/// What stands behind the last such byte of a word, or all of it.
pub(crate) fn behind_last(word: &[u8], byte: u8) -> &[u8]
    ensures { result.now ≡ behind_last byte word.now }
{
    let mut begin = 0;
    for place in 0..word.len() {
        if word[place] == byte {
            begin = place + 1;
        }
    }
    &word[begin..]
}

/// So many digits never write a number that passes 64 bits.
const MAX_SAFE_DIGITS: usize = 19;

/// The number that few digits write: few enough for any of them to fit.
#[tactic(auto, using(crate::proofs::Numbers::room, crate::proofs::Numbers::next, crate::proofs::Numbers::low, crate::proofs::Numbers::high))]
fn short_number(word: &[u8]) -> Option<u64>
    requires { length word.now ≤ MAX_SAFE_DIGITS }
    ensures value { result ≡ number_from 0 word.now }
    ensures short { IfSome result (λ n. n < 10 ^ length word.now) }
{
    let mut number: u64 = 0;
    for byte in word {
        if *byte < b'0' || *byte > b'9' {
            return None;
        }
        number = number * 10 + u64::from(*byte - b'0');
    }
    Some(number)
}

/// The number that digits write, where it fits.
fn long_number(word: &[u8]) -> Option<u64>
    ensures value { result ≡ number_from 0 word.now }
    ensures short { IfSome result (λ n. n < 10 ^ length word.now) }
{
    let mut number: u64 = 0;
    for byte in word {
        if !byte.is_ascii_digit() {
            return None;
        }
        number = number
            .checked_mul(10)?
            .checked_add(u64::from(*byte - b'0'))?;
    }
    Some(number)
}

/// The number that a word writes, in decimal digits, perhaps with zeros before them, where it fits 64 bits.
pub(crate) fn number(word: &[u8]) -> Option<u64>
    ensures value { result ≡ number word.now }
    ensures short { IfSome result (λ n. n < 10 ^ length word.now) }
{
    if word.is_empty() {
        None
    } else if word.len() <= MAX_SAFE_DIGITS {
        short_number(word)
    } else {
        long_number(word)
    }
}

/// The nanoseconds of a time within its second: nine digits, or six of microseconds.
pub(crate) fn nanoseconds(fraction: &[u8]) -> Option<u64>
    ensures value { result ≡ nanoseconds fraction.now }
    ensures small { IfSome result (λ n. n < 10 ^ 9) }
{
    match fraction.len() {
        9 => number(fraction),
        6 => number(fraction).map(|micros| micros * 1000),
        _ => None,
    }
}
