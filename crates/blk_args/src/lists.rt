//! Lists of numbers and of times on the command line, with commas between.

ghost use Rattle.std.specs.Prelude.{◌≡◌, ◌≤◌, ◌++◌, ◌∷◌, [], true, All, IfSome, option_map};
ghost use Rattle.blk_args.specs.Lists.{part_in, is_listed, list_by, list_of, times_listed};
ghost use Rattle.blk_args.specs.Times.{is_plain, number_in, plain_number_in};

use crate::times::time_of;
use blk_schedulers::given::{MAX_LISTED, Numbers};

/// Whether a text begins with no sign, and with no zero that more follows.
fn is_plain(text: &str) -> bool
    ensures { result ≡ is_plain text.now }
{
    match text.as_bytes() {
        [first, _, ..] => *first != b'+' && *first != b'0',
        _ => true,
    }
}

/// The number that a text spells in decimal digits, up to the most, without a sign or a leading zero.
pub(crate) fn plain_number(text: &str, most: u64) -> Option<u64>
    ensures { result ≡ plain_number_in most text.now }
{
    if is_plain(text) {
        number_up_to(text, most)
    } else {
        None
    }
}

/// The number that a text spells in decimal digits, up to the most.
fn number_up_to(text: &str, most: u64) -> Option<u64>
    ensures { result ≡ number_in most text.now }
{
    match text.parse::<u64>() {
        Ok(number) => if number <= most { Some(number) } else { None },
        Err(_) => None,
    }
}

/// Whether a list may take this number too: it has room, and doesn't have the number yet.
fn goes_on(numbers: &Numbers, number: u64) -> bool
    requires { is_listed numbers.now.items ≡ true }
    ensures { result ≡ is_listed (numbers.now.items ++ number ∷ []) }
{
    numbers.len() < MAX_LISTED && !numbers.as_slice().contains(&number)
}

/// What stands between the commas of a list.
#[derive(Clone, Copy)]
pub enum ListItems {
    /// Numbers up to this one.
    UpTo(u64),
    /// Times.
    Times,
}

/// A part of a list: a number, or the nanoseconds of a time.
fn part_of(text: &str, parts: ListItems) -> Option<u64>
    ensures { result ≡ part_in parts text.now }
{
    match parts {
        ListItems::UpTo(most) => plain_number(text, most),
        ListItems::Times => time_of(text),
    }
}

/// The numbers of a list of 1 to [`MAX_LISTED`] of such parts, each once. None where the text is no such list.
fn listed(text: &str, parts: ListItems) -> Option<Numbers>
    ensures { option_map (λ n. n.items) result ≡ list_by (part_in parts) text.now }
{
    let mut numbers = Numbers::new();
    for part in text.split(',') {
        let number = part_of(part, parts)?;
        if !goes_on(&numbers, number) {
            return None;
        }
        numbers.push(number);
    }
    Some(numbers)
}

/// The numbers of a list of 1 to [`MAX_LISTED`] up to the most, each once, without signs or leading zeros. None where the text is no such list.
pub fn numbers_of(text: &str, most: u64) -> Option<Numbers>
    ensures numbers { option_map (λ n. n.items) result ≡ list_of most text.now }
    ensures range { IfSome result (λ n. All (λ x. x ≤ most) n.items) }
{
    listed(text, ListItems::UpTo(most))
}

/// The nanoseconds of a list of 1 to [`MAX_LISTED`] times, each once. None where the text is no such list.
pub fn times_of(text: &str) -> Option<Numbers>
    ensures { option_map (λ n. n.items) result ≡ times_listed text.now }
{
    listed(text, ListItems::Times)
}
