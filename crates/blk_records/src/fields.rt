//! The fields of a record by what may stand in them.

ghost use Rattle.std.specs.Prelude.{◌≡◌, ◌≢◌, ◌+◌, ◌*◌, ◌<◌, ◌≤◌, ◌^◌, ◌↔◌, ℕ, [], ◌∷◌, length, get_or, IsTrue, IfOk, IfErr, MatchOption, decimal};
ghost use Rattle.std.specs.Str.Parse.{AllDigits, digits_value};
ghost use Rattle.csv.specs.Records.{fields_of};
ghost use Rattle.blk_records.specs.declared.fields.TheConstants.{MAX_SAFE_DIGITS};
ghost use Rattle.blk_records.specs.Fields.{EachField, IsSized, Lacks, FieldSpells, FieldsSpell, IsNanoseconds, TellsNanoseconds};
ghost use Rattle.blk_records.specs.Inside.Fields.{IsSeldom, IsGood, IsWhole, KeepsRule, WritesNumber, canonical};
ghost use Rattle.blk_records.specs.Words.{StartsWith, HasNoWord};

use crate::fault::TextReason;
use blk_bio::Dir;
use csv::ByteRecord;
use edd_commands::{MAX_COMMANDS, MAX_DEPTH, MAX_RELEASES, MAX_ROUNDS};

/// What may stand in a field of a record.
#[derive(Debug, Clone, Copy, PartialEq, Eq)]
pub enum Slot {
    /// What was looked at before: a word, or the name and version of a form.
    Given,
    /// Nothing.
    Blank,
    /// R or W.
    Direction,
    /// A number from `least` to `most`.
    Number { least: u64, most: u64 },
    /// A number up to `most`, one other than 0 perhaps with a minus before it.
    Lateness { most: u64 },
    /// Any text.
    Text,
    /// The nanoseconds of a time within its second: nine digits, so a number below 10^9.
    Nanoseconds,
}

/// Any number.
pub const ANY_SLOT: Slot = Slot::Number {
    least: 0,
    most: u64::MAX,
};

/// The depth of a round: how many commands it has room for.
pub(crate) const DEPTH_SLOT: Slot = Slot::Number {
    least: 1,
    most: MAX_DEPTH,
};

/// A number of commands.
pub(crate) const COUNT_SLOT: Slot = Slot::Number {
    least: 0,
    most: MAX_COMMANDS,
};

/// The round in which a command is released.
pub(crate) const RELEASE_SLOT: Slot = Slot::Number {
    least: 0,
    most: MAX_RELEASES - 1,
};

/// Any other round.
pub(crate) const ROUND_SLOT: Slot = Slot::Number {
    least: 0,
    most: MAX_ROUNDS - 1,
};

/// The field at a place, empty where the record has none.
#[inline(always)]
pub fn field(row: &ByteRecord, place: usize) -> &[u8]
    ensures { result.now ≡ get_or (fields_of row.now) place [] }
{
    match row.get(place) {
        Some(field) => field,
        None => &[],
    }
}

/// Whether digits begin as those of a number do: with no zero before another digit.
fn is_canonical(field: &[u8]) -> bool
    ensures { AllDigits 10 field.now → result ≡ canonical field.now }
{
    match field {
        [] => false,
        [first, rest @ ..] => *first != b'0' || rest.is_empty(),
    }
}

/// The greatest number that a digit can follow.
const MAX_BEFORE_DIGIT: u64 = u64::MAX / 10;

/// Whether a number does not fit once one more digit follows it.
fn is_past(number: u64, digit: u64) -> bool
    requires { digit < 10 }
    ensures { IsTrue result ↔ (2 ^ 64 ≤ number * 10 + digit) }
{
    number > MAX_BEFORE_DIGIT || (number == MAX_BEFORE_DIGIT && digit > u64::MAX % 10)
}

/// The same for digits of any number. Seldom asked, so apart from the others.
#[cold]
#[inline(never)]
fn long_number(field: &[u8]) -> Option<u64>
    ensures { MatchOption result (¬ WritesNumber field.now) (λ n. WritesNumber field.now × (n ≡ digits_value 10 field.now)) }
{
    let mut number: u64 = 0;
    for i in 0..field.len() {
        let byte = field[i];
        if byte < b'0' || byte > b'9' {
            return None;
        }
        let digit = byte as u64 - b'0' as u64;
        if is_past(number, digit) {
            return None;
        }
        number = number * 10 + digit;
    }
    Some(number)
}

/// The most digits with which every number fits.
const MAX_SAFE_DIGITS: usize = 19;

/// The number that a field of few digits writes: few enough for any of them to fit.
fn short_number(field: &[u8]) -> Option<u64>
    requires { length field.now ≤ MAX_SAFE_DIGITS }
    ensures value { MatchOption result (¬ WritesNumber field.now) (λ n. WritesNumber field.now × (n ≡ digits_value 10 field.now)) }
    // whatever these digits are, their number fits
    ensures digits { MatchOption result (¬ AllDigits 10 field.now) (λ n. n < 10 ^ length field.now) }
{
    let mut number: u64 = 0;
    for byte in field {
        let digit = (*byte as u64).wrapping_sub(b'0' as u64);
        if digit > 9 {
            return None;
        }
        number = number * 10 + digit;
    }
    Some(number)
}

/// The number that one digit writes.
#[inline(always)]
fn one_digit(byte: u8) -> Option<u64>
    ensures { MatchOption result ((n : ℕ) → n < 2 ^ 64 → byte ∷ [] ≢ decimal n) (λ n. byte ∷ [] ≡ decimal n) }
{
    let digit = (byte as u64).wrapping_sub(b'0' as u64);
    if digit > 9 {
        return None;
    }
    Some(digit)
}

/// The number that a field writes, in decimal digits with no leading zero. Many fields have one digit.
#[inline(always)]
pub fn parse_number(field: &[u8]) -> Option<u64>
    ensures { MatchOption result ((n : ℕ) → n < 2 ^ 64 → field.now ≢ decimal n) (λ n. field.now ≡ decimal n) }
{
    match field {
        [only] => one_digit(*only),
        _ => parse_digits(field),
    }
}

/// The same for a field of any length. A call, so that the pass over a record's slots is short enough to be unrolled.
#[inline(never)]
fn parse_digits(field: &[u8]) -> Option<u64>
    ensures { MatchOption result ((n : ℕ) → n < 2 ^ 64 → field.now ≢ decimal n) (λ n. field.now ≡ decimal n) }
{
    if !is_canonical(field) {
        None
    } else if field.len() <= MAX_SAFE_DIGITS {
        short_number(field)
    } else {
        long_number(field)
    }
}

/// What stands after a minus.
pub(crate) fn after_minus(field: &[u8]) -> Option<&[u8]>
    ensures { MatchOption result (get_or field.now 0 0 ≢ 45) (λ digits. field.now ≡ 45 ∷ digits.now) }
{
    match field {
        [b'-', digits @ ..] => Some(digits),
        _ => None,
    }
}

/// The size of the signed number that a field writes, in decimal digits with no leading zero, behind a minus where it is below 0: 0 has
/// no minus, and no number has a plus.
pub fn parse_sized(field: &[u8]) -> Option<u64>
    ensures { MatchOption result ((n : ℕ) → n < 2 ^ 64 → ¬ IsSized field.now n) (IsSized field.now) }
{
    match after_minus(field) {
        Some(digits) => match parse_number(digits) {
            Some(n) => {
                if n == 0 {
                    return None;
                }
                Some(n)
            }
            None => None,
        },
        None => parse_number(field),
    }
}

/// How many digits nanoseconds have.
const NINE: usize = 9;

/// The nanoseconds of a time within its second, of a field of nine digits, which may begin with zeros.
pub fn parse_nanoseconds(field: &[u8]) -> Option<u64>
    ensures { MatchOption result (¬ IsNanoseconds field.now) (λ n. TellsNanoseconds field.now n × (n < 10 ^ 9)) }
{
    if field.len() != NINE {
        return None;
    }
    short_number(field)
}

/// What is looked for in all fields of a record, one after another.
#[derive(Clone, Copy)]
pub(crate) enum Rule {
    /// What must be empty is.
    Blank,
    /// A direction is R or W.
    Direction,
    /// A number is one.
    Number,
}

/// Whether a field keeps a rule.
fn keeps(rule: Rule, slot: Slot, field: &[u8]) -> bool
    ensures { IsTrue result ↔ KeepsRule rule slot field.now }
{
    match rule {
        Rule::Blank => match slot {
            Slot::Blank => field.is_empty(),
            Slot::Given
            | Slot::Direction
            | Slot::Number { .. }
            | Slot::Lateness { .. }
            | Slot::Text
            | Slot::Nanoseconds => true,
        },
        Rule::Direction => match slot {
            Slot::Direction => Dir::of_letter(field).is_some(),
            Slot::Given
            | Slot::Blank
            | Slot::Number { .. }
            | Slot::Lateness { .. }
            | Slot::Text
            | Slot::Nanoseconds => true,
        },
        Rule::Number => match slot {
            Slot::Number { .. } => parse_number(field).is_some(),
            Slot::Lateness { .. } => parse_sized(field).is_some(),
            Slot::Nanoseconds => parse_nanoseconds(field).is_some(),
            Slot::Given | Slot::Blank | Slot::Direction | Slot::Text => true,
        },
    }
}

/// Whether each field of a record keeps a rule.
fn all_keep(rule: Rule, row: &ByteRecord, slots: &[Slot]) -> bool
    ensures { IsTrue result ↔ EachField (KeepsRule rule) slots.now (fields_of row.now) }
{
    for i in 0..slots.len() {
        if !keeps(rule, slots[i], field(row, i)) {
            return false;
        }
    }
    true
}

/// The first thing that a record lacks: each kind of fault is looked for in all fields before the next kind.
#[cold]
#[inline(never)]
fn first_lack(row: &ByteRecord, slots: &[Slot]) -> TextReason
    requires { ¬ IsWhole slots.now (fields_of row.now) }
    ensures { Lacks slots.now (fields_of row.now) result }
{
    if row.len() != slots.len() || !all_keep(Rule::Blank, row, slots) {
        return TextReason::Fields;
    }
    if !all_keep(Rule::Direction, row, slots) {
        return TextReason::Word;
    }
    if !all_keep(Rule::Number, row, slots) {
        return TextReason::Number;
    }
    TextReason::Range
}

/// The number of a field that is what its slot wants, where few fields have such a slot. A call, as `parse_digits` is.
#[inline(never)]
fn seldom_spelled(slot: Slot, field: &[u8]) -> Option<u64>
    requires { IsSeldom slot }
    ensures { MatchOption result (¬ IsGood slot field.now) (FieldSpells slot field.now) }
{
    match slot {
        Slot::Lateness { most } => match parse_sized(field) {
            Some(n) => { if n <= most { Some(n) } else { None } }
            None => None,
        },
        Slot::Nanoseconds => parse_nanoseconds(field),
        Slot::Given | Slot::Blank | Slot::Direction | Slot::Number { .. } | Slot::Text => {
            unreachable!()
        }
    }
}

/// The number of a field that is what its slot wants, a direction's letter, 0 where the slot has none.
#[inline(always)]
fn spelled(slot: Slot, field: &[u8]) -> Option<u64>
    ensures { MatchOption result (¬ IsGood slot field.now) (FieldSpells slot field.now) }
{
    match slot {
        Slot::Given | Slot::Text => Some(0),
        Slot::Blank => { if field.is_empty() { Some(0) } else { None } }
        Slot::Direction => match Dir::of_letter(field) {
            Some(dir) => Some(dir.letter() as u64),
            None => None,
        },
        Slot::Number { least, most } => match parse_number(field) {
            Some(n) => {
                if least <= n && n <= most {
                    Some(n)
                } else {
                    None
                }
            }
            None => None,
        },
        Slot::Lateness { .. } | Slot::Nanoseconds => seldom_spelled(slot, field),
    }
}

/// The numbers of a record's fields by place, where the record is what its slots want; in one pass, so that
/// a record without a fault is looked at once.
#[inline(always)]
fn spelled_numbers<const N: usize>(row: &ByteRecord, slots: &[Slot; N]) -> Option<[u64; N]>
    ensures { MatchOption result (¬ IsWhole slots.now (fields_of row.now)) (FieldsSpell slots.now (fields_of row.now)) }
{
    if row.len() != slots.len() {
        return None;
    }
    let mut numbers = [0; N];
    for i in 0..slots.len() {
        match spelled(slots[i], field(row, i)) {
            Some(n) => numbers[i] = n,
            None => return None,
        }
    }
    Some(numbers)
}

/// The numbers of a record's fields by place, a direction's letter, 0 where a slot has none, or the first thing that it
/// lacks.
#[inline(always)]
pub fn read_fields<const N: usize>(
    row: &ByteRecord,
    slots: &[Slot; N],
) -> Result<[u64; N], TextReason>
    ensures ok { IfOk result (FieldsSpell slots.now (fields_of row.now)) }
    ensures err { IfErr result (Lacks slots.now (fields_of row.now)) }
{
    match spelled_numbers(row, slots) {
        Some(numbers) => Ok(numbers),
        None => Err(first_lack(row, slots)),
    }
}

/// The fault of a record that begins with no word of its form.
pub fn without_word(row: &ByteRecord, width: usize) -> TextReason
    ensures { HasNoWord width (fields_of row.now) result }
{
    if row.len() == width {
        TextReason::Word
    } else {
        TextReason::Fields
    }
}

/// Whether a record begins with a word.
pub fn begins_with(row: &ByteRecord, word: &[u8]) -> bool
    requires { 0 < length word.now }
    ensures { IsTrue result ↔ StartsWith word.now (fields_of row.now) }
{
    field(row, 0) == word
}
