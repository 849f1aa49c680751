//! Which field of a record has a fault, and what may stand in it.

ghost use Rattle.std.specs.Prelude.{◌≡◌, ◌≤◌, ◌-◌, ◌↔◌, IsTrue};
ghost use Rattle.csv.specs.Records.{fields_of};
ghost use Rattle.blk_records.specs.Fields.{IsNumber, IsInRange};
ghost use Rattle.blk_records.specs.declared.fields.Slot.TheVariants as slot;
ghost use Rattle.blk_explain.specs.Broken.{KeepsSlot, KeepsNone, KeepsIn, IsNumberIn, submitter_count, with_least, IsAllowedBy};
ghost use Rattle.blk_explain.specs.Inside.FirstBroken.{SaysIfBroken, SaysFirstBroken, SaysBroken};

use crate::fields::{Allowed, Want, want_of};
use blk_bio::Dir;
use blk_records::TextReason;
use blk_records::any::{AnyKind, MAX_FIELDS};
use blk_records::fields::{Slot, field, parse_nanoseconds, parse_number, parse_sized};
use blk_text::{MAX_SUBMITTERS, MORE_TAGS};
use csv::ByteRecord;

/// Whether a field is a number where its slot has one.
fn is_number(slot: Slot, field: &[u8]) -> bool
    ensures { IsTrue result ↔ IsNumber slot field.now }
{
    match slot {
        Slot::Number { .. } => parse_number(field).is_some(),
        Slot::Lateness { .. } => parse_sized(field).is_some(),
        Slot::Nanoseconds => parse_nanoseconds(field).is_some(),
        Slot::Given | Slot::Blank | Slot::Direction | Slot::Text => true,
    }
}

/// Whether a number lies in a range.
fn is_between(number: u64, least: u64, most: u64) -> bool
    ensures { IsTrue result ↔ ((least ≤ number) × (number ≤ most)) }
{
    least <= number && number <= most
}

/// Whether a field that is a number lies in this range.
fn is_in_range(least: u64, most: u64, field: &[u8]) -> bool
    ensures { IsTrue result ↔ IsInRange (slot.Number least most) field.now }
{
    match parse_number(field) {
        Some(n) => is_between(n, least, most),
        None => true,
    }
}

/// Whether a field that is a signed number lies in this range, to both sides of 0.
fn is_sized_in_range(most: u64, field: &[u8]) -> bool
    ensures { IsTrue result ↔ IsInRange (slot.Lateness most) field.now }
{
    match parse_sized(field) {
        Some(n) => is_between(n, 0, most),
        None => true,
    }
}

/// Whether a field that is a number lies in its slot's range.
fn is_within(slot: Slot, field: &[u8]) -> bool
    ensures { IsTrue result ↔ IsInRange slot field.now }
{
    match slot {
        Slot::Number { least, most } => is_in_range(least, most, field),
        Slot::Lateness { most } => is_sized_in_range(most, field),
        Slot::Given | Slot::Blank | Slot::Direction | Slot::Text | Slot::Nanoseconds => true,
    }
}

/// Whether a field is free of a fault, given its slot.
fn keeps_slot(why: TextReason, slot: Slot, field: &[u8]) -> bool
    ensures { IsTrue result ↔ KeepsSlot why slot field.now }
{
    match why {
        TextReason::Fields => match slot {
            Slot::Blank => field.is_empty(),
            Slot::Given
            | Slot::Direction
            | Slot::Number { .. }
            | Slot::Lateness { .. }
            | Slot::Text
            | Slot::Nanoseconds => true,
        },
        TextReason::Word => match slot {
            Slot::Direction => Dir::of_letter(field).is_some(),
            Slot::Given
            | Slot::Blank
            | Slot::Number { .. }
            | Slot::Lateness { .. }
            | Slot::Text
            | Slot::Nanoseconds => true,
        },
        TextReason::Number => is_number(slot, field),
        TextReason::Range => is_within(slot, field),
        TextReason::Title => is_number(slot, field) && is_within(slot, field),
        TextReason::Bio(_)
        | TextReason::Tile
        | TextReason::Rule(_)
        | TextReason::RepeatedId
        | TextReason::Order
        | TextReason::Count
        | TextReason::TooLong
        | TextReason::Read
        | TextReason::Memory => true,
    }
}

/// Whether a field does not have a fault where `none` is wanted, and would be a number of this slot beside commands.
fn keeps_none(why: TextReason, slot: Slot, field: &[u8]) -> bool
    ensures { IsTrue result ↔ KeepsNone why slot field.now }
{
    match why {
        TextReason::Number => is_number(slot, field) || field == b"none".as_slice(),
        TextReason::Range => field == b"none".as_slice(),
        TextReason::Title
        | TextReason::Fields
        | TextReason::Word
        | TextReason::Bio(_)
        | TextReason::Tile
        | TextReason::Rule(_)
        | TextReason::RepeatedId
        | TextReason::Order
        | TextReason::Count
        | TextReason::TooLong
        | TextReason::Read
        | TextReason::Memory => true,
    }
}

/// Whether a field does not have a fault.
fn keeps(why: TextReason, allowed: Allowed, field: &[u8]) -> bool
    ensures { IsTrue result ↔ KeepsIn why allowed field.now }
{
    match allowed {
        Allowed::Slot(slot) => keeps_slot(why, slot, field),
        Allowed::NoNumber(slot) => keeps_none(why, slot, field),
    }
}

/// The number of a field of a record, 0 where it is none.
pub fn number_in(row: &ByteRecord, place: usize) -> u64
    ensures { IsNumberIn (fields_of row.now) place result }
{
    match parse_number(field(row, place)) {
        Some(number) => number,
        None => 0,
    }
}

/// A number below a count, or 0 alone where the count is 0.
fn below(count: u64) -> Allowed
    ensures { result ≡ Allowed.Slot (slot.Number 0 (count - 1)) }
{
    Allowed::Slot(Slot::Number {
        least: 0,
        most: count.saturating_sub(1),
    })
}

/// How many submitters there may be, by the number of them in the title: as many, or, where it tells none, as a trace may name.
fn submitter_count(told: u64) -> u64
    ensures { result ≡ submitter_count told }
{
    if told == 0 { MAX_SUBMITTERS } else { told }
}

/// A slot whose number is this at least too.
fn with_least(slot: Slot, other: u64) -> Slot
    ensures { result ≡ with_least other slot }
{
    match slot {
        Slot::Number { least, most } => Slot::Number {
            least: if least < other { other } else { least },
            most,
        },
        Slot::Given
        | Slot::Blank
        | Slot::Direction
        | Slot::Lateness { .. }
        | Slot::Text
        | Slot::Nanoseconds => slot,
    }
}

/// What may stand in a field of a text with this title, by its slot.
fn allowed_by(title: &ByteRecord, slot: Slot, want: Want) -> Allowed
    ensures { IsAllowedBy (fields_of title.now) slot want result }
{
    match want {
        Want::Row => Allowed::Slot(slot),
        Want::Tags => Allowed::Slot(MORE_TAGS.slot_in(number_in(title, 1), slot)),
        Want::Queue => below(number_in(title, 3)),
        Want::Submitter => below(submitter_count(number_in(title, 5))),
        Want::Submitters => Allowed::Slot(with_least(slot, number_in(title, 3))),
        Want::Bound => {
            if number_in(title, 3) == 0 {
                Allowed::NoNumber(slot)
            } else {
                Allowed::Slot(slot)
            }
        }
    }
}

/// What may stand in the field at a place, where the field has the fault.
fn broken_at(
    title: &ByteRecord,
    kind: AnyKind,
    why: TextReason,
    row: &ByteRecord,
    place: usize,
) -> Option<Allowed>
    ensures { SaysIfBroken (fields_of title.now) kind why (fields_of row.now) place result }
{
    let want = want_of(kind.name(place));
    let allowed = allowed_by(title, kind.slot(place), want);
    if keeps(why, allowed, field(row, place)) {
        None
    } else {
        Some(allowed)
    }
}

/// The place of the first field that has the fault, and what may stand in it.
fn first_broken(
    title: &ByteRecord,
    kind: AnyKind,
    why: TextReason,
    row: &ByteRecord,
) -> Option<(usize, Allowed)>
    ensures { SaysFirstBroken (fields_of title.now) kind why (fields_of row.now) result }
{
    for place in 0..MAX_FIELDS {
        match broken_at(title, kind, why, row, place) {
            Some(allowed) => return Some((place, allowed)),
            None => {}
        }
    }
    None
}

/// The place of the field that a fault lies in, and what may stand there, if it lies in one. Where each field is a number or `none`, but they
/// are mixed, that is the first that isn't what the others have to be.
pub fn broken(
    title: &ByteRecord,
    kind: AnyKind,
    why: TextReason,
    row: &ByteRecord,
) -> Option<(usize, Allowed)>
    ensures { SaysBroken (fields_of title.now) kind why (fields_of row.now) result }
{
    match first_broken(title, kind, why, row) {
        Some(found) => Some(found),
        None => {
            if why == TextReason::Number {
                first_broken(title, kind, TextReason::Range, row)
            } else {
                None
            }
        }
    }
}
