//! What is found in a text, in words. Which words, the cases say.

ghost use Rattle.std.specs.Prelude.{◌<◌};

use crate::counts::{Counted, Tally};
use crate::details::Detail;
use crate::fields::Allowed;
use crate::findings::{Finding, count_rows, row_at};
use crate::flushing::staged_in;
use crate::forms::{FormRow, LaterRecords, TextForm, kind_of};
use crate::titles::file_of;
use crate::wanted::{field_name, rule_wanted, why_wanted};
use blk_bio::{BioFault, MAX_END};
use blk_records::any::AnyKind;
use blk_records::fields::{Slot, field};
use blk_records::on_time::WINDOW;
use blk_records::{Records, TextFault, TextReason};
use blk_text::{event_kinds, read_script, step_kinds};
use csv::ByteRecord;
use std::alloc::{AllocError, Global};
use text_output::Draft;

/// A digit of base sixteen.
fn hex_digit(digit: u8) -> u8
    requires { digit < 16 }
{
    if digit < 10 { b'0' + digit } else { 87 + digit }
}

/// Adds a byte as it is shown: one of ASCII that prints as itself, but for a quote and a backslash, which have a backslash before them, and
/// any other by its number.
pub fn push_byte(draft: &mut Draft, byte: u8) -> Result<(), AllocError> {
    if byte == b'"' || byte == b'\\' {
        draft.text(&[b'\\', byte])
    } else if byte > 31 && byte < 127 {
        draft.text(&[byte])
    } else {
        draft.text(&[b'\\', b'x', hex_digit(byte / 16), hex_digit(byte % 16)])
    }
}

/// The most bytes of a field that are shown.
const MAX_SHOWN: usize = 40;

/// Adds what was found in a field: its first bytes, or that the record has no such field.
fn push_found(draft: &mut Draft, row: &ByteRecord, place: usize) -> Result<(), AllocError> {
    let Some(found) = row.get(place) else {
        return draft.text(b"nothing");
    };
    draft.text(b"\"")?;
    for i in 0..found.len() {
        if i < MAX_SHOWN {
            push_byte(draft, found[i])?;
        }
    }
    draft.text(b"\"")
}

/// Adds a field by its place, from 0 on, and its name, what was found in it, and that something is wanted.
fn push_field(
    draft: &mut Draft,
    place: usize,
    name: &[u8],
    row: &ByteRecord,
) -> Result<(), AllocError> {
    draft.text(b"field ")?;
    draft.number((place as u64).saturating_add(1))?;
    draft.text(b", ")?;
    draft.text(name)?;
    draft.text(b": found ")?;
    push_found(draft, row, place)?;
    draft.text(b", wanted ")
}

/// Adds the range of a slot.
fn push_range(draft: &mut Draft, slot: Slot) -> Result<(), AllocError> {
    match slot {
        Slot::Number { least, most } => {
            draft.number(least)?;
            if least == most {
                return Ok(());
            }
            draft.text(b" to ")?;
            draft.number(most)
        }
        Slot::Lateness { most } => {
            draft.text(b"-")?;
            draft.number(most)?;
            draft.text(b" to ")?;
            draft.number(most)
        }
        Slot::Given | Slot::Blank | Slot::Direction | Slot::Text | Slot::Nanoseconds => Ok(()),
    }
}

/// Adds what may stand in a field that has this fault.
fn push_allowed(draft: &mut Draft, why: TextReason, allowed: Allowed) -> Result<(), AllocError> {
    let Allowed::Slot(slot) = allowed else {
        return draft.text(b"none");
    };
    match why {
        TextReason::Fields => draft.text(b"nothing"),
        TextReason::Word => draft.text(b"R or W"),
        TextReason::Number => match slot {
            Slot::Nanoseconds => draft.text(b"nine digits"),
            _ => draft.text(b"a number"),
        },
        _ => push_range(draft, slot),
    }
}

/// Adds the word of a kind, and the version that it came with, if it isn't the first.
fn push_word(draft: &mut Draft, kind: AnyKind) -> Result<(), AllocError> {
    draft.text(kind.word())?;
    if kind.since() == 1 {
        return Ok(());
    }
    draft.text(b" in version ")?;
    draft.number(kind.since())
}

/// Adds the words of kinds: of several, one of them.
fn push_words(draft: &mut Draft, kinds: &[AnyKind]) -> Result<(), AllocError> {
    if kinds.len() > 1 {
        draft.text(b"one of ")?;
    }
    for i in 0..kinds.len() {
        if i > 0 {
            draft.text(if i + 1 == kinds.len() {
                b", or ".as_slice()
            } else {
                b", ".as_slice()
            })?;
        }
        push_word(draft, kinds[i])?;
    }
    Ok(())
}

/// Adds what a record of this number begins with, and the words that it may begin with. The field is called as that of the records that
/// begin with no word of the form.
fn push_begun(
    draft: &mut Draft,
    form: &FormRow,
    at: u64,
    row: &ByteRecord,
) -> Result<(), AllocError> {
    let later = match form.later {
        LaterRecords::Windows => WINDOW.any(),
        LaterRecords::Wordless | LaterRecords::Steps | LaterRecords::Events => form.item,
    };
    let kind = if at == 2 { form.second } else { later };
    push_field(draft, 0, field_name(kind.name(0)), row)?;
    if at == 2 {
        return draft.text(form.second.word());
    }
    match form.later {
        LaterRecords::Wordless => Ok(()),
        LaterRecords::Windows => push_words(draft, &[WINDOW.any()]),
        LaterRecords::Steps => push_words(draft, &step_kinds()),
        LaterRecords::Events => push_words(draft, &event_kinds()),
    }
}

/// Adds what is said of a fault that lies in no field by itself.
fn push_whole(
    draft: &mut Draft,
    form: &FormRow,
    at: u64,
    why: TextReason,
    row: &ByteRecord,
) -> Result<(), AllocError> {
    match why {
        TextReason::Fields => {
            draft.text(b"found ")?;
            draft.number(row.len() as u64)?;
            draft.text(b" fields, wanted ")?;
            draft.number(form.title.width())
        }
        TextReason::Word => push_begun(draft, form, at, row),
        TextReason::RepeatedId => {
            push_field(draft, 0, field_name(form.item.name(0)), row)?;
            draft.text(why_wanted(why))
        }
        _ => {
            draft.text(why.name().as_bytes())?;
            draft.text(b": wanted ")?;
            match why {
                TextReason::Rule(rule) => draft.text(rule_wanted(rule)),
                TextReason::Bio(BioFault::Range) => {
                    draft.text(b"an end of at most ")?;
                    draft.number(MAX_END)
                }
                _ => draft.text(why_wanted(why)),
            }
        }
    }
}

/// Adds how many records, or events, were found, and how many are wanted.
fn push_tally(draft: &mut Draft, counted: Counted, tally: Tally) -> Result<(), AllocError> {
    draft.text(match counted {
        Counted::Events => b"events: found ".as_slice(),
        _ => b"records: found ".as_slice(),
    })?;
    draft.number(tally.found)?;
    draft.text(b", wanted ")?;
    draft.number(tally.wanted)
}

/// Adds where a fault is.
pub(crate) fn push_place(draft: &mut Draft, line: u64, at: u64) -> Result<(), AllocError> {
    draft.text(b"line ")?;
    draft.number(line)?;
    draft.text(b", record ")?;
    draft.number(at)?;
    draft.text(b", ")
}

/// Adds the lines on a fault of a text of this form.
fn push_fault(
    draft: &mut Draft,
    alloc: Global,
    bytes: &[u8],
    form: &FormRow,
    fault: TextFault,
    line: u64,
    detail: Detail,
) -> Result<(), AllocError> {
    if fault.at == u64::MAX {
        return Err(AllocError);
    }
    push_place(draft, line, fault.at)?;
    let row = row_at(alloc, bytes, fault.at)?;
    match detail {
        Detail::Field(place, allowed) => {
            let kind = kind_of(form, fault.at, field(&row, 0));
            push_field(draft, place, field_name(kind.name(place)), &row)?;
            push_allowed(draft, fault.why, allowed)?;
        }
        Detail::Counted(tally) => push_tally(draft, form.counted, tally)?,
        Detail::Whole | Detail::Nearest(_) => push_whole(draft, form, fault.at, fault.why, &row)?,
    }
    draft.text(b"\n")?;
    push_rule(draft, form.title.word(), fault.at, fault.why.name())
}

/// Adds the lines on a text that begins with the name of no form.
fn push_untitled(
    draft: &mut Draft,
    alloc: Global,
    bytes: &[u8],
    line: u64,
    detail: Detail,
) -> Result<(), AllocError> {
    let row = row_at(alloc, bytes, 1)?;
    push_place(draft, line, 1)?;
    if let Detail::Nearest(near) = detail {
        let form = near.row();
        push_field(draft, 0, b"title", &row)?;
        draft.text(form.title.word())?;
        draft.text(b"\n")?;
        return push_rule(draft, form.title.word(), 1, TextReason::Title.name());
    }
    draft.text(b"found ")?;
    match file_of(field(&row, 0)) {
        Some(file) => draft.text(file.as_bytes())?,
        None => draft.text(b"nothing")?,
    }
    draft.text(b", wanted a title\n")?;
    push_rule(draft, b"blk", 1, TextReason::Title.name())
}

/// Adds the lines on a text of this form without a fault: what it is, and of a script whether bios of it never leave their plugs.
fn push_good(
    draft: &mut Draft,
    alloc: Global,
    bytes: &[u8],
    form: TextForm,
) -> Result<(), AllocError> {
    let title = row_at(alloc, bytes, 1)?;
    let kind = form.row();
    draft.text(kind.title.word())?;
    draft.text(b", version ")?;
    draft.text(field(&title, 1))?;
    draft.text(b", records ")?;
    draft.number(count_rows(alloc, bytes)?)?;
    draft.text(b"\n")?;
    if form == TextForm::Script {
        push_staged(draft, alloc, bytes)?;
    }
    Ok(())
}

/// Adds a line on the bios of a script that never leave their plugs, if there are any.
fn push_staged(draft: &mut Draft, alloc: Global, bytes: &[u8]) -> Result<(), AllocError> {
    let Ok(script) = read_script(alloc, &mut Records::new(alloc, bytes)) else {
        return Err(AllocError);
    };
    let staged = staged_in(&script);
    if staged.left == 0 {
        return Ok(());
    }
    if staged.left == staged.bios {
        draft.text(b"nothing was flushed: ")?;
    } else {
        draft.text(b"not all was flushed: ")?;
    }
    draft.number(staged.left)?;
    draft.text(b" of ")?;
    draft.number(staged.bios)?;
    draft.text(b" bios stay in their plugs\n")
}

/// Adds the line on a fault as the program has it: the form, or the program where it is none, the record and the rule.
pub(crate) fn push_rule(
    draft: &mut Draft,
    name: &[u8],
    at: u64,
    why: &str,
) -> Result<(), AllocError> {
    draft.text(name)?;
    draft.text(b": record ")?;
    draft.number(at)?;
    draft.text(b": ")?;
    draft.text(why.as_bytes())?;
    draft.text(b"\n")
}

/// What is told of a finding, whose record begins on this line, and of which this is known.
pub fn explanation_text(
    alloc: Global,
    bytes: &[u8],
    finding: Finding,
    line: u64,
    detail: Detail,
) -> Result<Vec<u8>, AllocError> {
    let mut draft = Draft::new(alloc);
    match finding {
        Finding::Good(form) => push_good(&mut draft, alloc, bytes, form)?,
        Finding::Faulty(form, fault) => {
            push_fault(&mut draft, alloc, bytes, &form.row(), fault, line, detail)?;
        }
        Finding::Untitled => push_untitled(&mut draft, alloc, bytes, line, detail)?,
    }
    draft.finish()
}
