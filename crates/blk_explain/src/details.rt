//! What is known of what is found in a text, beside its record and its rule.

ghost use Rattle.std.specs.Prelude.{◌≡◌, ◌≤◌, ◌<◌, ◌-◌, ◌^◌, IfOk};
ghost use Rattle.csv.specs.Records.{fields_of};
ghost use Rattle.blk_explain.specs.Findings.{rows_of, row_at, name_in};
ghost use Rattle.blk_explain.specs.Explained.{edits_to, IsNearest, counted_detail, IsRecordDetail, IsFaultDetail, IsDetailOf};

use crate::broken::broken;
use crate::counts::{Tally, tally_of};
use crate::fields::Allowed;
use crate::findings::{Finding, row_at};
use crate::forms::{FormRow, TextForm, kind_of};
use crate::titles::is_strange;
use blk_records::fields::field;
use blk_records::{TextFault, TextReason};
use csv::ByteRecord;
use std::alloc::{AllocError, Global};
use strsim::generic_levenshtein;

/// What is known of what is found.
#[derive(Clone, Copy)]
pub enum Detail {
    /// Nothing more.
    Whole,
    /// The field at this place of the record, from 0 on, has the fault, and this may stand there.
    Field(usize, Allowed),
    /// So many records, or events, were found, and so many are wanted.
    Counted(Tally),
    /// The name of this form is the nearest to that with which the text begins.
    Nearest(TextForm),
}

/// How many edits away the name of a form is.
fn edits_to(alloc: Global, found: &[u8], form: TextForm) -> Result<usize, AllocError>
    ensures { IfOk result (λ n. n ≡ edits_to found.now form) }
{
    let row = form.row();
    generic_levenshtein(alloc, found, row.title.word())
}

/// Of two forms the one whose name is fewer edits away.
fn nearer(
    alloc: Global,
    found: &[u8],
    one: TextForm,
    other: TextForm,
) -> Result<TextForm, AllocError>
    ensures { IfOk result (λ f. (edits_to found.now f ≤ edits_to found.now one) × (edits_to found.now f ≤ edits_to found.now other)) }
{
    let to_one = edits_to(alloc, found, one)?;
    let to_other = edits_to(alloc, found, other)?;
    if to_other < to_one {
        Ok(other)
    } else {
        Ok(one)
    }
}

/// The form whose name is the fewest edits away.
fn nearest(alloc: Global, found: &[u8]) -> Result<TextForm, AllocError>
    ensures { IfOk result (IsNearest found.now) }
{
    let of_two = nearer(alloc, found, TextForm::Commands, TextForm::Certificate)?;
    let of_three = nearer(alloc, found, of_two, TextForm::OnTime)?;
    let of_four = nearer(alloc, found, of_three, TextForm::Schedule)?;
    let of_five = nearer(alloc, found, of_four, TextForm::Capture)?;
    let of_six = nearer(alloc, found, of_five, TextForm::Script)?;
    nearer(alloc, found, of_six, TextForm::Trace)
}

/// What is known of a text that begins with the name of no form: the nearest one, but where what stands there is no name at all.
fn untitled_detail(alloc: Global, bytes: &[u8]) -> Result<Detail, AllocError>
    ensures { IfOk result (IsDetailOf (rows_of bytes.now) Finding.Untitled) }
{
    let row = row_at(alloc, bytes, 1)?;
    let found = field(&row, 0);
    if is_strange(found) {
        return Ok(Detail::Whole);
    }
    let near = nearest(alloc, found)?;
    Ok(Detail::Nearest(near))
}

/// What is known of a number of records.
fn counted_detail(tally: Option<Tally>) -> Detail
    ensures { result ≡ counted_detail tally }
{
    match tally {
        Some(tally) => Detail::Counted(tally),
        None => Detail::Whole,
    }
}

/// What is known of the record of this number that has a fault, in a text of this form with this title.
fn record_detail(
    form: &FormRow,
    title: &ByteRecord,
    at: u64,
    why: TextReason,
    row: &ByteRecord,
) -> Detail
    ensures { IsRecordDetail form.now (fields_of title.now) at why (fields_of row.now) result }
{
    let kind = kind_of(form, at, field(row, 0));
    match broken(title, kind, why, row) {
        Some((place, allowed)) => Detail::Field(place, allowed),
        None => Detail::Whole,
    }
}

/// What is known of a fault.
fn fault_detail(
    alloc: Global,
    bytes: &[u8],
    form: &FormRow,
    fault: TextFault,
) -> Result<Detail, AllocError>
    requires { fault.at < 2 ^ 64 - 1 }
    ensures { IfOk result (IsFaultDetail form.now (rows_of bytes.now) fault) }
{
    let title = row_at(alloc, bytes, 1)?;
    if fault.why == TextReason::Count {
        let tally = tally_of(alloc, bytes, form.counted, &title)?;
        return Ok(counted_detail(tally));
    }
    let row = row_at(alloc, bytes, fault.at)?;
    Ok(record_detail(form, &title, fault.at, fault.why, &row))
}

/// What is known of a finding.
pub fn detail_of(alloc: Global, bytes: &[u8], finding: Finding) -> Result<Detail, AllocError>
    ensures { IfOk result (IsDetailOf (rows_of bytes.now) finding) }
{
    match finding {
        Finding::Good(_) => Ok(Detail::Whole),
        Finding::Faulty(form, fault) => {
            if fault.at == u64::MAX {
                return Err(AllocError);
            }
            fault_detail(alloc, bytes, &form.row(), fault)
        }
        Finding::Untitled => untitled_detail(alloc, bytes),
    }
}
