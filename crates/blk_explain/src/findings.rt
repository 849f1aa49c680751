//! What is found in a text, by the reader of its form.

ghost use Rattle.std.specs.Prelude.{◌≡◌, ◌<◌, ◌-◌, ◌^◌, IfOk, length};
ghost use Rattle.csv.specs.Records.{fields_of};
ghost use Rattle.blk_explain.specs.Findings.{rows_of, row_at, IsFound};
ghost use Rattle.blk_explain.specs.Inside.Read.{IsRead};
ghost use Rattle.blk_records.specs.declared.fault.TextReason.TheVariants as why;

use crate::forms::{TextForm, form_named};
use blk_capture_text::read_capture;
use blk_records::fields::field;
use blk_records::{
    Records, TextFault, TextReason, read_certificate, read_commands, read_on_time, read_schedule,
};
use blk_text::{read_script, read_trace};
use csv::ByteRecord;
use std::alloc::{AllocError, Global};

/// What is found in a text.
#[derive(Clone, Copy, Debug, PartialEq, Eq)]
pub enum Finding {
    /// It is of this form.
    Good(TextForm),
    /// Its title has the name of this form, and this is its first fault.
    Faulty(TextForm, TextFault),
    /// It begins with the name of no form.
    Untitled,
}

/// The record of a text that has this number, from 1 on, without fields where there is none.
pub fn row_at(alloc: Global, bytes: &[u8], n: u64) -> Result<ByteRecord, AllocError>
    requires { n < 2 ^ 64 - 1 }
    ensures { IfOk result (λ r. fields_of r ≡ row_at (rows_of bytes.now) n) }
{
    let mut records = Records::new(alloc, bytes);
    for _ in 0..n.saturating_sub(1) {
        match records.advance() {
            Ok(true) => {}
            Ok(false) => return Ok(ByteRecord::new(alloc)),
            Err(_) => return Err(AllocError),
        }
    }
    match records.advance() {
        Ok(true) => match records.row().clone() {
            Ok(row) => Ok(row),
            Err(_) => Err(AllocError),
        },
        Ok(false) => Ok(ByteRecord::new(alloc)),
        Err(_) => Err(AllocError),
    }
}

/// How many records a text has.
pub fn count_rows(alloc: Global, bytes: &[u8]) -> Result<u64, AllocError>
    ensures { IfOk result (λ n. n ≡ length (rows_of bytes.now)) }
{
    let mut records = Records::new(alloc, bytes);
    for n in 0..u64::MAX {
        match records.advance() {
            Ok(true) => {}
            Ok(false) => return Ok(n),
            Err(_) => return Err(AllocError),
        }
    }
    Err(AllocError)
}

/// The finding of a fault that didn't come from outside.
fn faulty(form: TextForm, fault: TextFault) -> Result<Finding, AllocError>
    ensures found { IfOk result (λ f. f ≡ Finding.Faulty form fault) }
    ensures own { IfOk result (λ _. ¬ (fault.why ≡ why.Read) × ¬ (fault.why ≡ why.Memory)) }
{
    if fault.why == TextReason::Read || fault.why == TextReason::Memory {
        return Err(AllocError);
    }
    Ok(Finding::Faulty(form, fault))
}

/// What the reader of command lists finds.
fn find_commands(alloc: Global, bytes: &[u8]) -> Result<Finding, AllocError>
    ensures { IfOk result (IsRead TextForm.Commands (rows_of bytes.now)) }
{
    match read_commands(alloc, &mut Records::new(alloc, bytes)) {
        Ok(_) => Ok(Finding::Good(TextForm::Commands)),
        Err(fault) => faulty(TextForm::Commands, fault),
    }
}

/// What the reader of certificates finds.
fn find_certificate(alloc: Global, bytes: &[u8]) -> Result<Finding, AllocError>
    ensures { IfOk result (IsRead TextForm.Certificate (rows_of bytes.now)) }
{
    match read_certificate(alloc, &mut Records::new(alloc, bytes)) {
        Ok(_) => Ok(Finding::Good(TextForm::Certificate)),
        Err(fault) => faulty(TextForm::Certificate, fault),
    }
}

/// What the reader of certificates of what can be on time finds.
fn find_on_time(alloc: Global, bytes: &[u8]) -> Result<Finding, AllocError>
    ensures { IfOk result (IsRead TextForm.OnTime (rows_of bytes.now)) }
{
    match read_on_time(alloc, &mut Records::new(alloc, bytes)) {
        Ok(_) => Ok(Finding::Good(TextForm::OnTime)),
        Err(fault) => faulty(TextForm::OnTime, fault),
    }
}

/// What the reader of schedules finds.
fn find_schedule(alloc: Global, bytes: &[u8]) -> Result<Finding, AllocError>
    ensures { IfOk result (IsRead TextForm.Schedule (rows_of bytes.now)) }
{
    match read_schedule(alloc, &mut Records::new(alloc, bytes)) {
        Ok(_) => Ok(Finding::Good(TextForm::Schedule)),
        Err(fault) => faulty(TextForm::Schedule, fault),
    }
}

/// What the reader of captures finds.
fn find_capture(alloc: Global, bytes: &[u8]) -> Result<Finding, AllocError>
    ensures { IfOk result (IsRead TextForm.Capture (rows_of bytes.now)) }
{
    match read_capture(alloc, &mut Records::new(alloc, bytes)) {
        Ok(_) => Ok(Finding::Good(TextForm::Capture)),
        Err(fault) => faulty(TextForm::Capture, fault),
    }
}

/// What the reader of traces finds.
fn find_trace(alloc: Global, bytes: &[u8]) -> Result<Finding, AllocError>
    ensures { IfOk result (IsRead TextForm.Trace (rows_of bytes.now)) }
{
    match read_trace(alloc, &mut Records::new(alloc, bytes)) {
        Ok(_) => Ok(Finding::Good(TextForm::Trace)),
        Err(fault) => faulty(TextForm::Trace, fault),
    }
}

/// What the reader of scripts finds.
fn find_script(alloc: Global, bytes: &[u8]) -> Result<Finding, AllocError>
    ensures { IfOk result (IsRead TextForm.Script (rows_of bytes.now)) }
{
    match read_script(alloc, &mut Records::new(alloc, bytes)) {
        Ok(_) => Ok(Finding::Good(TextForm::Script)),
        Err(fault) => faulty(TextForm::Script, fault),
    }
}

/// What the reader of a form finds.
fn find_as(alloc: Global, form: TextForm, bytes: &[u8]) -> Result<Finding, AllocError>
    ensures { IfOk result (IsRead form (rows_of bytes.now)) }
{
    match form {
        TextForm::Commands => find_commands(alloc, bytes),
        TextForm::Certificate => find_certificate(alloc, bytes),
        TextForm::OnTime => find_on_time(alloc, bytes),
        TextForm::Schedule => find_schedule(alloc, bytes),
        TextForm::Capture => find_capture(alloc, bytes),
        TextForm::Script => find_script(alloc, bytes),
        TextForm::Trace => find_trace(alloc, bytes),
    }
}

/// What is found in a text: by the name that it begins with, what the reader of that form finds.
pub fn find(alloc: Global, bytes: &[u8]) -> Result<Finding, AllocError>
    ensures { IfOk result (IsFound (rows_of bytes.now)) }
{
    let first = match row_at(alloc, bytes, 1) {
        Ok(first) => first,
        Err(_) => return Err(AllocError),
    };
    match form_named(field(&first, 0)) {
        Some(form) => find_as(alloc, form, bytes),
        None => Ok(Finding::Untitled),
    }
}
