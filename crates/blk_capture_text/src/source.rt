//! A capture of any form, read from its bytes.

ghost use Rattle.std.specs.Prelude.{◌≡◌, ◌≤◌, IfOk, IfErr, length};
ghost use Rattle.blk_capture.specs.Requests.{AreInOrder};
ghost use Rattle.blk_capture_text.specs.declared.reading.TheConstants.{MAX_RECORDS};
ghost use Rattle.blk_capture_text.specs.Names.{unread_told};
ghost use Rattle.blk_capture_text.specs.Source.{has_nul, is_text, form_taken, IsCaptureRead, IsCaptureUnread, ReadsRecords, ReadsLines, IsRecordsFault, IsLinesFault};

use crate::reading::read_capture;
use blk_capture::Record;
use blk_recorders::{CaptureForm, Device, LineFault, LineReason, Recorder, form_of, read_lines};
use blk_records::{Records, TextFault, TextReason};
use edd_commands::{Fault, Told, told};
use std::alloc::{AllocError, Global};
use thiserror::Error;

/// What else the lines of a recorder told.
#[derive(Clone, Copy, Debug, PartialEq, Eq)]
pub struct Printed {
    /// Who printed them.
    pub recorder: Recorder,
    /// The device that they are of, where they name one.
    pub device: Option<Device>,
    /// How many steps of other devices were left out.
    pub others: u64,
    /// How many lines are no steps.
    pub remarks: u64,
    /// How many more say that events were lost.
    pub losses: u64,
}

/// A capture that was read.
#[derive(Debug, Drop)]
pub struct CaptureRead {
    /// Its records, by rising time.
    pub records: Vec<Record>,
    /// What else its lines told, where a recorder printed them.
    pub printed: Option<Printed>,
}

/// Why a capture isn't read.
#[derive(Clone, Copy, Debug, PartialEq, Eq, Error)]
#[error("{}", self.name())]
pub enum UnreadCapture {
    /// A record of the form `blk-capture` is wrong, or the reader of the bytes failed.
    Text(TextFault),
    /// A line that a recorder printed is wrong.
    Line(LineFault),
    /// Memory ran out.
    Memory,
}

impl Fault for UnreadCapture {
    ghost told = { unread_told };

    fn told(&self) -> Told {
        told!(self: UnreadCapture {
            Text(fault) by fault,
            Line(fault) by fault,
            Memory => Memory,
        })
    }
}

/// The records of a text of the form `blk-capture`.
pub(crate) fn read_records(alloc: Global, bytes: &[u8]) -> Result<CaptureRead, UnreadCapture>
    ensures ok { IfOk result (ReadsRecords bytes.now) }
    ensures few { IfOk result (λ r. length r.records.items ≤ MAX_RECORDS) }
    ensures in_order { IfOk result (λ r. AreInOrder r.records.items (length r.records.items)) }
    ensures err { IfErr result (IsRecordsFault bytes.now) }
{
    match read_capture(alloc, &mut Records::new(alloc, bytes)) {
        Ok(records) => Ok(CaptureRead {
            records,
            printed: None,
        }),
        Err(fault) => match fault.why {
            // bytes that are at hand are always read
            TextReason::Read | TextReason::Memory => Err(UnreadCapture::Memory),
            _ => Err(UnreadCapture::Text(fault)),
        },
    }
}

/// The records of what a recorder printed.
fn read_printed(
    alloc: Global,
    recorder: Recorder,
    device: Option<Device>,
    bytes: &[u8],
) -> Result<CaptureRead, UnreadCapture>
    ensures ok { IfOk result (ReadsLines recorder device bytes.now) }
    ensures in_order { IfOk result (λ r. AreInOrder r.records.items (length r.records.items)) }
    ensures err { IfErr result (IsLinesFault recorder device bytes.now) }
{
    match read_lines(alloc, recorder, device, bytes) {
        Ok(steps) => Ok(CaptureRead {
            records: steps.records,
            printed: Some(Printed {
                recorder,
                device: steps.device,
                others: steps.others,
                remarks: steps.remarks,
                losses: steps.losses,
            }),
        }),
        Err(fault) => match fault.why {
            LineReason::Memory => Err(UnreadCapture::Memory),
            _ => Err(UnreadCapture::Line(fault)),
        },
    }
}

/// How many of its first bytes tell whether an input is a text.
pub(crate) const FIRST_BYTES: usize = 1000;

/// Whether NUL is among the first bytes.
fn has_nul(bytes: &[u8]) -> bool
    ensures { result ≡ has_nul bytes.now }
{
    bytes.iter().take(FIRST_BYTES).any(|byte| *byte == 0)
}

/// Whether bytes are a text: there are some, and none of the first ones is NUL.
fn is_text(bytes: &[u8]) -> bool
    ensures { result ≡ is_text bytes.now }
{
    if bytes.is_empty() {
        return false;
    }
    !has_nul(bytes)
}

/// The form of bytes: that which is asked for, or else that which the first lines tell ([`blk_recorders::form_of`]). What is no text, since it is empty
/// or has NUL among its first bytes, is of none, and is taken for `blk-capture`, whose title it lacks. Fails only when out of memory.
pub fn form_taken(
    alloc: Global,
    asked: Option<CaptureForm>,
    bytes: &[u8],
) -> Result<CaptureForm, AllocError>
    ensures { IfOk result (λ f. f ≡ form_taken asked bytes.now) }
{
    if !is_text(bytes) {
        return Ok(CaptureForm::Records);
    }
    match asked {
        Some(form) => Ok(form),
        None => form_of(alloc, bytes),
    }
}

/// A capture of the form that is asked for, or else of that which its first lines tell ([`form_taken`]). Of a device that is asked for, the
/// steps of others are left out where the lines name one; records of the form `blk-capture` name none.
///
/// The fault is the first one: of the least record ([`crate::read_capture`]) or line ([`blk_recorders::read_lines`]). Out of memory may come in
/// place of any other.
pub fn read_source(
    alloc: Global,
    form: Option<CaptureForm>,
    device: Option<Device>,
    bytes: &[u8],
) -> Result<CaptureRead, UnreadCapture>
    ensures ok { IfOk result (IsCaptureRead form device bytes.now) }
    ensures in_order { IfOk result (λ r. AreInOrder r.records.items (length r.records.items)) }
    ensures err { IfErr result (IsCaptureUnread form device bytes.now) }
{
    match form_taken(alloc, form, bytes) {
        Ok(CaptureForm::Records) => read_records(alloc, bytes),
        Ok(CaptureForm::Printed(recorder)) => read_printed(alloc, recorder, device, bytes),
        Err(_) => Err(UnreadCapture::Memory),
    }
}
