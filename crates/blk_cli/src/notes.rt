//! What is said beside what is written of a capture: who printed it, and what of it is dubious.

ghost use Rattle.std.specs.Prelude.{◌≡◌, ◌/◌, IfOk, is_some, nat_lt};
ghost use Rattle.blk_cli.specs.Notes.{IsToldIf, has_losses, SaysSource, SaysDoubt, is_much};

use blk_capture::{Action, Summary};
use blk_capture_text::{Printed, RecordCounts};
use std::alloc::{AllocError, Global};

/// The line on who printed a capture: of which device, and how many lines are of other devices or no steps. Of one that no recorder printed there is none.
fn recorder_text(alloc: Global, printed: Option<Printed>, count: u64) -> Result<Vec<u8>, AllocError>
    ensures { IfOk result (λ told. IsToldIf (is_some printed) told.items) }
{
    let Some(printed) = printed else {
        return Ok(Vec::new(alloc));
    };
    let recorder = printed.recorder.called();
    let others = printed.others;
    let remarks = printed.remarks;
    let Some(device) = printed.device else {
        let text = format!(in alloc;
            "blk: {recorder}: {count} records, {others} of other devices, {remarks} other lines\n"
        )?;
        return Ok(text.into_bytes());
    };
    let major = device.major;
    let minor = device.minor;
    let text = format!(in alloc;
        "blk: {recorder}: {count} records of device {major},{minor}, {others} of other devices, {remarks} other lines\n"
    )?;
    Ok(text.into_bytes())
}

/// Whether its lines say that events were lost.
fn has_losses(printed: Option<Printed>) -> bool
    ensures { result ≡ has_losses printed }
{
    match printed {
        Some(printed) => printed.losses > 0,
        None => false,
    }
}

/// The line on lines that say that events were lost, where there are any.
fn losses_text(alloc: Global, printed: Option<Printed>) -> Result<Vec<u8>, AllocError>
    ensures { IfOk result (λ told. IsToldIf (has_losses printed) told.items) }
{
    if !has_losses(printed) {
        return Ok(Vec::new(alloc));
    }
    let losses = match printed {
        Some(printed) => printed.losses,
        None => 0,
    };
    let text = format!(in alloc;
        "blk: {losses} lines say that events were lost: waits and counts may be wrong\n"
    )?;
    Ok(text.into_bytes())
}

/// The line on times that stand still, where they do.
fn still_text(alloc: Global, is_still: bool, counts: &RecordCounts) -> Result<Vec<u8>, AllocError>
    ensures { IfOk result (λ told. IsToldIf is_still told.items) }
{
    if !is_still {
        return Ok(Vec::new(alloc));
    }
    let still = counts.still;
    let count = counts.records;
    let text = format!(in alloc;
        "blk: {still} of {count} records have the time of the one before: waits may be too short\n"
    )?;
    Ok(text.into_bytes())
}

/// What is said of a capture before anything else: who printed it, whether events were lost, and whether its times stand still.
pub fn source_text(
    alloc: Global,
    printed: Option<Printed>,
    counts: &RecordCounts,
) -> Result<Vec<u8>, AllocError>
    ensures { IfOk result (λ told. SaysSource printed counts.now told.items) }
{
    let mut told = recorder_text(alloc, printed, counts.count())?;
    let losses = losses_text(alloc, printed)?;
    told.extend_from_slice(losses.as_slice())?;
    let still = still_text(alloc, counts.is_still(), counts)?;
    told.extend_from_slice(still.as_slice())?;
    Ok(told)
}

/// The line on more requests in flight than the device takes at once, where there are more.
fn crowd_text(alloc: Global, most: u64, tags: u64) -> Result<Vec<u8>, AllocError>
    ensures { IfOk result (λ told. IsToldIf (nat_lt tags most) told.items) }
{
    if most <= tags {
        return Ok(Vec::new(alloc));
    }
    let text = format!(in alloc;
        "blk: in flight {most}, and the device takes {tags}: completions may be missing\n"
    )?;
    Ok(text.into_bytes())
}

/// Whether so many records are more than a hundredth of all.
fn is_much(unmatched: u64, records: u64) -> bool
    ensures { result ≡ is_much unmatched records }
{
    unmatched > records / 100
}

/// The line on more than a hundredth of the records that are unmatched, where there are so many.
fn unmatched_text(alloc: Global, unmatched: u64, records: u64) -> Result<Vec<u8>, AllocError>
    ensures { IfOk result (λ told. IsToldIf (is_much unmatched records) told.items) }
{
    if !is_much(unmatched, records) {
        return Ok(Vec::new(alloc));
    }
    let text = format!(in alloc;
        "blk: {unmatched} of {records} records are unmatched: records may be missing\n"
    )?;
    Ok(text.into_bytes())
}

/// Which records there are none of, in words.
fn lack(lacked: Option<Action>) -> &'static str {
    match lacked {
        Some(Action::Queue) => "no Q records",
        Some(Action::Get) => "no G records",
        Some(Action::Issue) => "no D records",
        Some(Action::Complete) => "no C records",
        _ => "none that is taken was completed",
    }
}

/// The line on records of which no request is known from its entry to its completion, where it is so.
fn nothing_text(
    alloc: Global,
    has_nothing: bool,
    lacked: Option<Action>,
) -> Result<Vec<u8>, AllocError>
    ensures { IfOk result (λ told. IsToldIf has_nothing told.items) }
{
    if !has_nothing {
        return Ok(Vec::new(alloc));
    }
    let lack = lack(lacked);
    let text = format!(in alloc; "blk: 0 requests with all their times: {lack}\n")?;
    Ok(text.into_bytes())
}

/// What is dubious of the requests that are taken of a capture.
pub fn doubt_text(
    alloc: Global,
    counts: &RecordCounts,
    summary: &Summary,
    tags: u64,
    unmatched: u64,
) -> Result<Vec<u8>, AllocError>
    ensures { IfOk result (λ told. SaysDoubt counts.now summary.now tags unmatched told.items) }
{
    let mut told = crowd_text(alloc, summary.in_flight, tags)?;
    let much = unmatched_text(alloc, unmatched, counts.count())?;
    told.extend_from_slice(much.as_slice())?;
    let has_nothing = counts.has_nothing_whole(&summary.device);
    let nothing = nothing_text(alloc, has_nothing, counts.lacked_action())?;
    told.extend_from_slice(nothing.as_slice())?;
    Ok(told)
}
