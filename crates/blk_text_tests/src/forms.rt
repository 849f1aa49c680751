//! What comes of texts, form by form: what is read of them and written again, and their faults, each by its record and name.

use blk_records::{
    Proof, Records, TextFault, TextReason, certificate_text, commands_text, on_time_text,
    read_certificate, read_commands, read_on_time, read_proof, read_schedule, schedule_text,
};
use blk_text::{read_script, read_trace, trace_text};
use std::alloc::Global;
use std::io::Read;

/// A form of a text.
#[derive(Clone, Copy)]
pub enum TextKind {
    /// A command list.
    Commands,
    /// A script.
    Script,
    /// A certificate of the least greatest lateness.
    Certificate,
    /// A certificate of the greatest number on time.
    OnTime,
    /// A certificate of either form.
    Proof,
    /// A schedule.
    Schedule,
    /// A trace.
    Trace,
}

/// The fault of what a reader gives, read in a form.
pub fn fault_of<R: Read + Drop>(alloc: Global, form: TextKind, reader: R) -> Option<TextFault> {
    let records = &mut Records::new(alloc, reader);
    match form {
        TextKind::Commands => read_commands(alloc, records).err(),
        TextKind::Script => read_script(alloc, records).err(),
        TextKind::Certificate => read_certificate(alloc, records).err(),
        TextKind::OnTime => read_on_time(alloc, records).err(),
        TextKind::Proof => read_proof(alloc, records).err(),
        TextKind::Schedule => read_schedule(alloc, records).err(),
        TextKind::Trace => read_trace(alloc, records).err(),
    }
}

/// The place of the first text that has another fault in a form than the one beside it, if there is one.
pub fn first_other(
    alloc: Global,
    form: TextKind,
    texts: &[(&str, u64, TextReason)],
) -> Option<usize> {
    for (place, (text, at, why)) in texts.iter().enumerate() {
        let fault = TextFault { at: *at, why: *why };
        if fault_of(alloc, form, text.as_bytes()) != Some(fault) {
            return Some(place);
        }
    }
    None
}

/// The text of what is read of a text in a form. There is none where the text has a fault, the form is only read, or memory runs out.
fn rewritten(alloc: Global, form: TextKind, text: &str) -> Option<Vec<u8>> {
    let records = &mut Records::new(alloc, text.as_bytes());
    let written = match form {
        TextKind::Script => return None,
        TextKind::Commands => match read_commands(alloc, records) {
            Ok((depth, commands)) => commands_text(alloc, depth, commands.as_slice()),
            Err(_) => return None,
        },
        TextKind::Certificate => match read_certificate(alloc, records) {
            Ok(certificate) => certificate_text(alloc, &certificate),
            Err(_) => return None,
        },
        TextKind::OnTime => match read_on_time(alloc, records) {
            Ok(certificate) => on_time_text(alloc, &certificate),
            Err(_) => return None,
        },
        TextKind::Proof => match read_proof(alloc, records) {
            Ok(Proof::Lateness(certificate)) => certificate_text(alloc, &certificate),
            Ok(Proof::OnTime(certificate)) => on_time_text(alloc, &certificate),
            Err(_) => return None,
        },
        TextKind::Schedule => match read_schedule(alloc, records) {
            Ok(schedule) => schedule_text(alloc, &schedule),
            Err(_) => return None,
        },
        TextKind::Trace => match read_trace(alloc, records) {
            Ok(trace) => trace_text(alloc, &trace),
            Err(_) => return None,
        },
    };
    written.ok()
}

/// The place of the first text of which something else is written again in a form than the text beside it, if there is one.
pub fn first_unlike(alloc: Global, form: TextKind, texts: &[(&str, &str)]) -> Option<usize> {
    for (place, (text, written)) in texts.iter().enumerate() {
        match rewritten(alloc, form, text) {
            Some(out) if out.as_slice() == written.as_bytes() => {}
            _ => return Some(place),
        }
    }
    None
}

/// The place of the first text of which something else is written again in a form, if there is one.
pub fn first_not_itself(alloc: Global, form: TextKind, texts: &[&str]) -> Option<usize> {
    for (place, text) in texts.iter().enumerate() {
        if first_unlike(alloc, form, &[(*text, *text)]).is_some() {
            return Some(place);
        }
    }
    None
}
