//! The line of the project's own subcommands on a text that is none of those they read: what it is, and what was wanted; and that of `import` on
//! a capture that is too long.

use blk_args::{Import, Job, Kept, Running, TextJob, TraceOutput, Written, figures_name};
use blk_explain::{TextForm, called, form_named};
use blk_recorders::{CaptureForm, Recorder, form_of};
use blk_records::TextReason;
use blk_records::fields::field;
use csv::ByteRecord;
use std::alloc::{AllocError, Global};
use text_output::Draft;

/// What a trace is asked by a subcommand of the project's own.
fn teller_of(telling: TraceOutput) -> Option<&'static [u8]> {
    match telling {
        TraceOutput::Picture => Some(b"picture"),
        TraceOutput::Figures(asked, _) => Some(figures_name(asked)?.as_bytes()),
        _ => None,
    }
}

/// What a capture is written by.
fn importer_of(import: Import) -> &'static [u8] {
    match import.written {
        Written::Kept(Kept::Blame(_)) => b"blame",
        Written::Kept(Kept::Replay(_) | Kept::Grid(_) | Kept::Replayed(_, _)) => b"replay",
        _ => b"import",
    }
}

/// The subcommand of the project's own that a job is of, and the form of the texts that it reads.
fn reader_of(job: Job) -> Option<(&'static [u8], TextForm)> {
    match job {
        Job::Tune(_) => Some((b"tune", TextForm::Script)),
        Job::Import(import) => Some((importer_of(import), TextForm::Capture)),
        Job::OfText(TextJob::Judge { .. }) => Some((b"judge", TextForm::Schedule)),
        Job::OfText(TextJob::Draw) => Some((b"picture --schedule", TextForm::Schedule)),
        Job::OfText(TextJob::OfScript(Running::Drawn(_))) => Some((
            b"picture --script",
            TextForm::Script,
        )),
        Job::OfText(TextJob::OfTrace(telling)) => match teller_of(telling) {
            Some(name) => Some((name, TextForm::Trace)),
            None => None,
        },
        _ => None,
    }
}

/// The recorder that printed a text whose first record this is, if its first line tells.
fn printer_of(alloc: Global, row: &ByteRecord) -> Result<Option<Recorder>, AllocError> {
    let mut line = Vec::new(alloc);
    for place in 0..row.len() {
        if place > 0 {
            line.push(b',')?;
        }
        line.extend_from_slice(field(row, place))?;
    }
    match form_of(alloc, line.as_slice())? {
        CaptureForm::Printed(recorder) => Ok(Some(recorder)),
        CaptureForm::Records => Ok(None),
    }
}

/// Adds what a text is that a recorder printed: `import` takes it, but for NUL.
fn push_printed(draft: &mut Draft, recorder: Recorder, wanted: TextForm) -> Result<(), AllocError> {
    if wanted == TextForm::Capture {
        return draft.text(b"no text: NUL stands among its first bytes");
    }
    draft.text(b"what ")?;
    draft.text(recorder.called().as_bytes())?;
    draft.text(b" prints")
}

/// Adds what a text is whose first record this is, for a subcommand that reads another.
fn push_what(
    alloc: Global,
    draft: &mut Draft,
    wanted: TextForm,
    row: &ByteRecord,
) -> Result<(), AllocError> {
    let found = field(row, 0);
    if row.len() == 0 {
        return draft.text(b"the input is empty");
    }
    if found.is_empty() {
        return draft.text(b"this has no title");
    }
    draft.text(b"this is ")?;
    match printer_of(alloc, row)? {
        Some(recorder) => push_printed(draft, recorder, wanted),
        None => draft.text(called(found).as_bytes()),
    }
}

/// Adds what a subcommand reads: `import` takes captures in more forms than one.
fn push_wanted(draft: &mut Draft, wanted: TextForm) -> Result<(), AllocError> {
    draft.text(wanted.called().as_bytes())?;
    if wanted == TextForm::Capture {
        draft.text(b", or what blkparse, ftrace, perf or bpftrace prints")?;
    }
    Ok(())
}

/// What is said behind the fault of a text with another title than this subcommand reads, given its first record.
fn title_text(
    alloc: Global,
    name: &[u8],
    wanted: TextForm,
    row: &ByteRecord,
) -> Result<Vec<u8>, AllocError> {
    let mut draft = Draft::new(alloc);
    push_what(alloc, &mut draft, wanted, row)?;
    if form_named(field(row, 0)) == Some(wanted) {
        draft.text(b" of no version that ")?;
        draft.text(name)?;
        draft.text(b" reads")?;
    } else {
        draft.text(b", and ")?;
        draft.text(name)?;
        draft.text(b" reads ")?;
        push_wanted(&mut draft, wanted)?;
    }
    draft.text(b"; see blk explain")?;
    draft.finish()
}

/// What is said behind the fault of a capture with more records than one may have.
const TOO_LONG: &[u8] = b"a capture has at most 16000000 records, so cut the text before this one";

/// What is said behind the fault of a text that is too long: of a capture, what to do.
fn length_of(alloc: Global, job: Job) -> Result<Option<Vec<u8>>, AllocError> {
    let Job::Import(_) = job else {
        return Ok(None);
    };
    let mut text = Vec::new(alloc);
    text.extend_from_slice(TOO_LONG)?;
    Ok(Some(text))
}

/// What is said behind the fault of a text with another title than this job reads, where it is one of the project's own.
fn title_of(alloc: Global, job: Job, row: &ByteRecord) -> Result<Option<Vec<u8>>, AllocError> {
    match reader_of(job) {
        Some((name, wanted)) => Ok(Some(title_text(alloc, name, wanted, row)?)),
        None => Ok(None),
    }
}

/// What is said behind the name of a fault of the text of a job, given the record that was read last, where there is more to say.
pub fn more_of(
    alloc: Global,
    job: Job,
    why: TextReason,
    row: &ByteRecord,
) -> Result<Option<Vec<u8>>, AllocError> {
    match why {
        TextReason::Title => title_of(alloc, job, row),
        TextReason::TooLong => length_of(alloc, job),
        _ => Ok(None),
    }
}
