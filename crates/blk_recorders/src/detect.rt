//! Which recorder printed a text, by its first lines.

ghost use Rattle.std.specs.Prelude.{◌≡◌, IfOk};
ghost use Rattle.blk_recorders.specs.Words.{word_texts};
ghost use Rattle.blk_recorders.specs.Detected.{is_title, tells_step, heading, recorder_of_step, form_told, form_of_lines};

use crate::fault::LineReason;
use crate::layout::step_told;
use crate::lines::{Line, line_of};
use crate::recorder::Recorder;
use crate::words::{SplitLine, cut_line, word_at};
use std::alloc::{AllocError, Global};

/// How many of a text's first lines are looked at.
pub const FIRST_LINES: usize = 100;

/// The form of a capture.
#[derive(Clone, Copy, Debug, PartialEq, Eq)]
pub enum CaptureForm {
    /// The form `blk-capture`: a title, and records with commas.
    Records,
    /// What a recorder printed.
    Printed(Recorder),
}

/// Whether a word is of a title: the names of all forms begin with `blk-`. A byte order mark and a quote may stand before.
fn is_title(word: &[u8]) -> bool
    ensures { result ≡ is_title word.now }
{
    word.starts_with(b"blk-")
        || word.starts_with(b"\"blk-")
        || word.starts_with(b"\xEF\xBB\xBFblk-")
}

/// Whether a line tells a step in the form of a recorder.
fn tells_step<'a>(
    recorder: Recorder,
    words: &[&'a [u8]],
    fields: &mut Vec<&'a [u8]>,
) -> Result<bool, AllocError>
    ensures { IfOk result (λ b. b ≡ tells_step recorder (word_texts words.now)) }
{
    match line_of(recorder, words, fields) {
        Ok(Line::Step(layout)) => Ok(step_told(&layout).is_ok()),
        Ok(Line::Remark) | Ok(Line::Loss) => Ok(false),
        Err(LineReason::Memory) => Err(AllocError),
        Err(_) => Ok(false),
    }
}

/// Whether a line is one that a recorder prints before its steps, and which: `# tracer: blk` is ftrace's, `Attaching 13 probes...` bpftrace's, and
/// `Input file run.blktrace.0 added` blkparse's.
fn heading(words: &[&[u8]]) -> Option<Recorder>
    ensures { result ≡ heading (word_texts words.now) }
{
    let first = word_at(words, 0);
    let second = word_at(words, 1);
    if first == b"Attaching".as_slice() || first == b"Attached".as_slice() {
        Some(Recorder::Bpftrace)
    } else if first == b"Input".as_slice() && second == b"file".as_slice() {
        Some(Recorder::Blkparse)
    } else if first == b"#".as_slice() && second == b"tracer:".as_slice() {
        Some(Recorder::Ftrace)
    } else {
        None
    }
}

/// The recorder of which a line tells a step, if it does of one.
fn recorder_of_step<'a>(
    words: &[&'a [u8]],
    fields: &mut Vec<&'a [u8]>,
) -> Result<Option<Recorder>, AllocError>
    ensures { IfOk result (λ r. r ≡ recorder_of_step (word_texts words.now)) }
{
    if tells_step(Recorder::Ftrace, words, fields)? {
        return Ok(Some(Recorder::Ftrace));
    }
    if tells_step(Recorder::Blkparse, words, fields)? {
        return Ok(Some(Recorder::Blkparse));
    }
    if tells_step(Recorder::Perf, words, fields)? {
        return Ok(Some(Recorder::Perf));
    }
    Ok(None)
}

/// The form of which the line that was cut is, if it tells: a title; what a recorder prints before its steps; or a step.
fn form_by(cuts: &mut SplitLine<'_>) -> Result<Option<CaptureForm>, AllocError>
    ensures { IfOk result (λ f. f ≡ form_told (word_texts cuts.old.words.items)) }
{
    let words = cuts.words.as_slice();
    if is_title(word_at(words, 0)) {
        return Ok(Some(CaptureForm::Records));
    }
    if let Some(recorder) = heading(words) {
        return Ok(Some(CaptureForm::Printed(recorder)));
    }
    match recorder_of_step(words, &mut cuts.fields)? {
        Some(recorder) => Ok(Some(CaptureForm::Printed(recorder))),
        None => Ok(None),
    }
}

/// The form of a capture, by the first of its first 100 lines that tells: a line that begins with a title is of the form `blk-capture`, one that
/// begins with `Attaching` or `Attached` is bpftrace's, one with `Input file` blkparse's, one with `# tracer:` ftrace's, and else a line is of the
/// recorder of which it tells a step, ftrace, blkparse or perf, in this order. Where no line tells it is taken for `blk-capture`. Fails only when out
/// of memory.
pub fn form_of(alloc: Global, text: &[u8]) -> Result<CaptureForm, AllocError>
    ensures { IfOk result (λ f. f ≡ form_of_lines text.now) }
{
    let mut cuts = SplitLine::new(alloc);
    let mut begin = 0;
    for _line in 0..FIRST_LINES {
        if begin > text.len() {
            return Ok(CaptureForm::Records);
        }
        let end = cut_line(text, begin, &mut cuts.words)?;
        match form_by(&mut cuts)? {
            Some(form) => return Ok(form),
            None => {}
        }
        begin = end + 1;
    }
    Ok(CaptureForm::Records)
}
