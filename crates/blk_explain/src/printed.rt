//! What is said of what a recorder printed. Which words, the cases say.

ghost use Rattle.std.specs.Prelude.{IfOk};
ghost use Rattle.blk_explain.specs.Printed.{AreLinesExplained};

use crate::telling::push_byte;
use blk_recorders::{LineFault, LineReason, Recorder, Steps, read_lines};
use std::alloc::{AllocError, Global};
use text_output::Draft;

/// What is said about the lines that a recorder printed.
#[derive(Drop)]
pub struct LinesExplained {
    /// The first one that is wrong, if one is.
    pub fault: Option<LineFault>,
    /// All this in words, in lines.
    pub text: Vec<u8>,
}

/// The most bytes of a line that are shown.
const MAX_SHOWN: usize = 80;

/// What is wanted of a line that has this fault.
fn line_wanted(why: LineReason) -> &'static [u8] {
    match why {
        LineReason::Fields => b"all words of a step, and sectors as FIRST + COUNT",
        LineReason::Number =>
            b"a time with 9 or 6 digits behind its point, and numbers below 2^64 for processor, process, device and sectors",
        LineReason::Range => b"a time below 2^34 seconds",
        LineReason::Devices =>
            b"the device of the lines before it, or one that import is told by --device",
        LineReason::Order => b"a time no earlier than that of the step before it",
        LineReason::TooLong => b"at most 16000000 steps",
        LineReason::Memory => b"memory",
    }
}

/// The line of a text that has this number, from 1 on, empty where there is none.
fn line_numbered(bytes: &[u8], number: u64) -> &[u8] {
    let mut at: u64 = 0;
    for line in bytes.split(|byte| *byte == b'\n') {
        at = at.saturating_add(1);
        if at == number {
            return line;
        }
    }
    &[]
}

/// Adds the first bytes of a line, without the blanks before and behind its words.
fn push_line(draft: &mut Draft, line: &[u8]) -> Result<(), AllocError> {
    let shown = line.trim_ascii();
    draft.text(b"\"")?;
    for i in 0..shown.len() {
        if i < MAX_SHOWN {
            push_byte(draft, shown[i])?;
        }
    }
    draft.text(b"\"")
}

/// What is said of a line that is wrong: what was found and wanted, and, as the program has it, the recorder, the line and the rule.
fn line_fault_text(
    alloc: Global,
    recorder: Recorder,
    bytes: &[u8],
    fault: LineFault,
) -> Result<Vec<u8>, AllocError> {
    let mut draft = Draft::new(alloc);
    draft.text(b"line ")?;
    draft.number(fault.at)?;
    draft.text(b": found ")?;
    push_line(&mut draft, line_numbered(bytes, fault.at))?;
    draft.text(b", wanted ")?;
    draft.text(line_wanted(fault.why))?;
    draft.text(b"\n")?;
    draft.text(recorder.called().as_bytes())?;
    draft.text(b": line ")?;
    draft.number(fault.at)?;
    draft.text(b": ")?;
    draft.text(fault.why.name().as_bytes())?;
    draft.text(b"\n")?;
    draft.finish()
}

/// What is said of lines that are all good: who printed them, of which device, how many are steps, and how many are not.
fn steps_text(alloc: Global, recorder: Recorder, steps: &Steps) -> Result<Vec<u8>, AllocError> {
    let mut draft = Draft::new(alloc);
    draft.text(b"what ")?;
    draft.text(recorder.called().as_bytes())?;
    draft.text(b" prints, records ")?;
    draft.number(steps.records.len() as u64)?;
    if let Some(device) = steps.device {
        draft.text(b", device ")?;
        draft.number(device.major)?;
        draft.text(b",")?;
        draft.number(device.minor)?;
    }
    draft.text(b", other lines ")?;
    draft.number(steps.remarks)?;
    if steps.losses > 0 {
        draft.text(b", lines on lost events ")?;
        draft.number(steps.losses)?;
    }
    draft.text(b"\n")?;
    draft.finish()
}

/// What the lines of a recorder are, or which of them is the first that is wrong, as [`blk_recorders::read_lines`] reads them where no device is
/// asked for. Fails only when out of memory.
pub fn explain_lines(
    alloc: Global,
    recorder: Recorder,
    bytes: &[u8],
) -> Result<LinesExplained, AllocError>
    ensures { IfOk result (λ e. AreLinesExplained recorder bytes.now e.fault) }
{
    match read_lines(alloc, recorder, None, bytes) {
        Ok(steps) => {
            let text = steps_text(alloc, recorder, &steps)?;
            Ok(LinesExplained { fault: None, text })
        }
        Err(fault) => {
            if fault.why == LineReason::Memory {
                return Err(AllocError);
            }
            let text = line_fault_text(alloc, recorder, bytes, fault)?;
            Ok(LinesExplained {
                fault: Some(fault),
                text,
            })
        }
    }
}
