//! A step of a script that a run refuses, in words.

use crate::broken::number_in;
use crate::counts::is_of_bio;
use crate::findings::row_at;
use crate::forms::TextForm;
use crate::lines::line_at;
use crate::telling::{push_place, push_rule};
use blk_bio::BioId;
use blk_records::Records;
use csv::ByteRecord;
use std::alloc::{AllocError, Global};
use text_output::Draft;

/// A step of a script that a run refuses.
#[derive(Clone, Copy, Debug)]
pub struct RefusedStep {
    /// Its record, from 1 on.
    pub at: u64,
    /// The name of the rule.
    pub why: &'static str,
    /// What refuses it.
    pub state: StepState,
}

/// What refuses a step.
#[derive(Clone, Copy, Debug)]
pub enum StepState {
    /// The software queue of the submitter that it names holds so many requests of so many that it has room for, and the plug brings this many.
    Full(u64, u64, u64),
    /// This bio entered before.
    Entered(BioId),
    /// It isn't what is wanted, which is this.
    Other(&'static str),
}

/// The number of the first record of this bio, 0 where there is none.
fn first_of(alloc: Global, bytes: &[u8], id: BioId) -> Result<u64, AllocError> {
    let mut records = Records::new(alloc, bytes);
    for n in 0..u64::MAX {
        match records.advance() {
            Ok(true) => {
                let row = records.row();
                if is_of_bio(row)
                    && number_in(row, 1) == id.submitter as u64
                    && number_in(row, 2) == id.serial
                {
                    return Ok(n + 1);
                }
            }
            Ok(false) => return Ok(0),
            Err(_) => return Err(AllocError),
        }
    }
    Ok(0)
}

/// Adds what refuses a step, whose record this is.
fn push_state(
    draft: &mut Draft,
    alloc: Global,
    bytes: &[u8],
    row: &ByteRecord,
    state: StepState,
) -> Result<(), AllocError> {
    match state {
        StepState::Full(holds, room, brings) => {
            draft.text(b"software queue ")?;
            draft.number(number_in(row, 1))?;
            draft.text(b" holds ")?;
            draft.number(holds)?;
            draft.text(b" of ")?;
            draft.number(room)?;
            draft.text(b" requests, and the plug brings ")?;
            draft.number(brings)
        }
        StepState::Entered(id) => {
            let first = first_of(alloc, bytes, id)?;
            draft.text(b"bio ")?;
            draft.number(id.submitter as u64)?;
            draft.text(b",")?;
            draft.number(id.serial)?;
            draft.text(b" entered at line ")?;
            draft.number(line_at(bytes, first))
        }
        StepState::Other(wanted) => {
            draft.text(b"wanted ")?;
            draft.text(wanted.as_bytes())
        }
    }
}

/// What is told of a step that a run of the script in these bytes refuses, in two lines: one for its author, and one as the program names it; the
/// cases say in which words. Fails only when out of memory.
pub fn explain_step(alloc: Global, bytes: &[u8], step: RefusedStep) -> Result<Vec<u8>, AllocError> {
    if step.at == u64::MAX {
        return Err(AllocError);
    }
    let row = row_at(alloc, bytes, step.at)?;
    let mut draft = Draft::new(alloc);
    push_place(&mut draft, line_at(bytes, step.at), step.at)?;
    draft.text(step.why.as_bytes())?;
    draft.text(b": ")?;
    push_state(&mut draft, alloc, bytes, &row, step.state)?;
    draft.text(b"\n")?;
    let script = TextForm::Script.row();
    push_rule(&mut draft, script.title.word(), step.at, step.why)?;
    draft.finish()
}
