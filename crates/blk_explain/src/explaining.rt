//! What a text is, or what is wrong with it.

ghost use Rattle.std.specs.Prelude.{◌≡◌, IfOk};
ghost use Rattle.blk_explain.specs.Explained.{record_told, form_without_fault, IsExplained};

use crate::details::{Detail, detail_of};
use crate::findings::{Finding, find};
use crate::forms::TextForm;
use crate::lines::line_at;
use crate::telling::explanation_text;
use std::alloc::{AllocError, Global};

/// What is said about a text.
#[derive(Drop)]
pub struct Explained {
    /// What was found.
    pub finding: Finding,
    /// The line on which the record begins that has the fault; 1 where none has.
    pub line: u64,
    /// What is known of the fault beside that.
    pub detail: Detail,
    /// All this in words, in lines; the cases say which.
    pub text: Vec<u8>,
}

impl Finding {
    /// The record that is told about.
    fn record(self) -> u64
        ensures { result ≡ record_told self }
    {
        match self {
            Finding::Good(_) | Finding::Untitled => 1,
            Finding::Faulty(_, fault) => fault.at,
        }
    }

    /// The form of a text without a fault.
    pub fn form(self) -> Option<TextForm>
        ensures { result ≡ form_without_fault self }
    {
        match self {
            Finding::Good(form) => Some(form),
            Finding::Faulty(_, _) | Finding::Untitled => None,
        }
    }
}

/// What a text is: its form by its title, version and number of records; or its first fault, by line, record and field, with what was
/// found and what is wanted. Fails only when out of memory.
///
/// The form is the one whose name the text begins with, and the fault the one that the reader of that form answers; whether a good
/// script runs is for its caller to look at ([`explain_step`](crate::explain_step)). For a text that begins with no such name the nearest name is wanted, the one
/// that is the fewest edits away, and for one whose first field is empty, or no text, a title.
pub fn explain(alloc: Global, bytes: &[u8]) -> Result<Explained, AllocError>
    ensures { IfOk result (λ e. IsExplained bytes.now e.finding e.line e.detail) }
{
    let finding = find(alloc, bytes)?;
    let detail = detail_of(alloc, bytes, finding)?;
    let line = line_at(bytes, finding.record());
    let text = explanation_text(alloc, bytes, finding, line, detail)?;
    Ok(Explained {
        finding,
        line,
        detail,
        text,
    })
}
