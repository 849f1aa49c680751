//! The requests of a capture that a job tells of, and what is said beside what it tells.

ghost use Rattle.std.specs.Prelude.{◌≡◌, ◌≤◌, true, IfOk, IfErr, length, option_map};
ghost use Rattle.edd_commands.specs.declared.TheConstants.{MAX_COMMANDS};
ghost use Rattle.blk_capture.specs.Requests.{AreInOrder, AreTimed};
ghost use Rattle.blk_cli.specs.Said.{said_of};
ghost use Rattle.blk_cli.specs.Importing.{line_on, IsNoteOf, IsTakenOf, IsOutputFailure};
ghost use Rattle.blk_capture_text.specs.SummaryText.{counts_of};

use crate::Answered;
use crate::failure::Failure;
use crate::importing::{asked_of, noted, tags_asked};
use crate::notes::doubt_text;
use blk_args::Import;
use blk_capture::{CapturedRequest, Matched, Record, summarize};
use blk_capture_text::{RecordCounts, UnusedCounts, count_fates, import, notice_text};
use std::alloc::{AllocError, Global};

/// The requests of a capture that are taken, and what is said beside what is written of them.
#[derive(Drop)]
pub struct TakenRequests {
    /// The requests, in the order in which they went out.
    pub requests: Vec<CapturedRequest>,
    /// The lines on what is dubious and on what is left out, as of their schedule.
    pub note: Option<Vec<u8>>,
}

impl TakenRequests {
    /// A text that is written of the requests, with what is said beside it.
    pub fn beside(self, text: Vec<u8>) -> Answered
        ensures { said_of result ≡ record { text = text.items; note = option_map (λ line. line.items) self.note; good = true } }
    {
        Answered {
            text,
            note: self.note,
            good: true,
        }
    }
}

/// The line on what was passed over or not matched, where there is any.
fn line_on(alloc: Global, counts: &UnusedCounts) -> Result<Option<Vec<u8>>, AllocError>
    ensures { IfOk result (λ note. option_map (λ line. line.items) note ≡ line_on counts.now) }
{
    if counts.passed == 0 && counts.unmatched == 0 {
        return Ok(None);
    }
    match notice_text(alloc, counts) {
        Ok(line) => Ok(Some(line)),
        Err(refused) => Err(refused),
    }
}

/// What is said beside the text, and before it what of the requests is dubious.
fn note_on(
    alloc: Global,
    tags: u64,
    records: &[Record],
    matched: &Matched,
) -> Result<Option<Vec<u8>>, AllocError>
    requires timed { AreTimed matched.now.requests.items }
    requires few { length matched.now.requests.items ≤ MAX_COMMANDS }
    requires fates { length matched.now.fates.items ≡ length records.now }
    ensures { IfOk result (λ n. IsNoteOf tags (line_on (counts_of matched.now.fates.items)) records.now matched.now.requests.items matched.now.fates.items (option_map (λ v. v.items) n)) }
{
    let summary = summarize(alloc, records, matched)?;
    let counts = count_fates(matched.fates.as_slice());
    let doubts = doubt_text(
        alloc,
        &RecordCounts::of(records),
        &summary,
        tags,
        counts.unmatched,
    )?;
    let note = line_on(alloc, &counts)?;
    match noted(doubts, note) {
        Ok(all) => Ok(all),
        Err(refused) => Err(refused),
    }
}

/// The requests of a capture that are taken. Their bios, and what became of each record, are let go.
pub fn take_requests(
    alloc: Global,
    wanted: Import,
    records: &[Record],
) -> Result<TakenRequests, Failure>
    requires { AreInOrder records.now (length records.now) }
    ensures taken { IfOk result (λ t. IsTakenOf wanted records.now t.requests.items (option_map (λ line. line.items) t.note)) }
    ensures timed { IfOk result (λ t. AreTimed t.requests.items) }
    ensures few { IfOk result (λ t. length t.requests.items ≤ MAX_COMMANDS) }
    ensures fails { IfErr result (IsOutputFailure wanted records.now) }
{
    let asked = asked_of(wanted);
    let matched = match import(alloc, records, &asked) {
        Ok(matched) => matched,
        Err(fault) => return Err(Failure::Import(fault)),
    };
    let tags = tags_asked(wanted.source.tags);
    match note_on(alloc, tags, records, &matched) {
        Ok(note) => Ok(TakenRequests {
            requests: matched.requests,
            note,
        }),
        Err(_) => Err(Failure::Memory),
    }
}
