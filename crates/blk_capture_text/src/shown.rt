//! What is shown of an import.

ghost use Rattle.std.specs.Prelude.{◌≤◌, IfOk, length};
ghost use Rattle.edd_commands.specs.declared.TheConstants.{MAX_COMMANDS};
ghost use Rattle.blk_capture.specs.Requests.{AreTimed};
ghost use Rattle.blk_capture_text.specs.Shown.{IsShown, IsScheduleText, IsTableText};

use crate::importing::first_time;
use crate::schedule::schedule_of;
use crate::table::table_text;
use blk_capture::{CapturedRequest, Record, rows_of};
use blk_records::schedule_text;
use std::alloc::{AllocError, Global};

/// What is shown of an import.
#[derive(Clone, Copy, Debug, PartialEq, Eq)]
pub enum ShownImport {
    /// The schedule of its requests.
    Schedule,
    /// A row a request.
    Table,
}

/// The text of the schedule of requests.
fn text_of_schedule(alloc: Global, requests: &[CapturedRequest]) -> Result<Vec<u8>, AllocError>
    requires timed { AreTimed requests.now }
    requires few { length requests.now ≤ MAX_COMMANDS }
    ensures { IfOk result (λ text. IsScheduleText requests.now text.items) }
{
    let schedule = schedule_of(alloc, requests)?;
    schedule_text(alloc, &schedule)
}

/// The text of the table of requests, with times from the first record on.
fn text_of_table(
    alloc: Global,
    records: &[Record],
    requests: &[CapturedRequest],
) -> Result<Vec<u8>, AllocError>
    ensures { IfOk result (λ text. IsTableText records.now requests.now text.items) }
{
    let rows = rows_of(alloc, requests, first_time(records))?;
    table_text(alloc, rows.as_slice())
}

/// The text of what is shown of the requests that [`crate::import`] takes of the records. Fails only when out of memory.
pub fn shown_text(
    alloc: Global,
    shown: ShownImport,
    records: &[Record],
    requests: &[CapturedRequest],
) -> Result<Vec<u8>, AllocError>
    requires timed { AreTimed requests.now }
    requires few { length requests.now ≤ MAX_COMMANDS }
    ensures { IfOk result (λ text. IsShown shown records.now requests.now text.items) }
{
    match shown {
        ShownImport::Schedule => text_of_schedule(alloc, requests),
        ShownImport::Table => text_of_table(alloc, records, requests),
    }
}
