//! Captures as texts: one is read as records, and what they tell of requests is written, as a schedule, a table and a summary.
#![tactic(auto)]

mod counts;
mod doubts;
mod importing;
pub mod laws;
mod lines;
mod numbers;
mod reading;
mod record;
mod schedule;
mod shown;
mod source;
mod streaming;
mod summing;
mod table;

pub use crate::counts::RecordCounts;
pub use crate::importing::{ImportAsked, ImportFault, first_time, import};
pub use crate::lines::StreamedCapture;
pub use crate::numbers::{UnusedCounts, count_fates, notice_text, summary_answer};
pub use crate::reading::{CAPTURE, MAX_RECORDS, read_capture};
pub use crate::record::RECORD_ROW;
pub use crate::schedule::schedule_of;
pub use crate::shown::{ShownImport, shown_text};
pub use crate::source::{CaptureRead, Printed, UnreadCapture, form_taken, read_source};
pub use crate::streaming::{Streamed, StreamedSummary};
pub use crate::summing::{Unstreamed, stream_source};
pub use crate::table::table_text;
