//! How many records a text has, and how many it announces.

ghost use Rattle.std.specs.Prelude.{◌≡◌, ◌<◌, ◌+◌, ◌-◌, ◌^◌, IfOk, cond};
ghost use Rattle.csv.specs.Records.{fields_of};
ghost use Rattle.blk_explain.specs.Findings.{rows_of, row_at};
ghost use Rattle.blk_explain.specs.Counts.{is_of_bio, events_in, events_tally, IsTally};

use crate::broken::number_in;
use crate::findings::{count_rows, row_at};
use blk_records::Records;
use blk_records::fields::field;
use blk_text::BIO;
use csv::ByteRecord;
use std::alloc::{AllocError, Global};

/// How many records a text announces.
#[derive(Clone, Copy)]
pub enum Counted {
    /// No number of records.
    Nothing,
    /// As many commands as its title says, behind this many other records.
    Commands(u64),
    /// As many commands as its title says, and as many windows as its second record says, behind these two.
    Windows,
    /// As many events as its title says, each of one record and those of its bios.
    Events,
}

/// How many records of a text, or events, were found, and how many are wanted.
#[derive(Clone, Copy, Debug, PartialEq, Eq)]
pub struct Tally {
    /// How many were found.
    pub found: u64,
    /// How many are wanted.
    pub wanted: u64,
}

/// Whether a record is of a bio.
pub fn is_of_bio(row: &ByteRecord) -> bool
    ensures { result ≡ is_of_bio (fields_of row.now) }
{
    field(row, 0) == BIO.word.as_slice()
}

/// `others`, and one more where this record isn't of a bio.
fn with_row(others: u64, row: &ByteRecord) -> u64
    requires { others < 2 ^ 64 - 1 }
    ensures { result ≡ cond (is_of_bio (fields_of row.now)) others (others + 1) }
{
    if is_of_bio(row) { others } else { others + 1 }
}

/// How many events the records of a trace tell: those but for the title, the setup and the bios.
fn count_events(alloc: Global, bytes: &[u8]) -> Result<u64, AllocError>
    ensures { IfOk result (λ n. n ≡ events_in (rows_of bytes.now)) }
{
    let mut records = Records::new(alloc, bytes);
    let mut others: u64 = 0;
    for _ in 0..u64::MAX {
        match records.advance() {
            Ok(true) => others = with_row(others, records.row()),
            Ok(false) => return Ok(others.saturating_sub(2)),
            Err(_) => return Err(AllocError),
        }
    }
    Err(AllocError)
}

/// How many events were found, and how many are wanted. Where the numbers agree the fault is that an event has too few bios, of which the
/// numbers of the whole text say nothing.
fn events_tally(found: u64, wanted: u64) -> Option<Tally>
    ensures { result ≡ events_tally found wanted }
{
    if found == wanted {
        None
    } else {
        Some(Tally { found, wanted })
    }
}

/// The sum of two numbers that a text announces, which is far below the greatest number.
fn sum(one: u64, other: u64) -> Result<u64, AllocError>
    ensures { IfOk result (λ n. n ≡ one + other) }
{
    match one.checked_add(other) {
        Some(n) => Ok(n),
        None => Err(AllocError),
    }
}

/// How many records, or events, a text with this title has, and how many it announces, where it does.
pub fn tally_of(
    alloc: Global,
    bytes: &[u8],
    counted: Counted,
    title: &ByteRecord,
) -> Result<Option<Tally>, AllocError>
    requires { fields_of title.now ≡ row_at (rows_of bytes.now) 1 }
    ensures { IfOk result (IsTally counted (rows_of bytes.now)) }
{
    match counted {
        Counted::Nothing => Ok(None),
        Counted::Commands(heads) => {
            let found = count_rows(alloc, bytes)?;
            let wanted = sum(number_in(title, 3), heads)?;
            Ok(Some(Tally { found, wanted }))
        }
        Counted::Windows => {
            let found = count_rows(alloc, bytes)?;
            let second = row_at(alloc, bytes, 2)?;
            let items = sum(number_in(title, 3), number_in(&second, 2))?;
            let wanted = sum(items, 2)?;
            Ok(Some(Tally { found, wanted }))
        }
        Counted::Events => {
            let found = count_events(alloc, bytes)?;
            Ok(events_tally(found, number_in(title, 4)))
        }
    }
}
