//! What of a capture is taken, as `import` is asked.

ghost use Rattle.std.specs.Prelude.{◌≡◌, ◌≤◌, IfOk, IfErr, length};
ghost use Rattle.blk_capture.specs.Requests.{AreInOrder, AreTimed};
ghost use Rattle.blk_capture_text.specs.Imports.{IsImport, IsImportFault, first_time, begin_after};
ghost use Rattle.blk_capture_text.specs.Names.{import_told};

use blk_capture::{Matched, Options, Record, match_records, part_of};
use edd_commands::{Fault, MAX_COMMANDS, Told, told};
use std::alloc::Global;
use thiserror::Error;

/// How a capture is imported.
#[derive(Clone, Copy, Debug, PartialEq, Eq)]
pub struct ImportAsked {
    /// How soon requests are due, and from when they count as having come in.
    pub options: Options,
    /// Requests that went out sooner than this after the first record, in nanoseconds, are left out.
    pub skip: u64,
    /// The most of the others that are taken, those that went out first.
    pub first: u64,
}

/// Why a capture is not imported.
#[derive(Clone, Copy, Debug, PartialEq, Eq, Error)]
#[error("{}", self.name())]
pub enum ImportFault {
    /// So many requests would be taken, which are more than a schedule may have.
    TooMany(u64),
    /// Memory ran out.
    Memory,
}

impl Fault for ImportFault {
    ghost told = { import_told };

    fn told(&self) -> Told {
        told!(self: ImportFault {
            TooMany(_),
            Memory => Memory,
        })
    }
}

/// The time of the first record, 0 where there is none.
pub fn first_time(records: &[Record]) -> u64
    ensures { result ≡ first_time records.now }
{
    match records {
        [first, ..] => first.time,
        [] => 0,
    }
}

/// From when requests are taken.
fn begin_after(skip: u64, records: &[Record]) -> u64
    ensures { result ≡ begin_after skip records.now }
{
    first_time(records).saturating_add(skip)
}

/// The requests of a capture that went out as long after its first record as asked, or later, and of these the first ones; with its bios,
/// and what became of its records. The times of the records don't fall, as those that [`crate::read_capture`] gives.
///
/// [`ImportFault::TooMany`]: more requests would be taken than a schedule may have, [`edd_commands::MAX_COMMANDS`], and how many. The time grows as n log n.
pub fn import(
    alloc: Global,
    records: &[Record],
    asked: &ImportAsked,
) -> Result<Matched, ImportFault>
    requires { AreInOrder records.now (length records.now) }
    ensures ok { IfOk result (λ m. IsImport records.now asked.now m.requests.items m.bios.items m.fates.items m.absorbed m.left_out) }
    ensures timed { IfOk result (λ m. AreTimed m.requests.items) }
    ensures few { IfOk result (λ m. length m.requests.items ≤ MAX_COMMANDS) }
    ensures fates { IfOk result (λ m. length m.fates.items ≡ length records.now) }
    ensures err { IfErr result (IsImportFault records.now asked.now) }
{
    let whole = match match_records(alloc, records, &asked.options) {
        Ok(whole) => whole,
        Err(_) => return Err(ImportFault::Memory),
    };
    // brings the prover how many records there can be
    let _ = records.len();
    match part_of(alloc, whole, begin_after(asked.skip, records), asked.first) {
        Ok(part) => {
            let count = part.requests.len() as u64;
            if count > MAX_COMMANDS {
                return Err(ImportFault::TooMany(count));
            }
            Ok(part)
        }
        Err(_) => Err(ImportFault::Memory),
    }
}
