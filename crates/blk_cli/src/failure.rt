//! Why the program ends without its output, as a line and an exit status.

ghost use Rattle.std.specs.Prelude.{◌≡◌, ◌≤◌, decimal};
ghost use Rattle.text_output.specs.Outputs.{Writes, stream_of};
ghost use Rattle.blk_cli.specs.Lines.{line, numbered, signed_line, at_record, more_line, at_line, told_of, told_line, status_of, OwnLine, PrintedLine, ImportLine, ArrivalsLine, LineOn};
ghost use Rattle.blk_cli.specs.Ends.{EndsFailing};

use crate::Ended;
use blk_args::Refusal;
use blk_arrivals::ArrivalsFault;
use blk_capture_text::{ImportFault, UnreadCapture};
use blk_recorders::{LineFault, LineReason};
use blk_records::TextFault;
use blk_runs::RunFault;
use blk_schedulers::given::MAX_LISTED;
use blk_schedulers::{Complaint, SchedFault, Unsettled};
use edd_check::{CheckFault, OnTimeFault};
use edd_commands::{Beside, Fault, Told, told};
use edd_oracle::OracleFault;
use std::io::Write;
use text_output::pieces::{MAX_DIGITS, put_number};
use text_output::{Output, WriteFault};
use thiserror::Error;

/// What each line begins with.
const START: &[u8] = b"blk: ";

/// What each line ends with.
const END: &[u8] = b"\n";

/// What is said of one record too many.
const TOO_LONG: &str =
    "TooLong: a capture has at most 16000000 records, so cut the text before this line";

/// Why there is no output, or not all of it.
#[derive(Clone, Copy, Debug, PartialEq, Eq, Error)]
#[error("{}", self.name())]
pub enum Failure {
    /// The text that was read is wrong, or its reader failed.
    Text(TextFault),
    /// The capture is not read.
    Unread(UnreadCapture),
    /// The scheduler is not made of its settings.
    Sched(SchedFault),
    /// The script is not run.
    Run(RunFault),
    /// The oracle refuses the commands.
    Solve(OracleFault),
    /// The check refuses the certificate.
    Check(CheckFault),
    /// The check refuses the certificate of what is on time.
    OnTime(OnTimeFault),
    /// The trace has no command list: an event sets a depth, and a command list has one.
    NotFixed,
    /// The load has no result.
    Load(Unsettled),
    /// The capture is not imported.
    Import(ImportFault),
    /// The arrivals of the capture are no script.
    Arrivals(ArrivalsFault),
    /// The arguments can't be done.
    Words(Refusal),
    /// The writer failed. No job fails so: its text is written by the run.
    Write,
    /// Memory ran out.
    Memory,
}

impl Failure {
    /// Writes the failure's line: `blk: ` and what was refused, where it stands or which id or number it has.
    fn tell<F: Write>(&self, faults: &mut Output<F>) -> Result<(), WriteFault>
        ensures { LineOn self.now (λ text. Writes text (stream_of F.contents faults.old) (stream_of F.contents faults.new) result) }
    {
        match self {
            Failure::Unread(UnreadCapture::Line(fault)) => tell_line(faults, *fault),
            Failure::Import(fault) => tell_import(faults, *fault),
            Failure::Arrivals(fault) => tell_arrivals(faults, *fault),
            Failure::Words(refusal) => tell_words(faults, *refusal),
            _ => tell_told(faults, self.told()),
        }
    }

    /// Writes the failure's line and ends with its status, even where the line can't be written.
    pub fn say<F: Write>(&self, faults: &mut Output<F>) -> Ended
        ensures ends { EndsFailing self.now (stream_of F.contents faults.old) (stream_of F.contents faults.new) result }
        ensures range { (1 ≤ result.status) × (result.status ≤ 3) }
    {
        let status = self.told().beside.status();
        match self.tell(faults) {
            Ok(()) => Ended { status, said: true },
            Err(_) => Ended {
                status,
                said: false,
            },
        }
    }
}

impl Fault for Failure {
    ghost told = { told_of };

    fn told(&self) -> Told {
        told!(self: Failure {
            Text(fault) by fault,
            Unread(fault) by fault,
            Sched(fault) by fault,
            Run(fault) by fault,
            Solve(fault) by fault,
            Check(fault) by fault,
            OnTime(fault) by fault,
            NotFixed,
            Load(fault) by fault,
            Import(fault) by fault,
            Arrivals(fault) by fault,
            Words(_) => Words,
            Write => Write,
            Memory => Memory,
        })
    }
}

/// Writes the line of a name.
fn tell_name<F: Write>(faults: &mut Output<F>, name: &str) -> Result<(), WriteFault>
    ensures { Writes (line name.now) (stream_of F.contents faults.old) (stream_of F.contents faults.new) result }
{
    faults.put_all(&[START, name.as_bytes(), END])
}

/// Writes the line of what is refused at a record.
fn tell_record<F: Write>(faults: &mut Output<F>, at: u64, name: &str) -> Result<(), WriteFault>
    ensures { Writes (at_record at name.now) (stream_of F.contents faults.old) (stream_of F.contents faults.new) result }
{
    let mut digits = [0; MAX_DIGITS];
    let end = put_number(at, &mut digits, 0);
    let record: &[u8] = b"blk: record ";
    let colon: &[u8] = b": ";
    faults.put_all(&[record, &digits[..end], colon, name.as_bytes(), END])
}

/// The same with more behind the name.
pub(crate) fn tell_more<F: Write>(
    faults: &mut Output<F>,
    at: u64,
    name: &str,
    more: &[u8],
) -> Result<(), WriteFault>
    ensures { Writes (more_line at name.now more.now) (stream_of F.contents faults.old) (stream_of F.contents faults.new) result }
{
    let mut digits = [0; MAX_DIGITS];
    let end = put_number(at, &mut digits, 0);
    let record: &[u8] = b"blk: record ";
    let colon: &[u8] = b": ";
    faults.put_all(&[
        record,
        &digits[..end],
        colon,
        name.as_bytes(),
        colon,
        more,
        END,
    ])
}

/// Writes the line on a line that a recorder printed.
fn tell_line<F: Write>(faults: &mut Output<F>, fault: LineFault) -> Result<(), WriteFault>
    ensures { PrintedLine fault (λ text. Writes text (stream_of F.contents faults.old) (stream_of F.contents faults.new) result) }
{
    match fault.why {
        LineReason::TooLong => tell_line_name(faults, fault.at, TOO_LONG),
        _ => tell_told(faults, fault.told()),
    }
}

/// Writes the line of what is refused at a line of the input.
fn tell_line_name<F: Write>(faults: &mut Output<F>, at: u64, name: &str) -> Result<(), WriteFault>
    ensures { Writes (at_line at name.now) (stream_of F.contents faults.old) (stream_of F.contents faults.new) result }
{
    let mut digits = [0; MAX_DIGITS];
    let end = put_number(at, &mut digits, 0);
    let line: &[u8] = b"blk: line ";
    let colon: &[u8] = b": ";
    faults.put_all(&[line, &digits[..end], colon, name.as_bytes(), END])
}

/// Writes the line of a name with an id or a number.
fn tell_number<F: Write>(faults: &mut Output<F>, name: &str, number: u64) -> Result<(), WriteFault>
    ensures { Writes (numbered name.now (decimal number)) (stream_of F.contents faults.old) (stream_of F.contents faults.new) result }
{
    let mut digits = [0; MAX_DIGITS];
    let end = put_number(number, &mut digits, 0);
    let space: &[u8] = b" ";
    faults.put_all(&[START, name.as_bytes(), space, &digits[..end], END])
}

/// Writes the line of an option that takes a list of numbers up to the most.
fn tell_numbers<F: Write>(faults: &mut Output<F>, option: &str, most: u64) -> Result<(), WriteFault>
    ensures { OwnLine (λ text. Writes text (stream_of F.contents faults.old) (stream_of F.contents faults.new) result) }
{
    let mut count = [0; MAX_DIGITS];
    let count_end = put_number(MAX_LISTED as u64, &mut count, 0);
    let mut greatest = [0; MAX_DIGITS];
    let end = put_number(most, &mut greatest, 0);
    let dashes: &[u8] = b"--";
    let takes: &[u8] = b" takes 1 to ";
    let numbers: &[u8] = b" numbers of 0 to ";
    let rest: &[u8] = b" with commas between, each once";
    faults.put_all(&[
        START,
        dashes,
        option.as_bytes(),
        takes,
        &count[..count_end],
        numbers,
        &greatest[..end],
        rest,
        END,
    ])
}

/// Writes the line on a capture that is not imported: of too many requests, how many, and what to do.
fn tell_import<F: Write>(faults: &mut Output<F>, fault: ImportFault) -> Result<(), WriteFault>
    ensures { ImportLine fault (λ text. Writes text (stream_of F.contents faults.old) (stream_of F.contents faults.new) result) }
{
    match fault {
        ImportFault::TooMany(count) => tell_too_many(faults, fault.name(), count),
        ImportFault::Memory => tell_told(faults, fault.told()),
    }
}

/// Writes the line of a name of too many requests: how many, and what to do.
fn tell_too_many<F: Write>(faults: &mut Output<F>, name: &str, count: u64) -> Result<(), WriteFault>
    ensures { OwnLine (λ text. Writes text (stream_of F.contents faults.old) (stream_of F.contents faults.new) result) }
{
    let mut digits = [0; MAX_DIGITS];
    let end = put_number(count, &mut digits, 0);
    let colon: &[u8] = b": ";
    let rest: &[u8] =
        b" requests, and a schedule has at most 1000000: take a part by --first or --skip";
    faults.put_all(&[START, name.as_bytes(), colon, &digits[..end], rest, END])
}

/// What is said of a capture whose arrivals are no script: the name, and of some what to do.
fn arrivals_text(fault: ArrivalsFault) -> &'static str {
    match fault {
        ArrivalsFault::TooMany =>
            "TooMany: a script has at most 64 submitters, and more processes and processors queue bios, so take less of the capture",
        ArrivalsFault::TraceFull =>
            "TraceFull: a bio comes in after round 1000000, so take a longer --round",
        ArrivalsFault::TooLong =>
            "TooLong: a script has at most 999998 steps, so take a longer --round or less of the capture",
        _ => fault.name(),
    }
}

/// Writes the line on arrivals that are no script.
fn tell_arrivals<F: Write>(faults: &mut Output<F>, fault: ArrivalsFault) -> Result<(), WriteFault>
    ensures { ArrivalsLine fault (λ text. Writes text (stream_of F.contents faults.old) (stream_of F.contents faults.new) result) }
{
    match fault {
        ArrivalsFault::Memory => tell_told(faults, fault.told()),
        _ => tell_name(faults, arrivals_text(fault)),
    }
}

/// Writes the line on arguments that can't be done.
fn tell_words<F: Write>(faults: &mut Output<F>, refusal: Refusal) -> Result<(), WriteFault>
    ensures { OwnLine (λ text. Writes text (stream_of F.contents faults.old) (stream_of F.contents faults.new) result) }
{
    match refusal.text() {
        Complaint::Text(text) => tell_name(faults, text),
        Complaint::Numbers(option, most) => tell_numbers(faults, option, most),
    }
}

/// Writes the line of a name with a number that has a sign.
fn tell_signed<F: Write>(faults: &mut Output<F>, name: &str, number: i64) -> Result<(), WriteFault>
    ensures { Writes (signed_line name.now number) (stream_of F.contents faults.old) (stream_of F.contents faults.new) result }
{
    if number >= 0 {
        return tell_number(faults, name, number as u64);
    }
    let mut digits = [0; MAX_DIGITS];
    let end = put_number(number.unsigned_abs(), &mut digits, 0);
    let minus: &[u8] = b" -";
    faults.put_all(&[START, name.as_bytes(), minus, &digits[..end], END])
}

/// Writes the line of what is told of a fault.
fn tell_told<F: Write>(faults: &mut Output<F>, told: Told) -> Result<(), WriteFault>
    ensures { Writes (told_line told.name.now told.beside) (stream_of F.contents faults.old) (stream_of F.contents faults.new) result }
{
    match told.beside {
        Beside::Nothing | Beside::Words => tell_name(faults, told.name),
        Beside::Number(number) => tell_number(faults, told.name, number),
        Beside::Signed(number) => tell_signed(faults, told.name, number),
        Beside::Record(at) => tell_record(faults, at, told.name),
        Beside::Line(at) => tell_line_name(faults, at, told.name),
        Beside::Read => tell_name(faults, "read fault"),
        Beside::Write => tell_name(faults, "write fault"),
        Beside::Memory => tell_name(faults, "want of memory"),
    }
}
