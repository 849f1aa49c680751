//! The records of a reader, one at a time.

ghost use Rattle.std.specs.Prelude.{◌≡◌, ◌+◌, ◌-◌, ◌<◌, ◌≤◌, ◌^◌, true, false, IfOk, IfErr, IfSome, length, take};
ghost use Rattle.std.specs.Io.KnownBytes.{Consumes, IsAtEnd};
ghost use Rattle.csv.specs.Reading.{reader_source};
ghost use Rattle.csv.specs.Records.{fields_of};
ghost use Rattle.blk_records.specs.Sources.{Source, TakesRecord, input_of, left_of};
ghost use Rattle.blk_records.specs.Inside.Sources.{IsPlainReader, IsPlainInput, IsOpen};
ghost use Rattle.blk_records.specs.Watching.{left_in, failed_in, input_left, input_bytes, input_failed};
ghost use Rattle.blk_records.specs.Reads.{IsOutside};

use crate::fault::{TextFault, TextReason};
use crate::watched::{Holder, Watched};
use csv::{ByteRecord, ErrorKind, Reader, ReaderBuilder};
use std::alloc::Global;
use std::io::Read;
use std::marker::Model;
use std::mem::replace;

/// The records of a reader of bytes, as a CSV reader takes them: commas, quoted fields, line ends of any kind, empty
/// lines passed over, one byte order mark at the beginning taken off, no header row, and no trimming. They are numbered
/// from 1. A read that a signal interrupts is made again.
#[derive(Drop)]
pub struct Records<R: Read> {
    input: Input<R>,
    row: ByteRecord,
    at: u64,
    alloc: Global,
}

/// Where records come from.
#[derive(Drop)]
enum Input<R: Read> {
    /// A reader of bytes, of which no record was asked for yet.
    Bytes(Holder<R>),
    /// The CSV reader over it.
    Rows(Reader<Holder<R>>),
}

impl<R: Read> Model for Records<R> {
    ghost use Rattle.blk_records.specs.Sources.{Source};
    ghost use Rattle.blk_records.specs.Inside.Sources.{IsPlainInput};
    ghost use Rattle.blk_records.specs.Watching.{source_in};
    ghost use Rattle.csv.specs.Records.{fields_of};

    ghost Value = { Source };

    ghost view = { λ a. source_in R.remaining a.input (fields_of a.row) a.at };

    ghost invariant = { λ a. IsPlainInput a.input };
}

/// The CSV reader over this, of which nothing is read yet.
fn plain_over<R: Read>(alloc: Global, holder: Holder<R>) -> Reader<Holder<R>>
    ensures plain { IsPlainReader result }
    ensures left { left_of (left_in R.remaining) result ≡ input_of (left_in R.remaining holder) }
    ensures holder { reader_source result ≡ holder }
{
    ReaderBuilder::new()
        .has_headers(false)
        .flexible(true)
        .from_reader(alloc, holder)
}

/// The reader of bytes that an input has.
fn holder_of<R: Read>(input: Input<R>) -> Holder<R>
    ensures left { left_in R.remaining result ≡ input_bytes R.remaining input }
    ensures failed { failed_in result ≡ input_failed input }
{
    match input {
        Input::Bytes(holder) => holder,
        Input::Rows(rdr) => rdr.into_inner(),
    }
}

/// Makes the CSV reader where there is none: it is large, and who asks for bytes alone, or for nothing, needs none.
#[inline(always)]
fn open<R: Read>(alloc: Global, input: &mut Input<R>)
    requires { IsPlainInput input.old }
    ensures open { IsOpen input.new }
    ensures left { input_left R.remaining input.new ≡ input_left R.remaining input.old }
    ensures bytes { input_bytes R.remaining input.new ≡ input_bytes R.remaining input.old }
    ensures failed { input_failed input.new ≡ input_failed input.old }
{
    if let Input::Bytes(holder) = input {
        let held = replace(holder, Holder::empty());
        match replace(input, Input::Rows(plain_over(alloc, held))) {
            Input::Bytes(holder) => holder.over(),
            Input::Rows(_) => unreachable!(),
        }
    }
}

impl<R: Read> Records<R> {
    /// The records of a reader, none of which is read yet. This takes no memory and asks the reader for nothing.
    pub fn new(alloc: Global, reader: R) -> Records<R>
        ensures left { result.left ≡ input_of (R.remaining reader) }
        ensures bytes { result.bytes ≡ R.remaining reader }
        ensures at { result.at ≡ 0 }
        ensures fresh { result.failed ≡ false }
    {
        Records {
            input: Input::Bytes(Holder::of(Watched::new(reader))),
            row: ByteRecord::new(alloc),
            at: 0,
            alloc,
        }
    }

    /// The fields of the record that was read last.
    pub fn row(&self) -> &ByteRecord
        ensures { fields_of result.now ≡ self.now.fields }
    {
        &self.row
    }

    /// The number of the record that was asked for last.
    pub fn at(&self) -> u64
        ensures { result ≡ self.now.at }
    {
        self.at
    }

    /// The fault of this kind at the record that was asked for last.
    pub fn fault(&self, why: TextReason) -> TextFault
        ensures at { result.at ≡ self.now.at }
        ensures why { result.why ≡ why }
    {
        TextFault { at: self.at, why }
    }

    /// Why the CSV reader stopped: its reader failed, or else memory ran out.
    fn outside(&self) -> TextReason
        ensures read { self.now.failed ≡ true → result ≡ TextReason.Read }
        ensures memory { self.now.failed ≡ false → result ≡ TextReason.Memory }
    {
        let failed = match &self.input {
            Input::Bytes(holder) => holder.has_failed(),
            Input::Rows(rdr) => rdr.get_ref().has_failed(),
        };
        if failed {
            TextReason::Read
        } else {
            TextReason::Memory
        }
    }

    /// Reads the next record, and says whether there was one.
    pub fn advance(&mut self) -> Result<bool, TextFault>
        requires { self.old.at < 2 ^ 64 - 1 }
        ensures takes { IfOk result (λ found. TakesRecord self.old.left self.new.left self.new.fields found) }
        ensures at { self.new.at ≡ self.old.at + 1 }
        ensures fault { IfErr result (λ f. (f.at ≡ self.new.at) × IsOutside self.new.failed f.why) }
        // a read that failed is reported as nothing else
        ensures told { IfErr result (λ f. self.new.failed ≡ true → f.why ≡ TextReason.Read) }
    {
        self.at += 1;
        open(self.alloc, &mut self.input);
        let Input::Rows(rdr) = &mut self.input else {
            unreachable!()
        };
        match rdr.read_byte_record(&mut self.row) {
            Ok(found) => Ok(found),
            Err(e) => match e.kind() {
                ErrorKind::Io(_) | ErrorKind::OutOfMemory => Err(self.fault(self.outside())),
                // records may be of any width, and their bytes need be no text
                _ => unreachable!(),
            },
        }
    }
}

impl<R: Read + Drop> Records<R> {
    /// All the bytes that the reader has yet to give: before any record was asked for, the whole input. No record is left then.
    pub fn bytes(&mut self, alloc: Global) -> Result<Vec<u8>, TextReason>
        ensures bytes { IfOk result (λ given. IfSome self.old.bytes (λ known. given.items ≡ known)) }
        ensures fault { IfErr result (IsOutside self.new.failed) }
        // a read that failed is reported as nothing else
        ensures told { IfErr result (λ why. self.new.failed ≡ true → why ≡ TextReason.Read) }
    {
        let mut holder = holder_of(replace(&mut self.input, Input::Bytes(Holder::empty())));
        let mut bytes = Vec::new(alloc);
        let read = holder.read_to_end(&mut bytes);
        self.input = Input::Bytes(holder);
        match read {
            Ok(_) => Ok(bytes),
            Err(_) => Err(self.outside()),
        }
    }

    /// Reads some of the bytes that the reader has yet to give into a buffer, before any record was asked for, and answers how many: none only
    /// at their end, or where the buffer has no room. The records that are left are those of the other bytes.
    pub fn read_bytes(&mut self, buf: &mut [u8]) -> Result<usize, TextReason>
        ensures bound { IfOk result (λ n. n ≤ length buf.new) }
        ensures room { length buf.new ≡ length buf.old }
        ensures bytes { IfOk result (λ n. Consumes self.old.bytes self.new.bytes (take n buf.new)) }
        ensures end { IfOk result (λ n. n ≡ 0 → 0 < length buf.new → IsAtEnd self.new.bytes) }
        ensures fault { IfErr result (IsOutside self.new.failed) }
        // a read that failed is reported as nothing else
        ensures told { IfErr result (λ why. self.new.failed ≡ true → why ≡ TextReason.Read) }
    {
        let mut holder = holder_of(replace(&mut self.input, Input::Bytes(Holder::empty())));
        let read = holder.read(buf);
        self.input = Input::Bytes(holder);
        let Ok(count) = read else {
            return Err(self.outside());
        };
        Ok(count)
    }
}
