//! A capture of any form that is put in numbers as its bytes come.

ghost use Rattle.std.specs.Prelude.{◌≡◌, ◌<◌, IfOk, IfErr, length};
ghost use Rattle.blk_records.specs.Reads.{IsOutside};
ghost use Rattle.blk_capture_text.specs.Source.{IsRecordsFault};
ghost use Rattle.blk_capture_text.specs.Streams.{IsStreamedFrom, IsStreamFault};
ghost use Rattle.blk_capture_text.specs.Inside.Along.{count_feeds, IsAlongSome, IsFirstPart, EndsRestOf, EndsLinesOf, ReadsRest, AreRecordsStreamed};

use crate::lines::{LineStream, StreamedCapture};
use crate::source::{FIRST_BYTES, UnreadCapture, form_taken, read_records};
use crate::streaming::Streamed;
use blk_capture::Options;
use blk_recorders::{CaptureForm, Device, FIRST_LINES, Recorder};
use blk_records::{Records, TextReason};
use std::alloc::Global;
use std::io::Read;
use thiserror::Error;

/// How many bytes are asked for at once.
const PART: usize = 1 << 20;

/// Why a capture isn't put in numbers.
#[derive(Debug, Drop, Error)]
#[error("{}", self.fault)]
pub struct Unstreamed {
    /// Why it isn't read.
    pub fault: UnreadCapture,
    /// Its bytes, where they were all read as one of the form `blk-capture`; else none.
    pub bytes: Vec<u8>,
}

/// The first bytes of an input: so many that they tell the form of the whole, or all.
#[derive(Drop)]
struct FirstPart {
    bytes: Vec<u8>,
    is_whole: bool,
}

/// How many lines end in a part.
fn count_feeds(part: &[u8]) -> usize
    ensures { result ≡ count_feeds part.now }
{
    part.iter().filter(|byte| **byte == b'\n').count()
}

/// Reads the first bytes of an input, part by part.
fn read_first<R: Read + Drop>(
    alloc: Global,
    records: &mut Records<R>,
    part: &mut [u8],
) -> Result<FirstPart, TextReason>
    requires room { 0 < length part.old }
    ensures ok { IfOk result (IsFirstPart records.old.bytes records.new.bytes) }
    ensures err { IfErr result (IsOutside records.new.failed) }
    ensures room { length part.new ≡ length part.old }
{
    let mut bytes = Vec::new(alloc);
    let mut feeds = 0;
    for _ in 0..u64::MAX {
        if feeds >= FIRST_LINES && bytes.len() >= FIRST_BYTES {
            return Ok(FirstPart {
                bytes,
                is_whole: false,
            });
        }
        let count = match records.read_bytes(part) {
            Ok(count) => count,
            Err(why) => return Err(why),
        };
        if count == 0 {
            return Ok(FirstPart {
                bytes,
                is_whole: true,
            });
        }
        feeds += count_feeds(&part[..count]);
        if bytes.extend_from_slice(&part[..count]).is_err() {
            return Err(TextReason::Memory);
        }
    }
    Err(TextReason::Memory)
}

/// Takes in all that an input has left, part by part.
fn take_rest<R: Read + Drop>(
    alloc: Global,
    recorder: Recorder,
    device: Option<Device>,
    records: &mut Records<R>,
    part: &mut [u8],
    stream: &mut LineStream,
) -> Result<(), UnreadCapture>
    requires room { 0 < length part.old }
    requires along { IsAlongSome recorder device stream.old }
    ensures { EndsRestOf recorder device records.old.bytes records.new.failed stream.old stream.new result }
{
    for _ in 0..u64::MAX {
        let count = match records.read_bytes(part) {
            Ok(count) => count,
            Err(why) => return Err(UnreadCapture::Text(records.fault(why))),
        };
        if count == 0 {
            return Ok(());
        }
        match stream.take(alloc, recorder, device, &part[..count]) {
            Ok(()) => {}
            Err(fault) => return Err(fault),
        }
    }
    Err(UnreadCapture::Memory)
}

/// A capture that a recorder printed, of which the first bytes were read.
fn stream_lines<R: Read + Drop>(
    alloc: Global,
    recorder: Recorder,
    device: Option<Device>,
    options: &Options,
    records: &mut Records<R>,
    first: &FirstPart,
    part: &mut [u8],
) -> Result<StreamedCapture, UnreadCapture>
    requires room { 0 < length part.old }
    ensures { EndsLinesOf options.now recorder device first.now records.old.bytes records.new.failed result }
{
    let Ok(mut stream) = LineStream::new(alloc, options) else {
        return Err(UnreadCapture::Memory);
    };
    match stream.take(alloc, recorder, device, first.bytes.as_slice()) {
        Ok(()) => {}
        Err(fault) => return Err(fault),
    }
    if first.is_whole {
        return stream.finish(alloc, recorder, device);
    }
    match take_rest(alloc, recorder, device, records, part, &mut stream) {
        Ok(()) => stream.finish(alloc, recorder, device),
        Err(fault) => Err(fault),
    }
}

/// Reads all that an input has left behind its first bytes.
fn read_rest<R: Read + Drop>(
    alloc: Global,
    records: &mut Records<R>,
    first: FirstPart,
) -> Result<Vec<u8>, TextReason>
    ensures ok { IfOk result (λ v. ReadsRest first records.old.bytes v.items) }
    ensures err { IfErr result (IsOutside records.new.failed) }
{
    let FirstPart { bytes, is_whole } = first;
    if is_whole {
        return Ok(bytes);
    }
    let rest = match records.bytes(alloc) {
        Ok(rest) => rest,
        Err(why) => return Err(why),
    };
    let mut bytes = bytes;
    match bytes.extend_from_slice(rest.as_slice()) {
        Ok(()) => Ok(bytes),
        Err(_) => Err(TextReason::Memory),
    }
}

/// A capture of the form `blk-capture`, all of whose bytes are at hand.
fn stream_records(
    alloc: Global,
    options: &Options,
    bytes: &[u8],
) -> Result<StreamedCapture, UnreadCapture>
    ensures ok { IfOk result (AreRecordsStreamed options.now bytes.now) }
    ensures err { IfErr result (IsRecordsFault bytes.now) }
{
    let read = match read_records(alloc, bytes) {
        Ok(read) => read,
        Err(fault) => return Err(fault),
    };
    let Ok(mut streamed) = Streamed::new(alloc, options) else {
        return Err(UnreadCapture::Memory);
    };
    match streamed.take_all(read.records.as_slice()) {
        Ok(()) => Ok(StreamedCapture {
            streamed,
            printed: None,
        }),
        Err(_) => Err(UnreadCapture::Memory),
    }
}

/// A capture of the form that is asked for, or else of that which its first lines tell. All bytes of one of the form `blk-capture` are left in
/// `kept`.
fn stream_input<R: Read + Drop>(
    alloc: Global,
    form: Option<CaptureForm>,
    device: Option<Device>,
    options: &Options,
    records: &mut Records<R>,
    kept: &mut Vec<u8>,
) -> Result<StreamedCapture, UnreadCapture>
    ensures ok { IfOk result (IsStreamedFrom options.now form device records.old.bytes) }
    ensures err { IfErr result (IsStreamFault form device records.old.bytes records.new.failed) }
{
    let Ok(mut part) = vec![in alloc; 0; PART] else {
        return Err(UnreadCapture::Memory);
    };
    let first = match read_first(alloc, records, part.as_mut_slice()) {
        Ok(first) => first,
        Err(why) => return Err(UnreadCapture::Text(records.fault(why))),
    };
    let Ok(found) = form_taken(alloc, form, first.bytes.as_slice()) else {
        return Err(UnreadCapture::Memory);
    };
    match found {
        CaptureForm::Records => match read_rest(alloc, records, first) {
            Ok(bytes) => {
                *kept = bytes;
                stream_records(alloc, options, kept.as_slice())
            }
            Err(why) => Err(UnreadCapture::Text(records.fault(why))),
        },
        CaptureForm::Printed(recorder) => stream_lines(
            alloc,
            recorder,
            device,
            options,
            records,
            &first,
            part.as_mut_slice(),
        ),
    }
}

/// A capture of the form that is asked for, or else of that which its first lines tell ([`crate::form_taken`]), as its bytes come: of what a recorder
/// printed neither bytes nor records are kept, but for bpftrace's records, which are put in order. At most [`blk_capture::MAX_STREAMED`] records, and of the
/// form `blk-capture`, which is read whole, [`crate::MAX_RECORDS`].
///
/// The fault is the first one, as [`crate::read_source`] has it. Out of memory may come in place of any other.
pub fn stream_source<R: Read + Drop>(
    alloc: Global,
    form: Option<CaptureForm>,
    device: Option<Device>,
    options: &Options,
    records: &mut Records<R>,
) -> Result<StreamedCapture, Unstreamed>
    ensures ok { IfOk result (IsStreamedFrom options.now form device records.old.bytes) }
    ensures err { IfErr result (λ x. IsStreamFault form device records.old.bytes records.new.failed x.fault) }
{
    let mut bytes = Vec::new(alloc);
    match stream_input(alloc, form, device, options, records, &mut bytes) {
        Ok(capture) => Ok(capture),
        Err(fault) => Err(Unstreamed { fault, bytes }),
    }
}
