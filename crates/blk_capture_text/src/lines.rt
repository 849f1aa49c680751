//! Lines that a recorder prints, taken in part by part: their records are put in numbers as they come.

ghost use Rattle.std.specs.Prelude.{◌≡◌, ◌≤◌, ◌+◌, ◌++◌, [], Option, Some, IfOk, IfErr, OnOk, length, take};
ghost use Rattle.blk_capture.specs.declared.summary.TheConstants.{MAX_STREAMED};
ghost use Rattle.blk_recorders.specs.Steps.{EndsLine};
ghost use Rattle.blk_capture_text.specs.Source.{printed_of};
ghost use Rattle.blk_capture_text.specs.Streaming.{IsAtWork, stream_count, stream_options};
ghost use Rattle.blk_capture_text.specs.Streams.{IsSummable};
ghost use Rattle.blk_capture_text.specs.Inside.Along.{IsAlong, IsAlongSome, IsReadSome, IsReadFaultIf, PassesOn, ReadsPendingOf, TakesPartOf, EndsStreamedOf, GoBehind, StreamsBehind};

use crate::source::{Printed, UnreadCapture};
use crate::streaming::Streamed;
use blk_capture::{MAX_STREAMED, Options};
use blk_recorders::{Device, LineFault, LineReason, Recorder, StepReader, Steps};
use std::alloc::{AllocError, Global};

/// A capture that was read, of whose records none is kept.
#[derive(Drop)]
pub struct StreamedCapture {
    /// What is known of its records.
    pub streamed: Streamed,
    /// What else its lines told, where a recorder printed them.
    pub printed: Option<Printed>,
}

/// Lines that are taken in part by part, at most [`MAX_STREAMED`] records. Those of a recorder whose lines may stand in any order are kept until
/// all are there.
#[derive(Drop)]
pub(crate) struct LineStream {
    reader: StepReader,
    streamed: Streamed,
    /// What was taken in of a line whose end was not.
    pending: Vec<u8>,
}

/// Where the last line of a part ends, behind its line feed; 0 where no line ends in it.
fn end_of_lines(part: &[u8]) -> usize
    ensures within { result ≤ length part.now }
    ensures ends { EndsLine (take result part.now) }
{
    for place in (0..part.len()).rev() {
        if part[place] == b'\n' {
            return place + 1;
        }
    }
    0
}

/// Why a line isn't read.
fn unread_line(fault: LineFault) -> UnreadCapture
    ensures { IsReadFaultIf (UnreadCapture.Line fault) result }
{
    match fault.why {
        LineReason::Memory => UnreadCapture::Memory,
        _ => UnreadCapture::Line(fault),
    }
}

impl LineStream {
    /// Nothing was taken in. Fails only when out of memory.
    pub(crate) fn new(alloc: Global, options: &Options) -> Result<LineStream, AllocError>
        ensures { (f : Recorder) (d : Option Device) → IfOk result (IsAlong options.now f d []) }
    {
        Ok(LineStream {
            reader: StepReader::new(alloc),
            streamed: Streamed::new(alloc, options)?,
            pending: Vec::new(alloc),
        })
    }

    /// Streams the records at hand, where their lines are in order. Fails only when out of memory.
    fn pass_on(&mut self, recorder: Recorder) -> Result<(), AllocError>
        requires { IsReadSome recorder self.old }
        ensures { PassesOn recorder self.old self.new result }
    {
        if recorder.is_unordered() {
            return Ok(());
        }
        self.streamed.take_all(self.reader.records())?;
        self.reader.let_go();
        Ok(())
    }

    /// Reads what is pending as lines.
    fn read_pending(
        &mut self,
        alloc: Global,
        recorder: Recorder,
        device: Option<Device>,
    ) -> Result<(), UnreadCapture>
        requires { IsAlongSome recorder device self.old }
        ensures { ReadsPendingOf recorder device self.old self.new result }
    {
        let text = self.pending.as_slice();
        let most = MAX_STREAMED as u64;
        match self.reader.take_lines(alloc, recorder, device, most, text) {
            Ok(()) => {}
            Err(fault) => return Err(unread_line(fault)),
        }
        match self.pass_on(recorder) {
            Ok(()) => Ok(()),
            Err(_) => Err(UnreadCapture::Memory),
        }
    }

    /// Adds a part to what is pending.
    fn add(&mut self, part: &[u8]) -> Result<(), UnreadCapture>
        ensures pending { OnOk result (self.new.pending.items ≡ self.old.pending.items ++ part.now) }
        ensures reader { self.new.reader ≡ self.old.reader }
        ensures streamed { self.new.streamed ≡ self.old.streamed }
        ensures memory { IfErr result (λ x. x ≡ UnreadCapture.Memory) }
    {
        match self.pending.extend_from_slice(part) {
            Ok(()) => Ok(()),
            Err(_) => Err(UnreadCapture::Memory),
        }
    }

    /// Takes in a part more: its lines are read, but for the last one where that isn't whole yet.
    pub(crate) fn take(
        &mut self,
        alloc: Global,
        recorder: Recorder,
        device: Option<Device>,
        part: &[u8],
    ) -> Result<(), UnreadCapture>
        requires { IsAlongSome recorder device self.old }
        ensures { TakesPartOf recorder device part.now self.old self.new result }
    {
        let end = end_of_lines(part);
        if end == 0 {
            return self.add(part);
        }
        self.add(&part[..end])?;
        match self.read_pending(alloc, recorder, device) {
            Ok(()) => {}
            Err(fault) => return Err(fault),
        }
        self.pending.clear();
        self.add(&part[end..])
    }

    /// The capture that was taken in. Its last line may have no line feed.
    pub(crate) fn finish(
        self,
        alloc: Global,
        recorder: Recorder,
        device: Option<Device>,
    ) -> Result<StreamedCapture, UnreadCapture>
        requires { IsAlongSome recorder device self }
        ensures { EndsStreamedOf recorder device self result }
    {
        let mut all = self;
        match all.read_pending(alloc, recorder, device) {
            Ok(()) => {}
            Err(fault) => return Err(fault),
        }
        let LineStream {
            reader,
            streamed,
            ..
        } = all;
        let Ok(steps) = reader.steps(recorder) else {
            return Err(UnreadCapture::Memory);
        };
        streamed_steps(recorder, streamed, &steps)
    }
}

/// The capture of steps, with those that were streamed before.
fn streamed_steps(
    recorder: Recorder,
    streamed: Streamed,
    steps: &Steps,
) -> Result<StreamedCapture, UnreadCapture>
    requires work { IsAtWork streamed }
    requires behind { GoBehind steps.now.records.items streamed }
    requires few { stream_count streamed + length steps.now.records.items ≤ MAX_STREAMED }
    ensures ready { IfOk result (IsSummable (stream_options streamed)) }
    ensures streamed { IfOk result (StreamsBehind steps.now.records.items streamed) }
    ensures printed { IfOk result (λ c. c.printed ≡ Some (printed_of recorder steps.now)) }
    ensures err { IfErr result (λ x. x ≡ UnreadCapture.Memory) }
{
    let mut streamed = streamed;
    if streamed.take_all(steps.records.as_slice()).is_err() {
        return Err(UnreadCapture::Memory);
    }
    Ok(StreamedCapture {
        streamed,
        printed: Some(Printed {
            recorder,
            device: steps.device,
            others: steps.others,
            remarks: steps.remarks,
            losses: steps.losses,
        }),
    })
}
