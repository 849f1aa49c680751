//! The steps that a recorder printed, read line by line.

ghost use Rattle.std.specs.Prelude.{◌≡◌, ◌≤◌, [], IfOk, IfErr, OnOk, Ok, length};
ghost use Rattle.blk_capture.specs.Requests.{AreInOrder};
ghost use Rattle.blk_recorders.specs.Words.{word_texts};
ghost use Rattle.blk_recorders.specs.Lines.{lined};
ghost use Rattle.blk_recorders.specs.Steps.{none_yet, more, is_other, settle, is_unordered, take_words, take_line, take_step, sofar, at_hand, steps_read, line_next, IsCountedOn, ReadsText, RisesOn, HandsOn, HasCounts, AreByTime, AreOrdered, AreSteps, IsLineFault};
ghost use Rattle.blk_recorders.specs.Inside.Reading.{TakesBy, HaveSameCounts};

use crate::device::Device;
use crate::fault::{LineFault, LineReason};
use crate::layout::{Step, step_told};
use crate::lines::{Line, line_of};
use crate::recorder::Recorder;
use crate::words::{SplitLine, cut_line};
use blk_capture::Record;
use std::alloc::{AllocError, Global};

/// The most records of a capture that are kept at once.
pub const MAX_STEPS: u64 = 16_000_000;

/// What a recorder printed.
#[derive(Debug, Drop)]
pub struct Steps {
    /// The records, by rising time.
    pub records: Vec<Record>,
    /// The device that they are of, where the lines name one.
    pub device: Option<Device>,
    /// How many steps of other devices than the one that was asked for were left out.
    pub others: u64,
    /// How many lines are no steps: comments, notices, counts, events of another kind. Empty lines are none.
    pub remarks: u64,
    /// How many more say that events were lost.
    pub losses: u64,
}

/// Steps that are read text by text: those at hand, and what is known of all.
#[derive(Drop)]
pub struct StepReader {
    steps: Steps,
    /// How many records there were, with those that are no longer at hand.
    count: u64,
    /// The time of the last one.
    last: u64,
    /// The number of the next line.
    number: u64,
}

/// Whether a step is of another device than the one that is asked for; what names none is of any.
fn is_other(asked: Option<Device>, device: Option<Device>) -> bool
    ensures { result ≡ is_other asked device }
{
    match (asked, device) {
        (Some(asked), Some(device)) => !asked.is(device),
        (None, _) => false,
        (Some(_), None) => false,
    }
}

/// The device of the steps up to one; None where that is of another one than those before.
fn settle(old: Option<Device>, new: Option<Device>) -> Option<Option<Device>>
    ensures { result ≡ settle old new }
{
    match new {
        None => Some(old),
        Some(new) => match old {
            None => Some(Some(new)),
            Some(old) => { if old.is(new) { Some(Some(old)) } else { None } }
        },
    }
}

/// One more, of a count that stays at the greatest number.
fn more(count: u64) -> u64
    ensures { result ≡ more count }
{
    count.saturating_add(1)
}

impl Recorder {
    /// Whether its lines may stand in any order of their times: bpftrace has a buffer for each processor.
    pub fn is_unordered(self) -> bool
        ensures { result ≡ is_unordered self }
    {
        match self {
            Recorder::Blkparse | Recorder::Ftrace | Recorder::Perf => false,
            Recorder::Bpftrace => true,
        }
    }
}

impl StepReader {
    /// Nothing yet.
    pub fn new(alloc: Global) -> StepReader
        ensures none { sofar [] result ≡ none_yet }
        ensures first { line_next result ≡ 1 }
    {
        StepReader {
            steps: Steps {
                records: Vec::new(alloc),
                device: None,
                others: 0,
                remarks: 0,
                losses: 0,
            },
            count: 0,
            last: 0,
            number: 1,
        }
    }

    /// Takes a step in.
    fn take_step(
        &mut self,
        recorder: Recorder,
        asked: Option<Device>,
        most: u64,
        step: Step,
    ) -> Result<(), LineReason>
        ensures takes { TakesBy self.old self.new result (λ s. take_step most recorder asked s step) }
        ensures counted { IsCountedOn self.old self.new }
        ensures few { steps_read self.old ≤ most → steps_read self.new ≤ most }
        ensures number { line_next self.new ≡ line_next self.old }
    {
        if is_other(asked, step.device) {
            self.steps.others = more(self.steps.others);
            return Ok(());
        }
        let Some(device) = settle(self.steps.device, step.device) else {
            return Err(LineReason::Devices);
        };
        if !recorder.is_unordered() && step.told.time < self.last {
            return Err(LineReason::Order);
        }
        if self.count >= most {
            return Err(LineReason::TooLong);
        }
        if self.steps.records.push(step.told).is_err() {
            return Err(LineReason::Memory);
        }
        self.count += 1;
        self.steps.device = device;
        self.last = step.told.time;
        Ok(())
    }

    /// Takes in the line that was cut.
    fn take(
        &mut self,
        cuts: &mut SplitLine<'_>,
        recorder: Recorder,
        asked: Option<Device>,
        most: u64,
    ) -> Result<(), LineReason>
        ensures takes { TakesBy self.old self.new result (λ s. take_words most recorder asked s (word_texts cuts.old.words.items)) }
        ensures counted { IsCountedOn self.old self.new }
        ensures few { steps_read self.old ≤ most → steps_read self.new ≤ most }
        ensures number { line_next self.new ≡ line_next self.old }
    {
        if cuts.words.is_empty() {
            return Ok(());
        }
        match line_of(recorder, cuts.words.as_slice(), &mut cuts.fields) {
            Ok(line) => self.take_line(recorder, asked, most, line),
            Err(why) => Err(why),
        }
    }

    /// Takes in what a line is.
    fn take_line(
        &mut self,
        recorder: Recorder,
        asked: Option<Device>,
        most: u64,
        line: Line<&[u8]>,
    ) -> Result<(), LineReason>
        ensures takes { TakesBy self.old self.new result (λ s. take_line most recorder asked s (Ok (lined line.entry))) }
        ensures counted { IsCountedOn self.old self.new }
        ensures few { steps_read self.old ≤ most → steps_read self.new ≤ most }
        ensures number { line_next self.new ≡ line_next self.old }
    {
        match line {
            Line::Step(layout) => match step_told(&layout) {
                Ok(step) => self.take_step(recorder, asked, most, step),
                Err(why) => Err(why),
            },
            Line::Remark => {
                self.steps.remarks = more(self.steps.remarks);
                Ok(())
            }
            Line::Loss => {
                self.steps.losses = more(self.steps.losses);
                Ok(())
            }
        }
    }

    /// Takes in the lines of a text, at most so many records with those before: the text ends with a line's end, unless it is the last one.
    ///
    /// The fault is that of the first line that has one ([`read_lines`]).
    pub fn take_lines(
        &mut self,
        alloc: Global,
        recorder: Recorder,
        asked: Option<Device>,
        most: u64,
        text: &[u8],
    ) -> Result<(), LineFault>
        ensures reads { ReadsText most recorder asked text.now self.old self.new result }
        // their times don't fall, unless those of the recorder's lines may
        ensures rises { RisesOn recorder self.old self.new result }
        ensures counted { IsCountedOn self.old self.new }
        ensures few { steps_read self.old ≤ most → steps_read self.new ≤ most }
    {
        let mut cuts = SplitLine::new(alloc);
        let mut begin = 0;
        while begin < text.len() {
            let Ok(end) = cut_line(text, begin, &mut cuts.words) else {
                return Err(LineFault {
                    at: self.number,
                    why: LineReason::Memory,
                });
            };
            match self.take(&mut cuts, recorder, asked, most) {
                Ok(()) => {}
                Err(why) => {
                    return Err(LineFault {
                        at: self.number,
                        why,
                    });
                }
            }
            self.number = more(self.number);
            begin = end + 1;
        }
        Ok(())
    }

    /// The records at hand.
    pub fn records(&self) -> &[Record]
        ensures { result.now ≡ at_hand self.now }
    {
        self.steps.records.as_slice()
    }

    /// Lets the records at hand go.
    pub fn let_go(&mut self)
        ensures goes { HandsOn self.old self.new }
        ensures none { at_hand self.new ≡ [] }
        ensures number { line_next self.new ≡ line_next self.old }
    {
        self.steps.records.clear();
    }

    /// The steps, with the records at hand: those of a recorder whose lines may stand in any order by their times. Fails only when out of
    /// memory.
    pub fn steps(self, recorder: Recorder) -> Result<Steps, AllocError>
        ensures ordered { IfOk result (λ s. AreOrdered recorder (at_hand self) s.records.items) }
        ensures rest { IfOk result (HasCounts self) }
    {
        in_order(recorder, self.steps)
    }
}

/// Puts records in the order of their times; those of one time keep theirs.
fn order_by_time(records: &mut Vec<Record>) -> Result<(), AllocError>
    ensures { OnOk result (AreByTime records.old.items records.new.items) }
{
    records.sort_by_key(|record| record.time)?;
    Ok(())
}

/// Puts the records of a recorder whose lines may stand in any order by their times.
fn in_order(recorder: Recorder, steps: Steps) -> Result<Steps, AllocError>
    ensures ordered { IfOk result (λ s. AreOrdered recorder steps.records.items s.records.items) }
    ensures rest { IfOk result (HaveSameCounts steps) }
{
    let mut steps = steps;
    match recorder {
        Recorder::Blkparse | Recorder::Ftrace | Recorder::Perf => Ok(steps),
        Recorder::Bpftrace => {
            order_by_time(&mut steps.records)?;
            Ok(steps)
        }
    }
}

/// The steps that a recorder printed in a text: its lines end with a line feed, the last one perhaps without, and a carriage return
/// before it is a blank. A line without words is passed over. Of each other line [`crate::Recorder`] tells by its first words
/// whether it is a step; docs/CAPTURES.md has the forms. Where a device is asked for, steps of others are left out, and steps of which the line
/// names no device are not.
///
/// The fault is that of the first line that has one, and in it the first in the order of [`LineReason`]. [`LineReason::Memory`] may come in place of
/// any other.
pub fn read_lines(
    alloc: Global,
    recorder: Recorder,
    asked: Option<Device>,
    text: &[u8],
) -> Result<Steps, LineFault>
    ensures ok { IfOk result (AreSteps recorder asked text.now) }
    ensures in_order { IfOk result (λ s. AreInOrder s.records.items (length s.records.items)) }
    ensures err { IfErr result (IsLineFault recorder asked text.now) }
{
    let mut reading = StepReader::new(alloc);
    match reading.take_lines(alloc, recorder, asked, MAX_STEPS, text) {
        Ok(()) => {}
        Err(fault) => return Err(fault),
    }
    let number = reading.number;
    match reading.steps(recorder) {
        Ok(steps) => Ok(steps),
        Err(_) => Err(LineFault {
            at: number,
            why: LineReason::Memory,
        }),
    }
}
