//! Records of a capture: one step each that a block layer took, as blktrace and the tracepoints of `block` tell them.

ghost use Rattle.std.specs.Prelude.{◌≡◌, ◌≤◌, ◌<◌, ◌-◌, None, Some, IfErr, IfOk};
ghost use Rattle.blk_capture.specs.Passing.{place_of, kind_place, passed_action, passed_op, passed_over, dir_of_op, op_by, action_by, letter_action};
ghost use Rattle.blk_capture.specs.Ranges.{writes, range_of, grown};

use blk_bio::{Dir, MAX_END, Side};

/// What a record says was done, by blktrace's letters.
#[derive(Clone, Copy, Debug, PartialEq, Eq)]
pub enum Action {
    /// Q: a bio was queued.
    Queue,
    /// G: a request was opened for a bio.
    Get,
    /// M: a bio, or a whole request, was merged at the back of a request.
    BackMerge,
    /// F: a bio was merged at the front of a request.
    FrontMerge,
    /// I: a request was inserted into the scheduler.
    Insert,
    /// D: a request went out to the device.
    Issue,
    /// C: a request, or its first part, was completed.
    Complete,
    /// R: a request that had gone out was requeued.
    Requeue,
    /// X: a bio was cut in two.
    Split,
    /// P: a process began to plug.
    Plug,
    /// U: a process's plug was flushed.
    Unplug,
    /// Any other, as A of a remap.
    Other,
}

impl Action {
    /// What the letters of blktrace's action say: one of those above by itself, and any other text is another action.
    pub fn of_letters(letters: &[u8]) -> Action
        ensures { result ≡ action_by letters.now }
    {
        match letters {
            [letter] => letter_action(*letter),
            _ => Action::Other,
        }
    }

    /// Its number, from 0 on, in the order in which they stand here.
    pub fn place(self) -> u64
        ensures { result ≡ place_of self }
    {
        match self {
            Action::Queue => 0,
            Action::Get => 1,
            Action::BackMerge => 2,
            Action::FrontMerge => 3,
            Action::Insert => 4,
            Action::Issue => 5,
            Action::Complete => 6,
            Action::Requeue => 7,
            Action::Split => 8,
            Action::Plug => 9,
            Action::Unplug => 10,
            Action::Other => 11,
        }
    }

    /// Why it is passed over, if it always is.
    fn passed(self) -> Option<PassReason>
        ensures { result ≡ passed_action self }
    {
        match self {
            Action::Plug => Some(PassReason::Plug),
            Action::Unplug => Some(PassReason::Unplug),
            Action::Other => Some(PassReason::Action),
            Action::Queue
            | Action::Get
            | Action::BackMerge
            | Action::FrontMerge
            | Action::Insert
            | Action::Issue
            | Action::Complete
            | Action::Requeue
            | Action::Split => None,
        }
    }
}

/// The action of a letter.
fn letter_action(letter: u8) -> Action
    ensures { result ≡ letter_action letter }
{
    match letter {
        b'Q' => Action::Queue,
        b'G' => Action::Get,
        b'M' => Action::BackMerge,
        b'F' => Action::FrontMerge,
        b'I' => Action::Insert,
        b'D' => Action::Issue,
        b'C' => Action::Complete,
        b'R' => Action::Requeue,
        b'X' => Action::Split,
        b'P' => Action::Plug,
        b'U' => Action::Unplug,
        _ => Action::Other,
    }
}

/// What is done to the sectors of a record, after `REQ_OP_READ` and the others of Linux.
#[derive(Clone, Copy, Debug, PartialEq, Eq)]
pub enum Op {
    /// They are read.
    Read,
    /// They are written.
    Write,
    /// They are given up.
    Discard,
    /// They are erased.
    Erase,
    /// The device's cache is flushed, without data.
    Flush,
    /// None of these, as in records of plugs.
    Nothing,
}

impl Op {
    /// What the letters of blktrace's rwbs say: a W anywhere is a write, else an R a read; else an E an erase, a D a discard and an F a flush
    /// without data.
    pub fn of_letters(rwbs: &[u8]) -> Op
        ensures { result ≡ op_by rwbs.now }
    {
        if rwbs.contains(&b'W') {
            Op::Write
        } else if rwbs.contains(&b'R') {
            Op::Read
        } else if rwbs.contains(&b'E') {
            Op::Erase
        } else if rwbs.contains(&b'D') {
            Op::Discard
        } else if rwbs.contains(&b'F') {
            Op::Flush
        } else {
            Op::Nothing
        }
    }

    /// Which way its data goes, if it moves any.
    pub fn dir(self) -> Option<Dir>
        ensures { result ≡ dir_of_op self }
    {
        match self {
            Op::Read => Some(Dir::Read),
            Op::Write => Some(Dir::Write),
            Op::Discard | Op::Erase | Op::Flush | Op::Nothing => None,
        }
    }

    /// Why it is passed over, if it moves no data.
    fn passed(self) -> Option<PassReason>
        ensures { result ≡ passed_op self }
    {
        match self {
            Op::Read | Op::Write => None,
            Op::Discard => Some(PassReason::Discard),
            Op::Erase => Some(PassReason::Erase),
            Op::Flush => Some(PassReason::Flush),
            Op::Nothing => Some(PassReason::Nothing),
        }
    }
}

/// Why a record is passed over, by the first reason that it has.
#[derive(Clone, Copy, Debug, PartialEq, Eq)]
pub enum PassReason {
    /// A process began to plug.
    Plug,
    /// A process's plug was flushed.
    Unplug,
    /// Its action says nothing of a request.
    Action,
    /// It is of a discard.
    Discard,
    /// It is of an erase.
    Erase,
    /// It is of a flush without data.
    Flush,
    /// It is of something else that moves no data.
    Nothing,
    /// It has no sectors.
    Empty,
    /// It ends past [`MAX_END`].
    PastEnd,
}

impl PassReason {
    /// Its number, from 0 on, in the order in which they stand here.
    pub fn place(self) -> u64
        ensures { result ≡ kind_place self }
    {
        match self {
            PassReason::Plug => 0,
            PassReason::Unplug => 1,
            PassReason::Action => 2,
            PassReason::Discard => 3,
            PassReason::Erase => 4,
            PassReason::Flush => 5,
            PassReason::Nothing => 6,
            PassReason::Empty => 7,
            PassReason::PastEnd => 8,
        }
    }
}

/// The last time, in nanoseconds from any beginning: what would be later counts as it.
pub const MAX_TIME: u64 = u64::MAX;

/// A record of a capture.
#[derive(Clone, Copy, Debug, PartialEq, Eq)]
pub struct Record {
    /// When, in nanoseconds from any beginning.
    pub time: u64,
    /// The processor.
    pub cpu: u64,
    /// What was done.
    pub action: Action,
    /// The process that was running, which for an M, an F and a G is the one that submitted the bio.
    pub pid: u64,
    /// What is done to the sectors.
    pub op: Op,
    /// The first sector.
    pub first: u64,
    /// How many sectors; 0 where there are none.
    pub sectors: u64,
}

/// A direction, and a range of sectors.
#[derive(Clone, Copy, Debug)]
pub(crate) struct Range {
    /// Which way the data goes.
    pub(crate) dir: Dir,
    /// The first sector.
    pub(crate) first: u64,
    /// The sector after the last one.
    pub(crate) end: u64,
}

impl Range {
    /// This range grown at a side by another, which lies beside it there.
    pub(crate) fn grown(self, by: Range, side: Side) -> Range
        ensures { result ≡ grown side by self }
    {
        match side {
            Side::Back => Range {
                end: by.end,
                ..self
            },
            Side::Front => Range {
                first: by.first,
                ..self
            },
        }
    }

    /// The range of a record, unless it is passed over.
    pub(crate) fn of(record: &Record) -> Result<Range, PassReason>
        ensures ok { IfOk result (λ _. passed_over record.now ≡ None) }
        ensures value { IfOk result (λ range. range ≡ range_of record.now) }
        ensures some { IfOk result (λ range. range.first < range.end) }
        ensures low { IfOk result (λ range. range.end ≤ MAX_END) }
        ensures err { IfErr result (λ kind. passed_over record.now ≡ Some kind) }
    {
        if let Some(kind) = record.action.passed() {
            return Err(kind);
        }
        if let Some(kind) = record.op.passed() {
            return Err(kind);
        }
        if record.sectors == 0 {
            return Err(PassReason::Empty);
        }
        if record.first > MAX_END || record.sectors > MAX_END - record.first {
            return Err(PassReason::PastEnd);
        }
        let dir = match record.op {
            Op::Write => Dir::Write,
            _ => Dir::Read,
        };
        Ok(Range {
            dir,
            first: record.first,
            end: record.first + record.sectors,
        })
    }

    /// How many sectors it has.
    pub(crate) fn sectors(&self) -> u64
        ensures { result ≡ self.now.end - self.now.first }
    {
        self.end.saturating_sub(self.first)
    }

    /// Whether it is written.
    pub(crate) fn is_write(&self) -> bool
        ensures { result ≡ writes self.now.dir }
    {
        match self.dir {
            Dir::Read => false,
            Dir::Write => true,
        }
    }
}
