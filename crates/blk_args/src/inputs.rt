//! What is asked of an input: of a script, of a trace, of a command list, of a certificate, of a schedule.

use crate::table::FiguresAsked;
use blk_schedulers::{ComparedScheds, Form, Sched};

/// A kind of text, as the subcommands take it.
#[derive(Clone, Copy, Debug, PartialEq, Eq)]
pub enum TextKind {
    /// A script.
    Script,
    /// A trace.
    Trace,
    /// A command list.
    Commands,
    /// A certificate, of how late commands have to be or of how many can be on time.
    Certificate,
    /// A schedule.
    Schedule,
    /// A capture.
    Capture,
}

/// A job over a text: it needs no more than the records that it reads. A row for each kind of text.
#[derive(Clone, Copy, Debug, PartialEq, Eq)]
pub enum TextJob {
    /// Run a script, and write what is asked of it.
    OfScript(Running),
    /// Write what is asked of a trace.
    OfTrace(TraceOutput),
    /// Write what is asked of a command list.
    OfList(Solving),
    /// Check a certificate, and write what it proves.
    Check(Form),
    /// Judge a schedule, as a whole or each of its late commands.
    Judge {
        /// Whether each late command is written instead.
        each: bool,
    },
    /// Draw a schedule.
    Draw,
}

/// What is asked of a script.
#[derive(Clone, Copy, Debug, PartialEq, Eq)]
pub enum Running {
    /// Its trace under a scheduler.
    One(Sched),
    /// The table of the reports under each of these schedulers, which run it in turn, in this form.
    Each(ComparedScheds, Form),
    /// The same: the pictures of its traces under them, as one.
    Drawn(ComparedScheds),
}

/// What is asked of a trace.
#[derive(Clone, Copy, Debug, PartialEq, Eq)]
pub enum TraceOutput {
    /// The trace itself, in the latest version.
    Whole,
    /// Its command list.
    Commands,
    /// Its picture.
    Picture,
    /// Figures of it, in this form.
    Figures(FiguresAsked, Form),
}

/// What is asked of a command list.
#[derive(Clone, Copy, Debug, PartialEq, Eq)]
pub enum Solving {
    /// How late the latest of its commands has to be, with the certificate.
    Least,
    /// How many of its commands can be on time, with the certificate.
    Most,
}

/// What is written of a load.
#[derive(Clone, Copy, Debug, PartialEq, Eq)]
pub enum ShownLoad {
    /// How many bios were accepted, served and left.
    Account(Form),
    /// The trace of what the layer did.
    Trace,
}
