//! How far a trial has come, as a line of a terminal.

use std::alloc::Global;
use std::io::Write;
use std::time::{Clock, Instant};

/// Something that follows how far a trial has come.
pub trait Progress {
    /// How many of all runs are done.
    fn done(&mut self, runs: usize, all: usize);

    /// No call of `done` comes after this one: all runs are done, the trial was refused, or what is answered is known. It may be called again.
    fn over(&mut self);
}

/// Shows nothing.
#[derive(Clone, Copy, Debug, PartialEq, Eq)]
pub struct Quiet;

impl Progress for Quiet {
    fn done(&mut self, _runs: usize, _all: usize) {}

    fn over(&mut self) {}
}

/// A carriage return, and the escape sequence that clears the line from there.
const CLEAR: &str = "\r\x1b[K";

/// A line of a terminal, rewritten in place: how many runs are done and how many seconds it took. It is gone when the trial is over.
#[derive(Drop)]
pub struct ProgressLine<C: Clock + Drop, W: Write + Drop> {
    clock: C,
    writer: W,
    /// When it was made, where the clock could be read and the writer is a terminal: else nothing is written.
    start: Option<Instant>,
    /// Whether it stands on the terminal.
    is_shown: bool,
    alloc: Global,
}

impl<C: Clock + Drop, W: Write + Drop> ProgressLine<C, W> {
    /// A line that tells the time from now on. Nothing is written to where it is no terminal.
    pub fn new(alloc: Global, clock: C, writer: W, is_terminal: bool) -> ProgressLine<C, W> {
        let start = if is_terminal {
            Instant::now(&clock).ok()
        } else {
            None
        };
        ProgressLine {
            clock,
            writer,
            start,
            is_shown: false,
            alloc,
        }
    }
}

impl<C: Clock + Drop, W: Write + Drop> Progress for ProgressLine<C, W> {
    fn done(&mut self, runs: usize, all: usize) {
        let Some(start) = self.start else {
            return;
        };
        let Ok(now) = Instant::now(&self.clock) else {
            return;
        };
        let seconds = now.duration_since(start).as_secs();
        let Ok(text) = format!(in self.alloc; "{CLEAR}{runs} of {all} runs, {seconds} s") else {
            return;
        };
        let _ = self.writer.write_all(text.as_bytes());
        self.is_shown = true;
    }

    fn over(&mut self) {
        if self.is_shown {
            let _ = self.writer.write_all(CLEAR.as_bytes());
            self.is_shown = false;
        }
    }
}
