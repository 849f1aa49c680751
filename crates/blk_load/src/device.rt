//! The device of a worker.

ghost use Rattle.std.specs.Prelude.{◌≡◌, None};
ghost use Rattle.blk_load.specs.Inside.Loads.{ran_after, runs_after};

use blk_layer::{Device, Ran};
use edd_commands::Command;
use std::thread::sleep;
use std::time::Duration;

/// A device that takes time for a command, and is busy at some runs.
#[derive(Drop)]
pub(crate) struct Disk {
    /// What it sleeps by.
    clock: HostRuntime,
    /// How many microseconds it takes for a command; where it is busy, it answers at once.
    service: u64,
    /// It is busy where this many runs were made since it last was, or since the first; never for None.
    busy: Option<u64>,
    /// How many runs were made since.
    runs: u64,
}

impl Disk {
    /// A device that takes `service` microseconds for a command, and is busy at every run whose number, counted from 1, `busy` divides.
    pub(crate) fn new(clock: HostRuntime, service: u64, busy: Option<u64>) -> Disk
        ensures service { result.service ≡ service }
        ensures busy { result.busy ≡ busy }
        ensures runs { result.runs ≡ 0 }
    {
        Disk {
            clock,
            service,
            busy,
            runs: 0,
        }
    }

    /// What it answers to its next run.
    fn next(&mut self) -> Ran
        ensures answer { result ≡ ran_after self.old.busy self.old.runs }
        ensures runs { self.new.runs ≡ runs_after self.old.busy self.old.runs }
        ensures busy { self.new.busy ≡ self.old.busy }
        ensures service { self.new.service ≡ self.old.service }
    {
        let Some(every) = self.busy else {
            return Ran::Done;
        };
        if self.runs < every.saturating_sub(1) {
            self.runs += 1;
            return Ran::Done;
        }
        self.runs = 0;
        Ran::Busy
    }
}

impl Device for Disk {
    fn run(&mut self, _command: &Command) -> Ran
        ensures answer { result ≡ ran_after self.old.busy self.old.runs }
        ensures runs { self.new.runs ≡ runs_after self.old.busy self.old.runs }
        ensures busy { self.new.busy ≡ self.old.busy }
        ensures service { self.new.service ≡ self.old.service }
    {
        let ran = self.next();
        if self.service > 0 && ran == Ran::Done {
            sleep(&self.clock, Duration::from_micros(self.service));
        }
        ran
    }
}
