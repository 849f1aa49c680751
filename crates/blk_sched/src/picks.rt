//! How many picks of each direction are open (handed out and not yet reported done), and how many are requeued, since
//! the device was busy.

ghost use Rattle.std.specs.Prelude.{◌≡◌, ◌<◌, ◌+◌};
ghost use Rattle.blk_sched.specs.Meaning.{no_picks, open_of, requeued_of, opened, after_requeue};

use blk_bio::Dir;
use edd_commands::{MAX_COMMANDS, MAX_DEPTH};
use std::marker::Model;

/// The most picks that may be open, as many as there are tags.
pub const MAX_OPEN: u64 = MAX_DEPTH;

/// The most picks that may be requeued, as many as there are commands.
pub const MAX_REQUEUED: u64 = MAX_COMMANDS;

/// The counts of open picks and of requeued ones, which every scheduler keeps alike.
#[derive(Drop)]
pub struct OpenPicks {
    reads: u64,
    writes: u64,
    requeued_reads: u64,
    requeued_writes: u64,
}

impl Model for OpenPicks {
    ghost use Rattle.blk_sched.specs.Meaning.{OpenPicks as Counts, picks_of};

    ghost Value = { Counts };

    ghost view = { λ p. picks_of p.reads p.writes p.requeued_reads p.requeued_writes };
}

impl OpenPicks {
    /// No pick is open or requeued.
    pub fn none() -> OpenPicks
        ensures { result ≡ no_picks }
    {
        OpenPicks {
            reads: 0,
            writes: 0,
            requeued_reads: 0,
            requeued_writes: 0,
        }
    }

    /// Opens a pick of a direction. Fewer than `MAX_OPEN` may be open.
    pub fn open(&mut self, dir: Dir)
        requires { self.old.reads + self.old.writes < MAX_OPEN }
        ensures { self.new ≡ opened dir self.old }
    {
        match dir {
            Dir::Read => self.reads += 1,
            Dir::Write => self.writes += 1,
        }
    }

    /// Closes a pick of a direction, of which one is open.
    pub fn close(&mut self, dir: Dir)
        requires { 0 < open_of dir self.old }
        ensures { self.old ≡ opened dir self.new }
    {
        match dir {
            Dir::Read => self.reads -= 1,
            Dir::Write => self.writes -= 1,
        }
    }

    /// Requeues a pick of a direction, of which one is open. Fewer than `MAX_REQUEUED` may be requeued.
    pub fn requeue(&mut self, dir: Dir)
        requires is_open { 0 < open_of dir self.old }
        requires few { self.old.requeued_reads + self.old.requeued_writes < MAX_REQUEUED }
        ensures { opened dir self.new ≡ after_requeue dir self.old }
    {
        match dir {
            Dir::Read => {
                self.reads -= 1;
                self.requeued_reads += 1;
            }
            Dir::Write => {
                self.writes -= 1;
                self.requeued_writes += 1;
            }
        }
    }

    /// Opens a pick of a direction again, of which one is requeued. Fewer than `MAX_OPEN` may be open.
    pub fn reopen(&mut self, dir: Dir)
        requires is_requeued { 0 < requeued_of dir self.old }
        requires few { self.old.reads + self.old.writes < MAX_OPEN }
        ensures { opened dir self.old ≡ after_requeue dir self.new }
    {
        match dir {
            Dir::Read => {
                self.requeued_reads -= 1;
                self.reads += 1;
            }
            Dir::Write => {
                self.requeued_writes -= 1;
                self.writes += 1;
            }
        }
    }

    /// How many picks of a direction are open.
    pub fn of(&self, dir: Dir) -> u64
        ensures { result ≡ open_of dir self.now }
    {
        match dir {
            Dir::Read => self.reads,
            Dir::Write => self.writes,
        }
    }

    /// How many picks of a direction are requeued.
    pub fn requeued(&self, dir: Dir) -> u64
        ensures { result ≡ requeued_of dir self.now }
    {
        match dir {
            Dir::Read => self.requeued_reads,
            Dir::Write => self.requeued_writes,
        }
    }
}
