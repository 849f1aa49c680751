//! What a trace is made for.

ghost use Rattle.std.specs.Prelude.{◌≡◌, ◌<◌};
ghost use Rattle.blk_trace.specs.Names.{setup_told};
ghost use Rattle.blk_trace.specs.Setups.{IsSetup, IsSetupAnswer, expire_of};

use blk_bio::{Dir, Limits, MAX_QUEUES};
use edd_commands::{Fault, MAX_DEPTH, Told, told};
use std::marker::Model;
use thiserror::Error;

/// Every expiry lies below this number of rounds.
pub const MAX_EXPIRIES: u64 = 1 << 40;

/// Why a setup is not made, in the order in which the reasons are looked for.
#[derive(Clone, Copy, Debug, PartialEq, Eq, Error)]
#[error("{}", self.name())]
pub enum SetupFault {
    /// The depth is 0 or above `MAX_DEPTH`.
    Depth,
    /// The number of hardware queues is 0 or above `MAX_QUEUES`.
    Queues,
    /// An expiry is not below `MAX_EXPIRIES`.
    Expire,
}

impl Fault for SetupFault {
    ghost told = { setup_told };

    fn told(&self) -> Told {
        told!(self: SetupFault { Depth, Queues, Expire })
    }
}

/// How many tags and hardware queues there are, after how many rounds a read and a write are due,
/// and how large a request of several bios may be.
#[derive(Clone, Copy, Debug, PartialEq, Eq)]
pub struct Setup {
    /// The number of tags.
    depth: u64,
    /// The number of hardware queues.
    hw: u8,
    /// After how many rounds a read is due.
    read_expire: u64,
    /// After how many rounds a write is due.
    write_expire: u64,
    /// The limits of a request of several bios.
    limits: Limits,
}

impl Model for Setup {
    ghost use Rattle.blk_trace.specs.Setups.{Setup as SetupFields, IsSetup, setup_of};
    ghost use Rattle.blk_trace.specs.Inside.Stored.{stored_setup};

    ghost Value = { SetupFields };

    ghost view = { λ s. setup_of s.depth s.hw s.read_expire s.write_expire s.limits };

    ghost invariant = { λ s. IsSetup (setup_of s.depth s.hw s.read_expire s.write_expire s.limits) };

    ghost inverse = { stored_setup };
}

impl Setup {
    /// A setup of 1 to [`MAX_DEPTH`] tags and 1 to [`MAX_QUEUES`] hardware queues, with expiries below [`MAX_EXPIRIES`] rounds.
    /// Refused as `Depth` where the number of tags is out of its range, then as `Queues` where that of the hardware queues is, and
    /// then as `Expire` where one of the expiries is.
    pub fn new(
        depth: u64,
        hw: u8,
        read_expire: u64,
        write_expire: u64,
        limits: Limits,
    ) -> Result<Setup, SetupFault>
        ensures { IsSetupAnswer depth hw read_expire write_expire limits result }
    {
        if depth == 0 || depth > MAX_DEPTH {
            return Err(SetupFault::Depth);
        }
        if hw == 0 || hw > MAX_QUEUES {
            return Err(SetupFault::Queues);
        }
        if read_expire >= MAX_EXPIRIES || write_expire >= MAX_EXPIRIES {
            return Err(SetupFault::Expire);
        }
        Ok(Setup {
            depth,
            hw,
            read_expire,
            write_expire,
            limits,
        })
    }

    /// How many tags there are: 1 to [`MAX_DEPTH`].
    pub fn depth(&self) -> u64
        ensures value { result ≡ self.now.depth }
        ensures is_setup { IsSetup self.now }
    {
        self.depth
    }

    /// How many hardware queues there are: 1 to [`MAX_QUEUES`].
    pub fn hw(&self) -> u8
        ensures value { result ≡ self.now.hw }
        ensures is_setup { IsSetup self.now }
    {
        self.hw
    }

    /// After how many rounds a read is due: fewer than [`MAX_EXPIRIES`].
    pub fn read_expire(&self) -> u64
        ensures value { result ≡ self.now.read_expire }
        ensures is_setup { IsSetup self.now }
    {
        self.read_expire
    }

    /// After how many rounds a write is due: fewer than [`MAX_EXPIRIES`].
    pub fn write_expire(&self) -> u64
        ensures value { result ≡ self.now.write_expire }
        ensures is_setup { IsSetup self.now }
    {
        self.write_expire
    }

    /// The limits of a request of several bios: how many sectors, and how many bios, it may have.
    pub fn limits(&self) -> Limits
        ensures { result ≡ self.now.limits }
    {
        self.limits
    }

    /// After how many rounds a bio of the direction is due.
    pub fn expire(&self, dir: Dir) -> u64
        ensures value { result ≡ expire_of self.now dir }
        ensures small { result < MAX_EXPIRIES }
    {
        match dir {
            Dir::Read => self.read_expire,
            Dir::Write => self.write_expire,
        }
    }
}
