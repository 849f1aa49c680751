//! What is wrong with a line that a recorder printed.

ghost use Rattle.std.specs.Prelude.{◌≡◌};
ghost use Rattle.blk_recorders.specs.Names.{line_reason_name, line_told};

use edd_commands::{Beside, Fault, Told, variant_name};
use thiserror::Error;

/// What is wrong with a line, in the order in which it is looked for.
#[derive(Debug, Clone, Copy, PartialEq, Eq, Error)]
#[error("{}", self.name())]
pub enum LineReason {
    /// It ends too soon, or has something else where its form has a range of sectors.
    Fields,
    /// A number is none, or one that passes 64 bits.
    Number,
    /// A time is 2^34 seconds or more.
    Range,
    /// It is of another device than the lines before it, and none was asked for.
    Devices,
    /// Its time is earlier than that of the record before it.
    Order,
    /// It is one record more than a capture may have.
    TooLong,
    /// Memory ran out.
    Memory,
}

impl LineReason {
    /// Its name, which the program prints.
    pub fn name(self) -> &'static str
        ensures { result.now ≡ line_reason_name self }
    {
        variant_name!(self: LineReason { Fields, Number, Range, Devices, Order, TooLong, Memory })
    }
}

/// The first thing that is wrong with what a recorder printed.
#[derive(Debug, Clone, Copy, PartialEq, Eq, Error)]
#[error("{}", self.name())]
pub struct LineFault {
    /// The number of the line, from 1 on; empty lines are counted.
    pub at: u64,
    /// What is wrong with it.
    pub why: LineReason,
}

impl Fault for LineFault {
    ghost told = { line_told };

    fn told(&self) -> Told {
        let beside = match self.why {
            LineReason::Memory => Beside::Memory,
            _ => Beside::Line(self.at),
        };
        Told {
            name: self.why.name(),
            beside,
        }
    }
}
