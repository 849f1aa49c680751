//! What is wrong with a text, and why one was not written.

ghost use Rattle.std.specs.Prelude.{◌≡◌};
ghost use Rattle.blk_records.specs.Names.{text_reason_name, text_told};

use blk_bio::{BioFault, TraceRule};
use edd_commands::{Beside, Fault, Told, variant_name};
use thiserror::Error;

/// What is wrong with a record, in the order in which it is looked for.
#[derive(Debug, Clone, Copy, PartialEq, Eq, Error)]
#[error("{}", self.name())]
pub enum TextReason {
    /// The first record is missing, or its name or version is another.
    Title,
    /// Another number of fields, or a field that must be empty is not.
    Fields,
    /// The first field is no word that may stand there, or a direction is neither R nor W.
    Word,
    /// A field is no number.
    Number,
    /// A number is outside its range.
    Range,
    /// The bio is refused.
    Bio(BioFault),
    /// A bio of a group has another direction than the one before it, does not begin at its end, or makes the group pass
    /// the limits.
    Tile,
    /// An event breaks this rule of a trace; the record is its first.
    Rule(TraceRule),
    /// The id of a command of a schedule stood before.
    RepeatedId,
    /// The time of a record of a capture is earlier than that of the one before it.
    Order,
    /// Fewer or more records than announced.
    Count,
    /// More records than the form may have.
    TooLong,
    /// The reader answered a fault.
    Read,
    /// Memory ran out.
    Memory,
}

impl TextReason {
    /// Its name, which the program prints.
    pub fn name(self) -> &'static str
        ensures { result.now ≡ text_reason_name self }
    {
        variant_name!(self: TextReason {
            Title,
            Fields,
            Word,
            Number,
            Range,
            Bio(fault) => fault.name(),
            Tile,
            Rule(rule) => rule.name(),
            RepeatedId,
            Order,
            Count,
            TooLong,
            Read,
            Memory,
        })
    }
}

/// The first thing that is wrong with a text, and the number of its record, the first being 1.
#[derive(Debug, Clone, Copy, PartialEq, Eq, Error)]
#[error("{}", self.name())]
pub struct TextFault {
    /// The number of the record, from 1 on; empty lines are not counted.
    pub at: u64,
    /// What is wrong with it.
    pub why: TextReason,
}

impl Fault for TextFault {
    ghost told = { text_told };

    fn told(&self) -> Told {
        let beside = match self.why {
            TextReason::Read => Beside::Read,
            TextReason::Memory => Beside::Memory,
            _ => Beside::Record(self.at),
        };
        Told {
            name: self.why.name(),
            beside,
        }
    }
}
