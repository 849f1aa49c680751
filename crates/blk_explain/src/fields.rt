//! The fields of records, by the names in their rows: what may stand in them.

ghost use Rattle.std.specs.Prelude.{◌≡◌};
ghost use Rattle.blk_explain.specs.Fields.{want_of};

use blk_records::fields::Slot;
use blk_records::names::FieldName;

/// What may stand in a field: what the row of its record says, or as the text's title says.
#[derive(Clone, Copy)]
pub enum Want {
    /// What the row says.
    Row,
    /// What the row says, or more where the version has more tags.
    Tags,
    /// One of the hardware queues.
    Queue,
    /// One of the submitters of the title, or, where it tells none, one that a trace may name.
    Submitter,
    /// What the row says where there are commands, and `none` where there are none.
    Bound,
    /// What the row says, and no fewer than the hardware queues.
    Submitters,
}

/// What may stand in a field of a text whose title is known.
#[derive(Clone, Copy)]
pub enum Allowed {
    /// What the slot says.
    Slot(Slot),
    /// The word `none`; beside commands what the slot says.
    NoNumber(Slot),
}

/// What may stand in a field of this name.
pub fn want_of(name: FieldName) -> Want
    ensures { result ≡ want_of name }
{
    match name {
        FieldName::Lateness => Want::Bound,
        FieldName::BoundFrom => Want::Bound,
        FieldName::BoundUntil => Want::Bound,
        FieldName::Tags => Want::Tags,
        FieldName::Submitter => Want::Submitter,
        FieldName::Queue => Want::Queue,
        FieldName::Submitters => Want::Submitters,
        FieldName::Unused
        | FieldName::Word
        | FieldName::Title
        | FieldName::Version
        | FieldName::Room
        | FieldName::Commands
        | FieldName::Id
        | FieldName::Release
        | FieldName::Due
        | FieldName::Round
        | FieldName::Bound
        | FieldName::From
        | FieldName::Until
        | FieldName::OnTime
        | FieldName::CommandsOnTime
        | FieldName::Windows
        | FieldName::Seconds
        | FieldName::Nanoseconds
        | FieldName::Processor
        | FieldName::Action
        | FieldName::Process
        | FieldName::Rwbs
        | FieldName::First
        | FieldName::Sectors
        | FieldName::Queues
        | FieldName::SoftDepth
        | FieldName::Events
        | FieldName::Setup
        | FieldName::ReadExpire
        | FieldName::WriteExpire
        | FieldName::MaxSectors
        | FieldName::MaxSegments
        | FieldName::Step
        | FieldName::Event
        | FieldName::Serial
        | FieldName::Direction
        | FieldName::Tag
        | FieldName::Depth
        | FieldName::Rounds
        | FieldName::Bios => Want::Row,
    }
}
