//! What is wanted, in words: what fields are called, and what a record has to be instead.

use blk_bio::{BioFault, TraceRule};
use blk_records::TextReason;
use blk_records::names::FieldName;

/// What a field is called, as docs/FORMATS.md has it.
pub fn field_name(name: FieldName) -> &'static [u8] {
    match name {
        FieldName::Unused => b"unused",
        FieldName::Word => b"word",
        FieldName::Title => b"title",
        FieldName::Version => b"version",
        FieldName::Room => b"depth",
        FieldName::Commands => b"number of commands",
        FieldName::Id => b"id",
        FieldName::Release => b"release",
        FieldName::Due => b"due",
        FieldName::Round => b"round",
        FieldName::Bound => b"bound",
        FieldName::Lateness => b"lateness",
        FieldName::From => b"first round",
        FieldName::Until => b"last round",
        FieldName::BoundFrom => b"window's from",
        FieldName::BoundUntil => b"window's due",
        FieldName::OnTime => b"met",
        FieldName::CommandsOnTime => b"number of commands on time",
        FieldName::Windows => b"number of windows",
        FieldName::Seconds => b"seconds",
        FieldName::Nanoseconds => b"nanoseconds",
        FieldName::Processor => b"processor",
        FieldName::Action => b"action",
        FieldName::Process => b"process",
        FieldName::Rwbs => b"rwbs",
        FieldName::First => b"first sector",
        FieldName::Sectors => b"sectors",
        FieldName::Tags => b"depth",
        FieldName::Queues => b"hardware queues",
        FieldName::SoftDepth => b"soft depth",
        FieldName::Submitters => b"submitters",
        FieldName::Events => b"number of events",
        FieldName::Setup => b"setup",
        FieldName::ReadExpire => b"read expiry",
        FieldName::WriteExpire => b"write expiry",
        FieldName::MaxSectors => b"most sectors",
        FieldName::MaxSegments => b"most segments",
        FieldName::Step => b"step",
        FieldName::Event => b"event",
        FieldName::Submitter => b"submitter",
        FieldName::Serial => b"serial",
        FieldName::Direction => b"direction",
        FieldName::Queue => b"hardware queue",
        FieldName::Tag => b"tag",
        FieldName::Depth => b"depth",
        FieldName::Rounds => b"rounds",
        FieldName::Bios => b"number of bios",
    }
}

/// What an event has to be instead of one that breaks a rule.
pub fn rule_wanted(rule: TraceRule) -> &'static [u8] {
    match rule {
        TraceRule::ReleasedTwice => b"an id that was not released before",
        TraceRule::Unknown => b"an id that was released before",
        TraceRule::AlreadyIssued => b"a request that is not issued",
        TraceRule::BioTwice => b"a bio that did not enter before",
        TraceRule::Fit => b"a request within the limits, and bios that join it at one side",
        TraceRule::TagRange => b"a tag below the depth of the round",
        TraceRule::TagUsed => b"a tag that was not issued in this round",
        TraceRule::NotIssued => b"a tag with a command in flight",
        TraceRule::InFlight => b"no command in flight at the end of a round",
        TraceRule::TooLong => b"no more events than a trace may have",
        TraceRule::DepthRange => b"a depth of 1 to that of the title",
    }
}

/// What is wanted where no field by itself has the fault.
pub fn why_wanted(why: TextReason) -> &'static [u8] {
    match why {
        TextReason::Title => b"a title",
        TextReason::Fields => b"other fields",
        TextReason::Word => b"another word",
        TextReason::Number => b"numbers",
        TextReason::Range => b"each number within its range",
        TextReason::Bio(BioFault::Empty) => b"one sector at least",
        TextReason::Bio(BioFault::Range) => b"an end that is not too far",
        TextReason::Tile =>
            b"a bio that begins where the one before it ends, of its direction and within the limits",
        TextReason::Rule(rule) => rule_wanted(rule),
        TextReason::RepeatedId => b"an id that did not stand before",
        TextReason::Order => b"a time that is not before that of the record before",
        TextReason::Count => b"as many records as were announced",
        TextReason::TooLong => b"no more records than the form may have",
        TextReason::Read => b"a reader that does not fail",
        TextReason::Memory => b"more memory",
    }
}
