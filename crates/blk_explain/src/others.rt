//! The kinds of records with none of the words of their form, of whose fields but the first nothing is known.

use blk_records::fields::Slot;
use blk_records::kinds::Kind;
use blk_records::names::FieldName;

/// A step of a script with another word than a step has.
pub const OTHER_STEP: Kind<0, 1> = Kind {
    word: *b"",
    since: 1,
    slots: [Slot::Given],
    names: [FieldName::Step],
};

/// A record of a trace with another word than an event has.
pub const OTHER_EVENT: Kind<0, 1> = Kind {
    word: *b"",
    since: 1,
    slots: [Slot::Given],
    names: [FieldName::Event],
};
