//! The rows of the kinds of records, as they are handed out to whoever lists them.

use blk_records::any::AnyKind;
use blk_records::fields::Slot;
use blk_records::names::FieldName;
use blk_text::{TRACE, event_kinds, step_kinds};

/// Whether a kind begins with this word, came with this version, and has six fields.
fn is_row(kind: AnyKind, word: &str, since: u64) -> bool {
    kind.word() == word.as_bytes() && kind.since() == since && kind.width() == 6
}

/// Whether the kinds are these, by their words and the versions that they came with.
fn are_rows(kinds: &[AnyKind], rows: &[(&str, u64)]) -> bool {
    for (kind, (word, since)) in kinds.iter().zip(rows.iter()) {
        if !is_row(*kind, word, *since) {
            return false;
        }
    }
    kinds.len() == rows.len()
}

#[test]
fn kinds_of_events(rt: HostRuntime) {
    let rows = [
        ("tick", 1),
        ("release", 1),
        ("join", 1),
        ("issue", 1),
        ("done", 1),
        ("back", 1),
        ("depth", 2),
    ];
    assert!(rt; are_rows(&event_kinds(), &rows));
}

#[test]
fn kinds_of_steps(rt: HostRuntime) {
    let rows = [
        ("bio", 1),
        ("flush", 1),
        ("drain", 1),
        ("issue", 1),
        ("done", 1),
        ("back", 1),
        ("tick", 1),
        ("run", 1),
        ("depth", 2),
    ];
    assert!(rt; are_rows(&step_kinds(), &rows));
}

#[test]
fn fields_of_an_issue(rt: HostRuntime) {
    let event = event_kinds()[3];
    let step = step_kinds()[3];
    let tags = Slot::Number {
        least: 0,
        most: 65_535,
    };
    assert_eq!(rt; event.slot(2), tags);
    assert_eq!(rt; step.slot(2), tags);
    assert_eq!(rt; event.slot(3), Slot::Blank);
    assert_eq!(rt; event.slot(6), Slot::Given);
    assert!(rt; matches!(event.name(1), FieldName::Id));
    assert!(rt; matches!(step.name(1), FieldName::Queue));
    assert!(rt; matches!(event.name(2), FieldName::Tag));
    assert!(rt; matches!(event.name(6), FieldName::Unused));
}

#[test]
fn title_of_a_trace(rt: HostRuntime) {
    let title = TRACE.any();
    assert!(rt; is_row(title, "blk-trace", 1));
    assert_eq!(rt; title.slot(1), Slot::Number { least: 1, most: 2 });
    assert_eq!(rt; title.slot(2), Slot::Number { least: 1, most: 64 });
    assert!(rt; matches!(title.name(2), FieldName::Tags));
}
