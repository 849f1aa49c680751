//! What a record of a capture does to the plugs of the submitters.

ghost use Rattle.std.specs.Prelude.{◌≡◌, ◌<◌, IfSome, length};
ghost use Rattle.blk_arrivals.specs.Effects.{effect_of, submitter_number};
ghost use Rattle.blk_arrivals.specs.Inside.Effects.{IsRecordEffect};

use crate::coming::{ToldBy, way_of};
use blk_bio::Dir;
use blk_capture::{Action, Record};

/// What a record does.
#[derive(Clone, Copy)]
pub(crate) enum RecordEffect {
    /// A submitter's bio of this direction comes in.
    Comes(usize, Dir),
    /// The plug of a submitter is flushed.
    Unplugs(usize),
    /// Nothing.
    Nothing,
}

/// The number of the submitter with a key, if there is one.
fn submitter_number(keys: &[u64], key: u64) -> Option<usize>
    ensures value { result ≡ submitter_number keys.now key }
    ensures bound { IfSome result (λ s. s < length keys.now) }
{
    keys.iter().position(|other| *other == key)
}

/// What a record does, where the submitters have these keys.
pub(crate) fn effect_of(told: ToldBy, keys: &[u64], record: &Record) -> RecordEffect
    ensures value { result ≡ effect_of told keys.now record.now }
    ensures effect { IsRecordEffect (length keys.now) record.now result }
{
    let Some(submitter) = submitter_number(keys, told.key_of(record)) else {
        return RecordEffect::Nothing;
    };
    match record.action {
        Action::Unplug => RecordEffect::Unplugs(submitter),
        Action::Queue
        | Action::Get
        | Action::BackMerge
        | Action::FrontMerge
        | Action::Insert
        | Action::Issue
        | Action::Complete
        | Action::Requeue
        | Action::Split
        | Action::Plug
        | Action::Other => match way_of(record) {
            Some(way) => RecordEffect::Comes(submitter, way),
            None => RecordEffect::Nothing,
        },
    }
}
