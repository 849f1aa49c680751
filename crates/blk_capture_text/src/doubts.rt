//! What of a capture is dubious.

ghost use Rattle.std.specs.Prelude.{◌≡◌, ◌+◌, ◌<◌, ◌≤◌, ◌^◌};
ghost use Rattle.blk_capture_text.specs.Doubts.{is_at, one_if_at, tells_action};

use blk_capture::{Action, Record};

/// Whether a time is the last one, if there is one.
fn is_at(last: Option<u64>, time: u64) -> bool
    ensures { result ≡ is_at last time }
{
    match last {
        Some(last) => last == time,
        None => false,
    }
}

/// One more, where a time is the last one.
pub(crate) fn one_if_at(count: u64, last: Option<u64>, time: u64) -> u64
    requires { count + 1 < 2 ^ 64 }
    ensures value { result ≡ one_if_at count last time }
    ensures few { result ≤ count + 1 }
{
    if is_at(last, time) { count + 1 } else { count }
}

/// Whether a record is of an action.
pub(crate) fn tells_action(record: &Record, action: Action) -> bool
    ensures { result ≡ tells_action action record.now }
{
    record.action.place() == action.place()
}
