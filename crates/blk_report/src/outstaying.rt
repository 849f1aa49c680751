//! How many bios wait past the round in which their request is due.

ghost use Rattle.std.specs.Prelude.{◌≡◌, length};
ghost use Rattle.blk_report.specs.Overdue.{is_overdue, bios_under, overdue_of};

use blk_bio::Request;
use blk_trace::{Event, Trace};
use std::alloc::Allocator;

/// Whether a request waits under the id at the end, in a round after the one in which it is due.
fn is_overdue<A: Allocator + Clone>(trace: &Trace<A>, id: u64) -> bool
    ensures { result ≡ is_overdue trace.now.setup trace.now.events id }
{
    match trace.waiting_at(id) {
        Some(entry) => entry.due < trace.round(),
        None => false,
    }
}

/// How many bios enter by the event under such an id.
fn overdue_by<A: Allocator + Clone>(trace: &Trace<A>, event: &Event<Request<A>>) -> u64
    ensures { result ≡ length (bios_under (is_overdue trace.now.setup trace.now.events) event.now) }
{
    match event.enters() {
        Some((id, request)) if is_overdue(trace, id) => request.bios().len() as u64,
        _ => 0,
    }
}

/// How many bios wait at the end, in a round after the one in which their request is due. It walks the events once and takes no memory.
pub(crate) fn count_overdue<A: Allocator + Clone>(trace: &Trace<A>) -> u64
    ensures { result ≡ length (overdue_of trace.now.setup trace.now.events) }
{
    // brings the prover what limits are
    let _ = trace.setup().limits().max_segments();
    let mut bios = 0;
    for event in trace.events() {
        bios += overdue_by(trace, event);
    }
    bios
}
