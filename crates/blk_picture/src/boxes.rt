//! The boxes of a trace: one for each Issue, in its round and under its tag.

ghost use Rattle.std.specs.Prelude.{◌≡◌, ◌≤◌, IfOk, length};
ghost use Rattle.blk_trace.specs.declared.trace.TheConstants.{MAX_EVENTS};
ghost use Rattle.blk_picture.specs.Boxes.{boxes_of};

use blk_report::{Service, service_of};
use blk_trace::Trace;
use std::alloc::{AllocError, Global};

/// The box of each Issue, the last one first.
pub(crate) fn boxes(alloc: Global, trace: &Trace) -> Result<Vec<Service>, AllocError>
    ensures boxes { IfOk result (λ v. v.items ≡ boxes_of trace.now.setup trace.now.events) }
    ensures few { IfOk result (λ v. length v.items ≤ MAX_EVENTS) }
{
    let issues = trace.issues();
    let mut boxes = Vec::new(alloc);
    let mut left = issues.len();
    while left > 0 {
        left -= 1;
        boxes.push(service_of(trace, &issues[left]))?;
    }
    Ok(boxes)
}
