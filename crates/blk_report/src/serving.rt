//! The Issues of a trace, each with its request, and what they served.

ghost use Rattle.std.specs.Prelude.{◌≡◌, IfOk, map};
ghost use Rattle.blk_trace.specs.Events.{IsIssued};
ghost use Rattle.blk_trace.specs.Meaning.{commands_of, rounds_of};
ghost use Rattle.blk_report.specs.Services.{service_of, services_of, command_in, AreWithinLimits, AreInIssueOrder};

use blk_bio::Dir;
use blk_trace::{Issued, Trace};
use std::alloc::{AllocError, Allocator};

/// An Issue with its request as it was issued: its command was served, unless it was requeued.
#[derive(Clone, Copy, Debug, PartialEq, Eq)]
pub struct Service {
    /// The id under which its request was released.
    pub id: u64,
    /// The way that its data goes.
    pub dir: Dir,
    /// Its first sector, with all that joined it.
    pub first: u64,
    /// How many sectors it has, with all that joined it.
    pub sectors: u64,
    /// The last round in which it was released or joined.
    pub release: u64,
    /// The first round in which one of its bios is due.
    pub due: u64,
    /// The round of the Issue.
    pub issue: u64,
    /// The tag of the Issue.
    pub tag: u16,
    /// Whether the request was requeued.
    pub back: bool,
}

/// An Issue of a trace with its request.
pub fn service_of<A: Allocator + Clone>(trace: &Trace<A>, issue: &Issued) -> Service
    requires { IsIssued trace.now.events issue.now.id }
    ensures { result ≡ service_of trace.now.setup trace.now.events issue.now }
{
    let Some(entry) = trace.request(issue.id) else {
        unreachable!()
    };
    Service {
        id: issue.id,
        dir: entry.extent.dir(),
        first: entry.extent.first(),
        sectors: entry.extent.sectors(),
        release: entry.release,
        due: entry.due,
        issue: issue.round,
        tag: issue.tag,
        back: issue.was_requeued(),
    }
}

/// What the Issues served that were not requeued.
fn served<A: Allocator + Clone>(alloc: A, trace: &Trace<A>) -> Result<Vec<Service, A>, AllocError>
    ensures { IfOk result (λ v. v.items ≡ services_of trace.now.setup trace.now.events) }
{
    let mut services = Vec::new(alloc);
    for issue in trace.issues() {
        if !issue.was_requeued() {
            services.push(service_of(trace, issue))?;
        }
    }
    Ok(services)
}

/// The commands of a trace that were issued and not requeued, in the order of these Issues, each with its request as it stood
/// then, with all that joined it. Rounds and sectors are as in the trace. Fails only when out of memory. The time grows as the number
/// of commands.
pub fn services<A: Allocator + Clone>(trace: &Trace<A>) -> Result<Vec<Service, A>, AllocError>
    ensures services { IfOk result (λ v. v.items ≡ services_of trace.now.setup trace.now.events) }
    // place by place they are the commands of the trace and their rounds
    ensures commands { IfOk result (λ v. map command_in v.items ≡ commands_of trace.now.setup trace.now.events) }
    ensures rounds { IfOk result (λ v. map (λ s. s.issue) v.items ≡ rounds_of trace.now.events) }
    ensures timed { IfOk result (λ v. AreWithinLimits v.items) }
    ensures rising { IfOk result (λ v. AreInIssueOrder v.items) }
{
    let commands = trace.commands()?;
    let alloc = commands.allocator().clone()?;
    let services = served(alloc, trace)?;
    Ok(services)
}
