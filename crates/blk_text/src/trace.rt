//! Traces.

ghost use Rattle.std.specs.Prelude.{◌≡◌, ◌⊎◌, OnOk, IfOk, IfErr};
ghost use Rattle.blk_records.specs.Texts.{rows_text};
ghost use Rattle.blk_text.specs.TraceRecords.{IsTrace};
ghost use Rattle.blk_text.specs.TraceForm.{trace_rows, SpellsTrace, SpellsTraceIn};

use crate::heads::{TRACE, push_event};
use crate::setup::{LATEST, push_setup};
use blk_trace::Trace;
use std::alloc::{AllocError, Allocator, Global};
use text_output::Block;

/// The text of a trace, in the latest version: records of six fields, a title, a setup, and the records of each event, those of a group's bios
/// after its own in the order of their sectors.
pub fn trace_text<A: Allocator + Clone>(
    alloc: Global,
    trace: &Trace<A>,
) -> Result<Vec<u8>, AllocError>
    ensures text { IfOk result (λ v. v.items ≡ rows_text (trace_rows trace.now)) }
    ensures fits { IfOk result (λ _. IsTrace trace.now) }
{
    let mut draft = Block::new(alloc);
    let setup = trace.setup();
    let events = trace.events();
    let numbers = [
        LATEST,
        setup.depth(),
        setup.hw() as u64,
        events.len() as u64,
    ];
    TRACE.push(&mut draft, &numbers)?;
    push_setup(&mut draft, &setup)?;
    for i in 0..events.len() {
        push_event(&mut draft, &events[i])?;
    }
    draft.finish()
}
