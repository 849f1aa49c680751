//! The script of a capture's arrivals.

ghost use Rattle.std.specs.Prelude.{◌≡◌, ◌⊎◌, IfOk, IfErr, length};
ghost use Rattle.edd_commands.specs.Order.{IsFirstFault};
ghost use Rattle.blk_capture.specs.Requests.{AreInOrder};
ghost use Rattle.blk_text.specs.Script.{IsScript, scripted};
ghost use Rattle.blk_arrivals.specs.Brought.{arriving_bios, brought_by};
ghost use Rattle.blk_arrivals.specs.Coming.{submitters_of};
ghost use Rattle.blk_arrivals.specs.Scripts.{script_rules, script_of};
ghost use Rattle.blk_arrivals.specs.Staged.{KeepPlugs, no_bios};

use crate::builder::steps_of;
use crate::coming::{begin_of, come_in_time, submitters_of};
use crate::terms::{ArrivalsFault, Terms, USUAL_SOFT_DEPTH, script_setup};
use blk_capture::Record;
use blk_text::Script;
use std::alloc::Global;

/// The bios of a capture that came in, as a script: one that is queued and not passed over, each once and whole, in the order of the
/// records and in the round of its time. The first record is in round 0. The times of the records don't fall.
///
/// Submitters are the processes, in the order of their first bios, or the processors where there are more processes than a script may have
/// submitters. A bio's serial is its number among all, from 0 on. A plug is flushed, and drained, where the capture unplugs it in the same
/// round, before a bio comes in where [`blk_queues::MAX_STAGED`] stand in it, and at the end of a round. At the end as many rounds run as
/// there are bios, so that all are served, whatever the scheduler.
///
/// Fails with the first of [`ArrivalsFault`]; memory may run out at any place. Its time grows as n times the number of submitters.
pub fn script_of(alloc: Global, records: &[Record], terms: &Terms) -> Result<Script, ArrivalsFault>
    requires { AreInOrder records.now (length records.now) }
    ensures ok { IfOk result (λ s. scripted s ≡ script_of terms.now records.now) }
    // it may be written, and reads back
    ensures script { IfOk result (λ s. IsScript (scripted s)) }
    // each bio that came in once, in the round of its time
    ensures bios { IfOk result (λ s. brought_by 0 s.lines.items ≡ arriving_bios terms.now records.now) }
    // no plug gets more than it holds, and none holds any when a round ends
    ensures plugs { IfOk result (λ s. KeepPlugs (no_bios (length (submitters_of records.now))) s.lines.items) }
    ensures err { IfErr result (λ f. (f ≡ ArrivalsFault.Memory) ⊎ IsFirstFault (script_rules terms.now records.now) f) }
{
    let setup = match script_setup(terms) {
        Ok(setup) => setup,
        Err(fault) => return Err(fault),
    };
    let found = match submitters_of(alloc, records) {
        Ok(Some(submitters)) => submitters,
        Ok(None) => return Err(ArrivalsFault::TooMany),
        Err(_) => return Err(ArrivalsFault::Memory),
    };
    if !come_in_time(begin_of(records), terms.round, records) {
        return Err(ArrivalsFault::TraceFull);
    }
    let submitters = (found.keys.len() as u64).max(1);
    match steps_of(
        alloc,
        found.told,
        found.keys.as_slice(),
        terms.round,
        records,
    ) {
        Ok(lines) => Ok(Script {
            setup,
            soft_depth: USUAL_SOFT_DEPTH,
            submitters,
            lines,
        }),
        Err(fault) => Err(fault),
    }
}
