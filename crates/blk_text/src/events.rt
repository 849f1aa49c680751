//! The events of a trace, each looked at after those before it.

ghost use Rattle.std.specs.Prelude.{◌≡◌, ◌∷◌, ◌++◌, ◌≤◌, ◌<◌, ◌^◌, ◌-◌, ◌+◌, ◌*◌, ℕ, [], length, IfOk, IfErr, IfSome, codes};
ghost use Rattle.csv.specs.Records.{fields_of};
ghost use Rattle.text_grammar.specs.declared.Repeats.TheVariants as repeats;
ghost use Rattle.text_grammar.specs.Parts.{Begins};
ghost use Rattle.blk_records.specs.Sources.{Row};
ghost use Rattle.blk_records.specs.Reads.{FaultsBy, HandReads, HandFailsBy, Fails, AreItems, IsHeldAt, size_of};
ghost use Rattle.blk_records.specs.Titles.{IsTitleOf};
ghost use Rattle.blk_text.specs.TraceForm.{plain_event, event as event_part, events_of, trace_form, trace_rows, SpellsTrace, TraceTextFault};
ghost use Rattle.blk_text.specs.Inside.TraceForm.{IsStoppedIn, IsPast};
ghost use Rattle.blk_text.specs.TraceRecords.{IsTrace};

use crate::groups::read_group;
use crate::heads::{HeadForm, TRACE};
use crate::setup::{LATEST, SetupForm};
use blk_bio::{Limits, MAX_SEGMENTS, Request};
use blk_records::fault::{TextFault, TextReason};
use blk_records::items::{ItemForm, RecordForm, gather, read_record};
use blk_records::source::Records;
use blk_records::titles::read_title;
use blk_trace::{Event, MAX_EVENTS, PushFault, Setup, Trace};
use csv::ByteRecord;
use std::alloc::Global;
use std::io::Read;
use text_grammar::Repeats;

/// The event of the record that was read last and those of the bios after it.
fn read_event<R: Read + Drop>(
    alloc: Global,
    records: &mut Records<R>,
    form: HeadForm,
    limits: Limits,
) -> Result<Event<Request>, TextFault>
    requires { records.old.at + MAX_SEGMENTS < 2 ^ 64 - 1 }
    ensures ok { IfOk result (λ e. HandReads (plain_event form.version limits) records.old.left records.old.fields records.new.left e) }
    ensures fits { IfOk result (λ e. (plain_event form.version limits).Fits e) }
    ensures end { IfOk result (λ e. records.new.at + 1 ≡ records.old.at + length ((plain_event form.version limits).rows_of e)) }
    ensures err { IfErr result (HandFailsBy records.old records.new (plain_event form.version limits)) }
    ensures last { IfErr result (λ f. (records.old.at ≤ f.at) × (f.at ≤ records.new.at)) }
    ensures reads { (records.old.at ≤ records.new.at) × (records.new.at ≤ records.old.at + MAX_SEGMENTS) }
{
    let head = match form.value(records.row()) {
        Ok(head) => head,
        Err(why) => return Err(records.fault(why)),
    };
    if let Some(event) = head.bare() {
        return Ok(event);
    }
    match head {
        Event::Release { id, request: bios } => match read_group(
            alloc, records, form, limits, bios,
        ) {
            Ok(request) => Ok(Event::Release { id, request }),
            Err(fault) => Err(fault),
        },
        Event::Join { id, request: bios } => match read_group(alloc, records, form, limits, bios) {
            Ok(request) => Ok(Event::Join { id, request }),
            Err(fault) => Err(fault),
        },
        _ => unreachable!(),
    }
}

/// The events of a version under a setup, gathered in a trace.
#[derive(Clone, Copy, Drop)]
struct EventForm {
    head: HeadForm,
    setup: Setup,
}

impl ItemForm for EventForm {
    ghost use Rattle.std.specs.Prelude.{◌≡◌};
    ghost use Rattle.blk_bio.specs.declared.limits.TheConstants.{MAX_SEGMENTS};
    ghost use Rattle.blk_trace.specs.Happened.{Happened};
    ghost use Rattle.blk_text.specs.TraceForm.{event as event_part};

    type Items = Trace;

    ghost View = { Happened };

    ghost known = { λ f t. t.setup ≡ f.setup };

    ghost seen = { λ _ t _. t.events };

    ghost part = { λ f before. event_part f.head.version f.setup before };

    ghost more = { MAX_SEGMENTS };

    #[tactic(auto, using(crate::proofs::EventLaws::event_gone))]
    fn gone(&self, items: &Trace) -> TextReason {
        // brings the prover the trace's invariant
        let _ = items.len();
        TextReason::Count
    }

    fn read<R: Read + Drop>(
        &self,
        alloc: Global,
        records: &mut Records<R>,
        items: &mut Trace,
    ) -> Result<(), TextFault> {
        let at = records.at();
        let event = match read_event(alloc, records, self.head, self.setup.limits()) {
            Ok(event) => event,
            Err(fault) => return Err(fault),
        };
        let Err((_, fault)) = items.push(event) else {
            return Ok(());
        };
        match fault {
            // a rule is broken by the event, which begins here
            PushFault::Rule(rule) => Err(TextFault {
                at,
                why: TextReason::Rule(rule),
            }),
            // memory ran out where reading stands
            PushFault::Memory => Err(records.fault(TextReason::Memory)),
        }
    }
}

/// What is wrong with a record after all events: its own fault, the rule that it breaks where it is an event by itself,
/// and else that it is one too many.
fn past_fault(form: &EventForm, row: &ByteRecord, trace: &Trace) -> TextReason
    requires { trace.now.setup ≡ form.now.setup }
    ensures { IsPast form.now.head.version form.now.setup trace.now.events (fields_of row.now) result }
{
    let head = match form.head.value(row) {
        Ok(head) => head,
        Err(why) => return why,
    };
    let event = match head.bare() {
        Some(event) => event,
        None => return TextReason::Count,
    };
    match trace.first_broken(&event) {
        Some(rule) => TextReason::Rule(rule),
        None => TextReason::Count,
    }
}

/// The trace of a number of events, which are the rest of the text, from one without events.
fn read_events<R: Read + Drop>(
    alloc: Global,
    records: &mut Records<R>,
    version: u64,
    mut trace: Trace,
    count: u64,
) -> Result<Trace, TextFault>
    requires at { records.old.at ≡ 2 }
    requires few { count ≤ MAX_EVENTS }
    requires none { trace.events ≡ [] }
    ensures ok { IfOk result (λ t. IfSome records.old.left (λ rows. Begins (events_of version trace.setup count) rows t.events [])) }
    ensures setup { IfOk result (λ t. t.setup ≡ trace.setup) }
    ensures fit { IfOk result (λ t. AreItems (repeats.Exactly count) (event_part version trace.setup) t.events) }
    ensures err { IfErr result (λ f. Fails records.new.failed (events_of version trace.setup count) records.old.left 2 f.at f.why) }
    // all events before the one that is being read are good, and no record past that one is asked for
    ensures before { IfErr result (λ f. IsStoppedIn version trace.setup count records.old.left f.at records.new.at) }
    ensures reads { (3 ≤ records.new.at) × (records.new.at ≤ MAX_EVENTS * (MAX_SEGMENTS + 1) + 3) }
    ensures end { IfOk result (λ t. records.new.at ≡ size_of (event_part version trace.setup) t.events + 3) }
{
    let form = EventForm {
        head: HeadForm { version },
        setup: trace.setup(),
    };
    match gather(alloc, records, &form, Repeats::Exactly(count), &mut trace) {
        Ok(true) => unreachable!(),
        Ok(false) => {}
        Err(fault) => return Err(fault),
    }
    match records.advance() {
        Ok(true) => {}
        Ok(false) => return Ok(trace),
        Err(fault) => return Err(fault),
    }
    let why = past_fault(&form, records.row(), &trace);
    Err(records.fault(why))
}

/// The trace of a text of records of six fields, in version 1 or 2: a title with the depth (to [`crate::MAX_DEPTH_1`] in
/// version 1, to [`edd_commands::MAX_DEPTH`] in version 2), the hardware queues and the number of events, a setup, and exactly that
/// many events, each of which obeys the rules of a trace after those before it; a depth is set in version 2 alone. No record was
/// read before.
///
/// The fault is the first one: of the least record, and in it the first in the order of [`TextReason`]. A rule that an event
/// breaks is reported at its first record and looked for once its group is whole, so a fault of a bio in the group comes
/// before it. Of an event past the announced number its own fault and, where it has one record, its rule come before
/// [`TextReason::Count`]. [`TextReason::Read`] and [`TextReason::Memory`] come at the record that is being read. No record is asked for past
/// those of the event that is being read, and never more than [`MAX_EVENTS`] * ([`MAX_SEGMENTS`] + 1) + 3.
pub fn read_trace<R: Read + Drop>(
    alloc: Global,
    records: &mut Records<R>,
) -> Result<Trace, TextFault>
    requires { records.old.at ≡ 0 }
    ensures ok { IfOk result (λ t. IfSome records.old.left (λ rows. SpellsTrace rows t)) }
    // also where the reader's bytes are not known
    ensures in_range { IfOk result IsTrace }
    ensures err { IfErr result (FaultsBy records.old records.new TraceTextFault) }
    // also where it came from outside: nothing before what is being read is wrong, and no record past it was asked for
    ensures before { IfErr result (λ f. IsHeldAt trace_form records.old.left MAX_SEGMENTS f.at records.new.at) }
    ensures reads { (1 ≤ records.new.at) × (records.new.at ≤ MAX_EVENTS * (MAX_SEGMENTS + 1) + 3) }
    // the last thing that was asked for is the record after the events, which there is not
    ensures end { IfOk result (λ t. records.new.at ≡ length (trace_rows t) + 1) }
    // the title is that of the form, by its name and its latest version
    ensures title { IsTitleOf TRACE (codes "blk-trace") LATEST }
{
    let (version, [_, _, depth, queues, count, _]) = match read_title(records, &TRACE) {
        Ok(title) => title,
        Err(fault) => return Err(fault),
    };
    let setup_form = SetupForm {
        depth,
        hw: queues as u8,
    };
    let setup = match read_record(records, &setup_form) {
        Ok(setup) => setup,
        Err(fault) => return Err(fault),
    };
    let Ok(none) = Trace::empty(alloc, setup) else {
        return Err(records.fault(TextReason::Memory));
    };
    match read_events(alloc, records, version, none, count) {
        Ok(trace) => {
            // brings the prover the trace's invariant
            let _ = trace.events();
            Ok(trace)
        }
        Err(fault) => Err(fault),
    }
}
