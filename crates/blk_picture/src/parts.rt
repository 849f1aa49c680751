//! The part of a picture that shows a trace, and whole pictures.

ghost use Rattle.std.specs.Prelude.{◌≡◌, ◌*◌, ◌+◌, ◌≤◌, ◌<◌, IfOk, length};
ghost use Rattle.edd_commands.specs.declared.steps.TheConstants.{MAX_DEPTH};
ghost use Rattle.blk_trace.specs.declared.trace.TheConstants.{MAX_EVENTS};
ghost use Rattle.blk_picture.specs.declared.parts.TheConstants.{MAX_TRACES};
ghost use Rattle.blk_picture.specs.declared.scale.TheConstants.{MAX_TAG_TALL};
ghost use Rattle.blk_picture.specs.Scales.{IsScaled};
ghost use Rattle.blk_picture.specs.Pictures.{rounds_shown, most_rounds, most_deep, latest_end, crowded_room, IsDrawing};

use crate::around::{axis, push_heading, push_windows};
use crate::boxes::boxes;
use crate::columns::{Column, columns};
use crate::cut::{LateWaits, chosen, push_cut};
use crate::scale::{MAX_COLUMNS, Scale, place};
use crate::shapes::{drawn_columns, push_frame, push_strip};
use crate::template::push_template;
use crate::words::{HEAD, STYLE};
use blk_report::{Missed, Report, Service, misses, report};
use blk_trace::Trace;
use edd_commands::{Capacity, MAX_ROUNDS};
use edd_figures::Figures;
use std::alloc::{AllocError, Global};
use text_output::Draft;

/// How many traces are drawn below one another at most.
const MAX_TRACES: usize = 1000;

/// How many rounds of a trace are shown: the current one is the last.
fn rounds_shown(trace: &Trace) -> u32
    ensures value { result ≡ rounds_shown trace.now }
    ensures small { result ≤ MAX_EVENTS + 1 }
{
    let rounds = trace.round() + 1;
    rounds as u32
}

/// How many tags of a trace are shown.
fn tags_shown(trace: &Trace) -> u32
    ensures value { result ≡ trace.now.setup.depth }
    ensures small { result ≤ MAX_DEPTH }
{
    let depth = trace.setup().depth();
    depth as u32
}

/// The round before which what is due in a round has to run, if it is to be less late than this; no later than rounds are counted.
fn latest_end(due: u64, late: i64) -> u64
    ensures value { result ≡ latest_end due late }
    ensures small { result < 2 * MAX_ROUNDS }
{
    let end = if late < 0 {
        due.saturating_sub(late.unsigned_abs())
    } else {
        due.saturating_add(late as u64)
    };
    end.min(2 * MAX_ROUNDS - 1)
}

/// How many commands the rounds of the crowded window carry, if each is to be less late than the least lateness; 0 where there is none.
fn crowded_room(capacity: &Capacity, figures: Option<Figures>) -> u64
    ensures { result ≡ crowded_room capacity.now figures }
{
    let Some(figures) = figures else {
        return 0;
    };
    let window = figures.window;
    capacity.sum(window.from, latest_end(window.due, figures.least))
}

/// What is drawn of a trace on a scale.
#[derive(Drop)]
pub struct Drawing {
    /// How far it fell short.
    pub report: Report,
    /// How many commands were late and had to be, with the windows that prove it.
    pub missed: Missed,
    /// How many commands the rounds of the report's window carry, if each is to be less late than the least lateness; 0 where there is none.
    pub room: u64,
    /// The box of each Issue, the last one first.
    pub boxes: Vec<Service>,
    /// The columns that are drawn, from the left.
    pub columns: Vec<Column>,
}

/// What is drawn of a trace on a scale. Fails only when out of memory.
pub fn drawing_of(alloc: Global, trace: &Trace, scale: &Scale) -> Result<Drawing, AllocError>
    requires { 0 < scale.now.per }
    ensures { IfOk result (IsDrawing scale.now trace.now) }
{
    let report = report(trace)?;
    let missed = misses(trace)?;
    let boxes = boxes(alloc, trace)?;
    let columns = columns(alloc, trace, boxes.as_slice(), *scale)?;
    let drawn = drawn_columns(alloc, scale, columns.as_slice())?;
    let room = crowded_room(&trace.capacity()?, report.figures);
    Ok(Drawing {
        report,
        missed,
        room,
        boxes,
        columns: drawn,
    })
}

/// Adds the part that shows what is drawn of a trace under a name, so far from the top.
fn push_part(
    draft: &mut Draft,
    alloc: Global,
    scale: &Scale,
    drawing: &Drawing,
    top: u64,
    name: &[u8],
) -> Result<(), AllocError>
    requires { 0 < scale.now.per }
{
    let boxes = drawing.boxes.as_slice();
    let columns = drawing.columns.as_slice();
    let axis = axis(alloc, scale)?;
    push_template(draft, b"<g transform='translate(0,$)'>\n", &[top])?;
    push_heading(
        draft,
        alloc,
        scale,
        name,
        &drawing.report,
        &drawing.missed.tally,
    )?;
    push_cut(draft, scale, boxes)?;
    push_strip(draft, scale, columns)?;
    push_frame(draft, scale, boxes, columns)?;
    push_windows(
        draft,
        scale,
        axis.as_slice(),
        &drawing.report,
        drawing.room,
        drawing.missed.windows.as_slice(),
    )?;
    draft.text(b"</g>\n")
}

/// Adds how late requests of another trace wait; where there are few rounds nobody asks.
fn add_late(
    late: &mut LateWaits,
    alloc: Global,
    rounds: u32,
    trace: &Trace,
) -> Result<(), AllocError> {
    if rounds <= MAX_COLUMNS {
        return Ok(());
    }
    let boxes = boxes(alloc, trace)?;
    late.add(boxes.as_slice());
    Ok(())
}

/// How many pixels a part is high.
fn height_of(scale: &Scale) -> u32
    requires deep { scale.now.deep ≤ MAX_DEPTH }
    requires tall { scale.now.tall ≤ MAX_TAG_TALL }
{
    let tall = place(scale.deep, scale.tall, 372);
    tall as u32
}

/// Adds how a picture of this height in pixels begins.
fn push_head(draft: &mut Draft, height: u64) -> Result<(), AllocError> {
    push_template(draft, HEAD.as_bytes(), &[height, height])?;
    draft.text(STYLE.as_bytes())?;
    push_template(
        draft,
        b"<rect class='p' width='1280' height='$'/>\n",
        &[height],
    )
}

/// The picture of a trace as SVG 1.1, without scripts, fonts or links: a heading, a strip of what waits at the end of each round, a
/// box for each Issue in its round and under its tag, an axis, and the windows of the report and of misses as brackets. Of more than 400
/// rounds those columns are drawn in which a late request waits or goes out, and it says what is cut; where these are more than 400, or nothing
/// is late, a column stands for several rounds, and is a stack of what they served. It shows what [`drawing_of`] answers, as `tools/pictures.py`
/// checks. Fails only when out of memory.
pub fn picture(alloc: Global, trace: &Trace) -> Result<Vec<u8>, AllocError> {
    let rounds = rounds_shown(trace);
    let deep = tags_shown(trace);
    let mut late = LateWaits::new(alloc, rounds)?;
    add_late(&mut late, alloc, rounds, trace)?;
    let scale = chosen(alloc, rounds, deep, &late)?;
    let height = height_of(&scale);
    let mut draft = Draft::new(alloc);
    push_head(&mut draft, u64::from(height))?;
    let drawing = drawing_of(alloc, trace, &scale)?;
    push_part(&mut draft, alloc, &scale, &drawing, 0, b"trace")?;
    draft.text(b"</svg>\n")?;
    let svg = draft.finish()?;
    Ok(svg)
}

/// The most rounds and the most tags of several traces.
#[derive(Clone, Copy)]
struct Extent {
    /// The most rounds.
    rounds: u32,
    /// The most tags.
    deep: u32,
}

/// Those of these traces.
fn largest_of(traces: &[Trace]) -> Extent
    ensures rounds { result.rounds ≡ most_rounds traces.now }
    ensures deep { result.deep ≡ most_deep traces.now }
    ensures few { result.rounds ≤ MAX_EVENTS + 1 }
    ensures low { result.deep ≤ MAX_DEPTH }
{
    let mut rounds = 0;
    let mut deep = 0;
    for trace in traces {
        rounds = rounds_shown(trace).max(rounds);
        deep = tags_shown(trace).max(deep);
    }
    Extent { rounds, deep }
}

/// The scale that several traces share: that of the most rounds and the most tags.
fn shared(alloc: Global, traces: &[Trace]) -> Result<Scale, AllocError>
    ensures scale { IfOk result (λ s. IsScaled (most_rounds traces.now) (most_deep traces.now) s) }
    ensures deep { IfOk result (λ s. s.deep ≤ MAX_DEPTH) }
    ensures some { IfOk result (λ s. 0 < s.per) }
    ensures low { IfOk result (λ s. s.tall ≤ MAX_TAG_TALL) }
{
    let extent = largest_of(traces);
    let mut late = LateWaits::new(alloc, extent.rounds)?;
    for trace in traces {
        add_late(&mut late, alloc, extent.rounds, trace)?;
    }
    let scale = chosen(alloc, extent.rounds, extent.deep, &late)?;
    Ok(scale)
}

/// Adds the parts of several traces, one below another.
fn push_parts(
    draft: &mut Draft,
    alloc: Global,
    names: &[&[u8]],
    traces: &[Trace],
    scale: Scale,
) -> Result<(), AllocError>
    requires each { length names.now ≡ length traces.now }
    requires few { length traces.now ≤ MAX_TRACES }
    requires some { 0 < scale.per }
    requires deep { scale.deep ≤ MAX_DEPTH }
    requires tall { scale.tall ≤ MAX_TAG_TALL }
{
    let height = height_of(&scale);
    for number in 0..traces.len() {
        let top = place(number as u32, height, 0);
        let drawing = drawing_of(alloc, &traces[number], &scale)?;
        push_part(draft, alloc, &scale, &drawing, top, names[number])?;
    }
    Ok(())
}

/// The pictures of several traces under their names, one below another on one scale of rounds, as [`picture`] draws each. The names
/// are plain words. Fails only when out of memory; more than 1,000 traces are refused as if memory had run out.
pub fn pictures(alloc: Global, names: &[&[u8]], traces: &[Trace]) -> Result<Vec<u8>, AllocError>
    requires { length names.now ≡ length traces.now }
{
    if traces.len() > MAX_TRACES {
        return Err(AllocError);
    }
    let scale = shared(alloc, traces)?;
    let height = height_of(&scale);
    let mut draft = Draft::new(alloc);
    let whole = place(traces.len() as u32, height, 0);
    push_head(&mut draft, whole)?;
    push_parts(&mut draft, alloc, names, traces, scale)?;
    draft.text(b"</svg>\n")?;
    let svg = draft.finish()?;
    Ok(svg)
}
