//! A panel: all that lies in an interval.

ghost use Rattle.std.specs.Prelude.{◌≡◌, ◌≤◌, ◌∷◌, [], OnOk, IfOk, length, map, take};
ghost use Rattle.blk_lanes.specs.Facts.{bar_fact, span_fact};
ghost use Rattle.blk_lanes.specs.Held.{Says, panel_facts};

use crate::bars::{Bar, Interval, Span, Unit, bars_within, count_late, spans_within};
use crate::facts::{bar_fact, span_fact};
use crate::lanes::{Lanes, lanes_of};
use crate::ruler::Ruler;
use crate::shapes::{Layout, bar_shape, has_room, panel_shape, put, put_time, span_shape};
use crate::words::{AFTER_BAR, AFTER_TITLE, BAR};
use std::alloc::{AllocError, Global};
use text_output::Draft;

/// How many requests of an interval are drawn at most, those that went out first.
const MAX_BARS: usize = 1000;

/// How many pixels all lanes take, unless each has the least height.
const MAX_TALL: u64 = 520;

/// How many pixels a lane is high at least and at most.
const MIN_LANE_TALL: u64 = 3;

const MAX_LANE_TALL: u64 = 14;

/// A time that is drawn, of some.
#[derive(Clone, Copy)]
pub(crate) struct Place {
    /// What is drawn.
    pub(crate) interval: Interval,
    /// Its number, from 1 on; 0 where all is drawn in one.
    pub(crate) number: u64,
    /// How far from the top.
    pub(crate) top: u64,
}

/// Adds a request with what is said of it.
fn push_bar(
    draft: &mut Draft,
    alloc: Global,
    layout: &Layout,
    lane: u64,
    bar: Bar,
) -> Result<(), AllocError>
    ensures { OnOk result (Says (bar_fact layout.now.ruler.unit bar ∷ []) draft.old draft.new) }
{
    let fact = bar_fact(alloc, layout.ruler.unit, bar)?;
    let shape = bar_shape(alloc, layout, lane, bar)?;
    draft.text(BAR.as_bytes())?;
    draft.text(fact.as_slice())?;
    draft.text(AFTER_TITLE.as_bytes())?;
    draft.text(shape.as_slice())?;
    draft.text(AFTER_BAR.as_bytes())?;
    Ok(())
}

/// Adds a stall or a window with what is said of it.
fn push_span(
    draft: &mut Draft,
    alloc: Global,
    layout: &Layout,
    number: u64,
    span: Span,
    labelled: bool,
) -> Result<(), AllocError>
    ensures { OnOk result (Says (span_fact layout.now.ruler.unit span ∷ []) draft.old draft.new) }
{
    let fact = span_fact(alloc, layout.ruler.unit, span)?;
    let shape = span_shape(alloc, layout, number, span, labelled)?;
    draft.text(BAR.as_bytes())?;
    draft.text(fact.as_slice())?;
    draft.text(AFTER_TITLE.as_bytes())?;
    draft.text(shape.as_slice())?;
    draft.text(AFTER_BAR.as_bytes())?;
    Ok(())
}

/// Adds requests, each in its lane.
fn push_bars(
    draft: &mut Draft,
    alloc: Global,
    layout: &Layout,
    lanes: &[u64],
    bars: &[Bar],
) -> Result<(), AllocError>
    ensures { OnOk result (Says (map (bar_fact layout.now.ruler.unit) bars.now) draft.old draft.new) }
{
    for place in 0..bars.len() {
        let lane = match lanes.get(place) {
            Some(lane) => *lane,
            None => 0,
        };
        push_bar(draft, alloc, layout, lane, bars[place])?;
    }
    Ok(())
}

/// Adds stalls and windows.
fn push_spans(
    draft: &mut Draft,
    alloc: Global,
    layout: &Layout,
    spans: &[Span],
) -> Result<(), AllocError>
    ensures { OnOk result (Says (map (span_fact layout.now.ruler.unit) spans.now) draft.old draft.new) }
{
    for place in 0..spans.len() {
        let labelled = has_room(layout, spans, place);
        push_span(draft, alloc, layout, place as u64, spans[place], labelled)?;
    }
    Ok(())
}

/// How many of the times are windows.
fn count_windows(spans: &[Span]) -> u64 {
    let mut count: u64 = 0;
    for span in spans {
        if !span.stall {
            count = count.saturating_add(1);
        }
    }
    count
}

/// How a panel with these lanes is laid out.
fn layout_of(ruler: Ruler, lanes: &Lanes, spans: &[Span]) -> Layout
    ensures { result.ruler.unit ≡ ruler.unit }
{
    let windows = count_windows(spans);
    let tall = (MAX_TALL / lanes.count.max(1))
        .max(MIN_LANE_TALL)
        .min(MAX_LANE_TALL);
    Layout {
        ruler,
        lanes: lanes.count,
        tall,
        own: lanes.own,
        stalls: (spans.len() as u64).saturating_sub(windows),
        windows,
    }
}

/// The title of a panel: its number, its times, and how many requests it has, how many of them late.
fn title_of(
    alloc: Global,
    unit: Unit,
    place: Place,
    found: usize,
    bars: &[Bar],
) -> Result<Vec<u8>, AllocError> {
    let mut draft = Draft::new(alloc);
    let late = count_late(bars);
    if place.number > 0 {
        put(&mut draft, "$. From ", &[place.number])?;
        put_time(&mut draft, unit, place.interval.from)?;
        draft.text(b" to ")?;
        put_time(&mut draft, unit, place.interval.to)?;
        draft.text(b": ")?;
    }
    let counts = match unit {
        Unit::Rounds => "$ commands, $ late",
        Unit::Nanoseconds => "$ requests, $ late",
    };
    put(&mut draft, counts, &[found as u64, late])?;
    if bars.len() < found {
        put(&mut draft, "; the first $ are drawn", &[bars.len() as u64])?;
    }
    draft.finish()
}

/// The first requests, at most so many.
fn first_of(bars: &[Bar], most: usize) -> &[Bar]
    ensures { result.now ≡ take most bars.now }
{
    if most < bars.len() {
        &bars[..most]
    } else {
        bars
    }
}

/// Adds the panel of an interval, and says where the next one begins.
pub(crate) fn push_panel(
    draft: &mut Draft,
    alloc: Global,
    unit: Unit,
    place: Place,
    bars: &[Bar],
    spans: &[Span],
) -> Result<u64, AllocError>
    ensures { OnOk result (Says (panel_facts unit bars.now spans.now place.interval) draft.old draft.new) }
{
    let found = bars_within(alloc, place.interval, bars)?;
    let spans = spans_within(alloc, place.interval, spans)?;
    let bars = first_of(found.as_slice(), MAX_BARS);
    let lanes = lanes_of(alloc, unit, bars)?;
    let ruler = Ruler::of(unit, place.interval, bars);
    let layout = layout_of(ruler, &lanes, spans.as_slice());
    let title = title_of(alloc, unit, place, found.len(), bars)?;
    let begin = panel_shape(alloc, &layout, place.top, title.as_slice())?;
    draft.text(begin.as_slice())?;
    push_spans(draft, alloc, &layout, spans.as_slice())?;
    push_bars(draft, alloc, &layout, lanes.of.as_slice(), bars)?;
    draft.text(b"</g>\n")?;
    Ok(place.top.saturating_add(layout.whole()))
}
