//! Whole pictures.

ghost use Rattle.std.specs.Prelude.{◌≡◌, ◌≤◌, ◌∷◌, [], OnOk, IfOk, length, map};
ghost use Rattle.blk_lanes.specs.Held.{Says, drawn_facts, IsDrawn, whole_time};

use crate::bars::{Bar, Interval, Span, Unit, count_late};
use crate::intervals::{late_times, sort_times};
use crate::panel::{Place, push_panel};
use crate::shapes::put;
use crate::words::{
    AFTER_HEAD, ALL, BEFORE_HEAD, BLAME, COMMANDS, HEAD, NONE_LATE, SCHEDULE, SHOWN, WAYS,
};
use std::alloc::{AllocError, Global};
use text_output::Draft;

/// How many intervals are drawn at most.
const MAX_PANELS: usize = 10;

/// How many requests there are at most where all are drawn in one panel.
const MAX_WHOLE: usize = 200;

/// Where the first panel begins, from the top.
const FIRST_TOP: u64 = 116;

/// All times.
fn whole_time() -> Interval
    ensures { result ≡ whole_time }
{
    Interval {
        from: 0,
        to: u64::MAX,
    }
}

/// Which intervals are drawn, and what is said of that.
#[derive(Drop)]
struct Choice {
    /// The intervals, the worst first.
    intervals: Vec<Interval>,
    /// The line about them.
    line: Vec<u8>,
}

/// The worst intervals of late requests.
fn worst(alloc: Global, bars: &[Bar]) -> Result<Choice, AllocError>
    ensures { IfOk result (λ c. length c.intervals.items ≤ MAX_PANELS) }
{
    let mut times = late_times(alloc, bars)?;
    sort_times(&mut times)?;
    let all = times.len();
    let mut intervals = Vec::new(alloc);
    let mut late: u64 = 0;
    let mut shown: u64 = 0;
    for time in times.as_slice() {
        late = late.saturating_add(time.late);
        if intervals.len() < MAX_PANELS {
            intervals.push(time.interval)?;
            shown = shown.saturating_add(time.late);
        }
    }
    let mut line = Draft::new(alloc);
    if all == 0 {
        put(&mut line, NONE_LATE, &[])?;
    } else {
        let drawn = intervals.len() as u64;
        put(&mut line, SHOWN, &[drawn, all as u64, shown, late])?;
    }
    Ok(Choice {
        intervals,
        line: line.finish()?,
    })
}

/// All times, in one panel.
fn all_times(alloc: Global, bars: &[Bar]) -> Result<Choice, AllocError>
    ensures { IfOk result (λ c. c.intervals.items ≡ whole_time ∷ []) }
{
    let late = count_late(bars);
    let mut intervals = Vec::new(alloc);
    intervals.push(whole_time())?;
    let mut line = Draft::new(alloc);
    put(&mut line, ALL, &[late])?;
    Ok(Choice {
        intervals,
        line: line.finish()?,
    })
}

/// Which intervals are drawn of these requests.
fn chosen(alloc: Global, bars: &[Bar]) -> Result<Choice, AllocError>
    ensures few { IfOk result (λ c. length c.intervals.items ≤ MAX_PANELS) }
    ensures whole { IfOk result (λ c. length bars.now ≤ MAX_WHOLE → c.intervals.items ≡ whole_time ∷ []) }
{
    if bars.len() <= MAX_WHOLE {
        all_times(alloc, bars)
    } else {
        worst(alloc, bars)
    }
}

/// Adds the panels of intervals, and says where the last one ends.
fn push_panels(
    draft: &mut Draft,
    alloc: Global,
    unit: Unit,
    intervals: &[Interval],
    bars: &[Bar],
    spans: &[Span],
) -> Result<u64, AllocError>
    ensures { OnOk result (Says (drawn_facts unit bars.now spans.now intervals.now) draft.old draft.new) }
{
    let mut top = FIRST_TOP;
    let many = 1 < intervals.len();
    for number in 0..intervals.len() {
        let place = Place {
            interval: intervals[number],
            number: if many { number as u64 + 1 } else { 0 },
            top,
        };
        top = push_panel(draft, alloc, unit, place, bars, spans)?;
    }
    Ok(top)
}

/// How a picture of this height begins, up to its heading.
fn head_shape(alloc: Global, unit: Unit, height: u64) -> Result<Vec<u8>, AllocError> {
    let mut draft = Draft::new(alloc);
    put(&mut draft, HEAD, &[height, height, height])?;
    let title = match unit {
        Unit::Rounds => SCHEDULE,
        Unit::Nanoseconds => BLAME,
    };
    put(&mut draft, title, &[])?;
    put(&mut draft, BEFORE_HEAD, &[])?;
    draft.finish()
}

/// What stands below the heading: the colours, and what is said of the intervals.
fn legend_shape(alloc: Global, unit: Unit, line: &[u8]) -> Result<Vec<u8>, AllocError> {
    let mut draft = Draft::new(alloc);
    put(&mut draft, AFTER_HEAD, &[])?;
    let ways = match unit {
        Unit::Rounds => COMMANDS,
        Unit::Nanoseconds => WAYS,
    };
    put(&mut draft, ways, &[])?;
    draft.text(line)?;
    draft.finish()
}

/// The picture of requests, of stalls and of windows, as SVG 1.1 without scripts, fonts or links, under a heading of plain words: where they
/// are few all are drawn in one panel, and of more the worst intervals in which late ones wait, at most ten, each a panel with all that
/// waits in it. Fails only when out of memory.
pub fn drawn(
    alloc: Global,
    unit: Unit,
    heading: &[u8],
    bars: &[Bar],
    spans: &[Span],
) -> Result<Vec<u8>, AllocError>
    ensures { IfOk result (λ v. IsDrawn unit heading.now bars.now spans.now v.items) }
{
    let choice = chosen(alloc, bars)?;
    let mut body = Draft::new(alloc);
    let height = push_panels(
        &mut body,
        alloc,
        unit,
        choice.intervals.as_slice(),
        bars,
        spans,
    )?;
    let body = body.finish()?;
    let head = head_shape(alloc, unit, height.saturating_add(16))?;
    let legend = legend_shape(alloc, unit, choice.line.as_slice())?;
    let mut draft = Draft::new(alloc);
    draft.text(head.as_slice())?;
    draft.text(heading)?;
    draft.text(legend.as_slice())?;
    draft.text(body.as_slice())?;
    draft.text(b"</svg>\n")?;
    let svg = draft.finish()?;
    Ok(svg)
}
