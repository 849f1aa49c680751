//! The shapes of a picture as text, without what is said of each.

use crate::bars::{Bar, Mark, Span, Unit, Way};
use crate::ruler::{LEFT, Ruler};
use crate::words::{BRACKET, DUE, FRAME, LABEL, PANEL, PART, ROW, TICK};
use std::alloc::{AllocError, Global};
use text_output::Draft;

/// Where the lanes begin, from the top of a panel.
pub(crate) const TOP: u64 = 24;

/// How many rows of windows stand below a panel at most.
const MAX_ROWS: u64 = 4;

/// How many pixels wide a picture is.
const PICTURE_WIDE: u64 = 1280;

/// How many pixels a digit of the numbers of the axis and of windows takes.
const DIGIT_WIDE: u64 = 7;

/// How many pixels the words between the numbers of a window take, with room behind them.
const WORDS_WIDE: u64 = 110;

/// How high a row is at least beside which the number of its request stands.
const MIN_LABEL_TALL: u64 = 10;

/// What a panel is drawn by.
#[derive(Clone, Copy)]
pub(crate) struct Layout {
    /// Its times.
    pub(crate) ruler: Ruler,
    /// How many lanes it has.
    pub(crate) lanes: u64,
    /// How many pixels a lane is high.
    pub(crate) tall: u64,
    /// Whether each request has a row of its own.
    pub(crate) own: bool,
    /// How many stalls it has, which come first.
    pub(crate) stalls: u64,
    /// How many windows it has.
    pub(crate) windows: u64,
}

impl Layout {
    /// How high all lanes are.
    fn high(&self) -> u64 {
        self.lanes.saturating_mul(self.tall)
    }

    /// Where the lanes end.
    pub(crate) fn foot(&self) -> u64 {
        self.high().saturating_add(TOP)
    }

    /// How high the panel is.
    pub(crate) fn whole(&self) -> u64 {
        let rows = self.windows.min(MAX_ROWS);
        self.foot().saturating_add(rows * 28 + 40)
    }
}

/// Adds words, the digits of the next number in place of each dollar sign.
pub(crate) fn put(draft: &mut Draft, words: &str, numbers: &[u64]) -> Result<(), AllocError> {
    let mut rest = numbers;
    for byte in words.as_bytes() {
        if *byte != b'$' {
            draft.text(&[*byte])?;
        } else if let Some((number, more)) = rest.split_first() {
            draft.number(*number)?;
            rest = more;
        }
    }
    Ok(())
}

/// Adds a time, as it is told.
pub(crate) fn put_time(draft: &mut Draft, unit: Unit, time: u64) -> Result<(), AllocError> {
    match unit {
        Unit::Rounds => draft.number(time),
        Unit::Nanoseconds => {
            let thousandths = time / 1000 % 1000;
            draft.number(time / 1_000_000)?;
            draft.text(b".")?;
            draft.number(thousandths / 100)?;
            draft.number(thousandths / 10 % 10)?;
            draft.number(thousandths % 10)
        }
    }
}

/// The class of the part of a bar before its deadline.
fn way_class(way: Way) -> &'static str {
    match way {
        Way::Read => "<rect class='r",
        Way::Write => "<rect class='w",
        Way::Unknown => "<rect class='u",
    }
}

/// The class of the part after it.
fn mark_class(mark: Mark) -> &'static str {
    match mark {
        Mark::Spare => "<rect class='x",
        Mark::Full => "<rect class='o",
        Mark::Stall => "<rect class='h",
        Mark::Arrival | Mark::Gap | Mark::OnTime => "<rect class='a",
    }
}

/// A part of a bar, at least a pixel wide.
fn put_part(
    draft: &mut Draft,
    class: &str,
    layout: &Layout,
    lane: u64,
    from: u64,
    to: u64,
) -> Result<(), AllocError> {
    let wide = to.saturating_sub(from).max(1);
    let y = lane.saturating_mul(layout.tall).saturating_add(TOP);
    let tall = layout.tall.saturating_sub(1).max(1);
    put(draft, class, &[])?;
    put(draft, PART, &[from, y, wide, tall])
}

/// The shape of a request in a lane: where it waits up to its deadline and after it, when it is due, and its number beside a row of its own.
pub(crate) fn bar_shape(
    alloc: Global,
    layout: &Layout,
    lane: u64,
    bar: Bar,
) -> Result<Vec<u8>, AllocError> {
    let mut draft = Draft::new(alloc);
    let from = layout.ruler.at(bar.from);
    let to = layout.ruler.after(bar.to);
    let due = layout.ruler.after(bar.due);
    let y = lane.saturating_mul(layout.tall).saturating_add(TOP);
    if bar.is_late() {
        let turn = due.max(from).min(to);
        if from < turn {
            put_part(&mut draft, way_class(bar.way), layout, lane, from, turn)?;
        }
        put_part(&mut draft, mark_class(bar.mark), layout, lane, turn, to)?;
    } else {
        put_part(&mut draft, way_class(bar.way), layout, lane, from, to)?;
    }
    if layout.own && bar.due < layout.ruler.end {
        put(&mut draft, DUE, &[due, y, layout.tall.saturating_sub(1)])?;
    }
    if layout.own && MIN_LABEL_TALL <= layout.tall {
        let beside = y.saturating_add(layout.tall / 2 + 4);
        put(&mut draft, ROW, &[beside, bar.id])?;
    }
    draft.finish()
}

/// The shape of a stall across the lanes.
fn put_stall(draft: &mut Draft, layout: &Layout, span: Span) -> Result<(), AllocError> {
    let from = layout.ruler.at(span.from);
    let wide = layout.ruler.at(span.to).saturating_sub(from).max(1);
    put(draft, "<rect class='st", &[])?;
    put(draft, PART, &[from, TOP, wide, layout.high()])
}

/// How many digits a number has.
fn count_digits(number: u64) -> u64 {
    let mut rest = number;
    let mut digits: u64 = 1;
    for _ in 0..20 {
        if rest < 10 {
            break;
        }
        rest /= 10;
        digits = digits.saturating_add(1);
    }
    digits
}

/// How many pixels the numbers of a window take.
fn label_wide(span: Span) -> u64 {
    count_digits(span.requests)
        .saturating_add(count_digits(span.carries))
        .saturating_mul(DIGIT_WIDE)
        .saturating_add(WORDS_WIDE)
}

/// Where they begin: where it does, but for those at the right, which end where the picture does.
fn label_left(layout: &Layout, span: Span) -> u64 {
    let last = PICTURE_WIDE.saturating_sub(label_wide(span));
    layout.ruler.at(span.from).min(last)
}

/// Whether there is room for the numbers of a window before the next one in its row.
pub(crate) fn has_room(layout: &Layout, spans: &[Span], place: usize) -> bool {
    match (
        spans.get(place),
        spans.get(place.saturating_add(MAX_ROWS as usize)),
    ) {
        (Some(span), Some(next)) => {
            label_left(layout, *span).saturating_add(label_wide(*span)) <= label_left(layout, *next)
        }
        _ => true,
    }
}

/// The shape of a window below the lanes, in a row, with its numbers where there is room.
fn put_window(
    draft: &mut Draft,
    layout: &Layout,
    number: u64,
    span: Span,
    labelled: bool,
) -> Result<(), AllocError> {
    let from = layout.ruler.at(span.from);
    let to = layout.ruler.after(span.to).max(from.saturating_add(2));
    let row = number.saturating_sub(layout.stalls) % MAX_ROWS;
    let y = layout.foot().saturating_add(row * 28 + 26);
    put(draft, BRACKET, &[from, y, to])?;
    if !labelled {
        return Ok(());
    }
    let left = label_left(layout, span);
    let below = y.saturating_add(18);
    put(draft, LABEL, &[left, below, span.requests, span.carries])
}

/// The shape of a stall or a window.
pub(crate) fn span_shape(
    alloc: Global,
    layout: &Layout,
    number: u64,
    span: Span,
    labelled: bool,
) -> Result<Vec<u8>, AllocError> {
    let mut draft = Draft::new(alloc);
    if span.stall {
        put_stall(&mut draft, layout, span)?;
    } else {
        put_window(&mut draft, layout, number, span, labelled)?;
    }
    draft.finish()
}

/// How many pixels half of a time of the axis takes.
fn half_wide(unit: Unit, time: u64) -> u64 {
    let digits = match unit {
        Unit::Rounds => count_digits(time),
        Unit::Nanoseconds => count_digits(time / 1_000_000).saturating_add(4),
    };
    digits.saturating_mul(DIGIT_WIDE) / 2
}

/// Adds the numbers of an axis below the lanes.
fn put_axis(draft: &mut Draft, layout: &Layout) -> Result<(), AllocError> {
    let ruler = &layout.ruler;
    let step = ruler.step().max(1);
    let first = ruler.from.saturating_add(step.saturating_sub(1)) / step;
    let foot = layout.foot();
    for number in 0..40 {
        let time = first.saturating_add(number).saturating_mul(step);
        if ruler.end < time {
            return Ok(());
        }
        let x = ruler.at(time);
        let middle = x.min(PICTURE_WIDE.saturating_sub(half_wide(ruler.unit, time)));
        put(draft, TICK, &[x, foot, middle, foot.saturating_add(17)])?;
        put_time(draft, ruler.unit, time)?;
        draft.text(b"</text>\n")?;
    }
    Ok(())
}

/// How a panel begins, so far from the top: its title, its frame and its axis.
pub(crate) fn panel_shape(
    alloc: Global,
    layout: &Layout,
    top: u64,
    title: &[u8],
) -> Result<Vec<u8>, AllocError> {
    let mut draft = Draft::new(alloc);
    put(&mut draft, PANEL, &[top])?;
    draft.text(title)?;
    draft.text(b"</text>\n")?;
    put(&mut draft, FRAME, &[layout.high()])?;
    put_axis(&mut draft, layout)?;
    draft.finish()
}
