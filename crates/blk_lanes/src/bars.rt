//! What is drawn: requests, and times in which more was wanted than could be had.

ghost use Rattle.std.specs.Prelude.{◌≡◌, IfOk};
ghost use Rattle.std.specs.List.{filter_map};
ghost use Rattle.blk_lanes.specs.Shown.{bar_is_late, bar_within, span_within};

use std::alloc::{AllocError, Global};

/// What the times of a picture count.
#[derive(Clone, Copy)]
pub enum Unit {
    /// Rounds, each of which is drawn from its own number to the next.
    Rounds,
    /// Nanoseconds, told in milliseconds.
    Nanoseconds,
}

/// Which way the data of a request goes.
#[derive(Clone, Copy)]
pub enum Way {
    /// From the device.
    Read,
    /// To the device.
    Write,
    /// Nobody says.
    Unknown,
}

/// Whether a request was late, and why.
#[derive(Clone, Copy)]
pub enum Mark {
    /// It went out by its deadline.
    OnTime,
    /// It was late, and could have been on time beside all that were.
    Spare,
    /// Its time was full of others that were on time.
    Full,
    /// The device took nothing from its entry to its deadline.
    Stall,
    /// It was whole only after its deadline.
    Arrival,
    /// No round lay between its entry and its deadline.
    Gap,
}

/// A request, as it is drawn.
#[derive(Clone, Copy)]
pub struct Bar {
    /// Its number.
    pub id: u64,
    /// Which way its data goes.
    pub way: Way,
    /// When it came in.
    pub from: u64,
    /// When it was due.
    pub due: u64,
    /// When it went out.
    pub to: u64,
    /// Whether it was late, and why.
    pub mark: Mark,
}

/// A time in which more requests came in and were due than the device took.
#[derive(Clone, Copy)]
pub struct Span {
    /// Its first time.
    pub from: u64,
    /// Its last one.
    pub to: u64,
    /// How many requests came in and were due in it.
    pub requests: u64,
    /// How many the device took in it; a stall has none.
    pub carries: u64,
    /// Whether the device took nothing.
    pub stall: bool,
}

/// A part of the time that is drawn, with both its ends.
#[derive(Clone, Copy)]
pub struct Interval {
    /// Its first time.
    pub from: u64,
    /// Its last one.
    pub to: u64,
}

impl Bar {
    /// Whether it is late.
    pub(crate) fn is_late(self) -> bool
        ensures { result ≡ bar_is_late self }
    {
        !matches!(self.mark, Mark::OnTime)
    }

    /// It, if it waits in the interval.
    fn within(self, panel: Interval) -> Option<Bar>
        ensures { result ≡ bar_within panel self }
    {
        if self.from <= panel.to && panel.from <= self.to {
            Some(self)
        } else {
            None
        }
    }
}

impl Span {
    /// It, if it has a part in the interval.
    fn within(self, panel: Interval) -> Option<Span>
        ensures { result ≡ span_within panel self }
    {
        if self.from <= panel.to && panel.from <= self.to {
            Some(self)
        } else {
            None
        }
    }
}

/// Those of the requests that wait in an interval.
pub(crate) fn bars_within(
    alloc: Global,
    panel: Interval,
    bars: &[Bar],
) -> Result<Vec<Bar>, AllocError>
    ensures { IfOk result (λ v. v.items ≡ filter_map (bar_within panel) bars.now) }
{
    bars.iter()
        .filter_map(|bar| (*bar).within(panel))
        .collect(alloc)
}

/// Those of the times that have a part in an interval.
pub(crate) fn spans_within(
    alloc: Global,
    panel: Interval,
    spans: &[Span],
) -> Result<Vec<Span>, AllocError>
    ensures { IfOk result (λ v. v.items ≡ filter_map (span_within panel) spans.now) }
{
    spans
        .iter()
        .filter_map(|span| (*span).within(panel))
        .collect(alloc)
}

/// How many of the requests are late.
pub(crate) fn count_late(bars: &[Bar]) -> u64 {
    let mut count: u64 = 0;
    for bar in bars {
        if bar.is_late() {
            count = count.saturating_add(1);
        }
    }
    count
}
