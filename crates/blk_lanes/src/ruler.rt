//! Where times lie, in pixels, and the numbers of an axis.

ghost use Rattle.std.specs.Prelude.{◌≡◌};

use crate::bars::{Bar, Interval, Unit};

/// Where the times begin, from the left.
pub(crate) const LEFT: u64 = 64;

/// How many pixels they take.
const WIDE: u64 = 1200;

/// The most steps of an axis.
const MAX_STEPS: u64 = 12;

/// The times of a panel.
#[derive(Clone, Copy)]
pub(crate) struct Ruler {
    /// The first.
    pub(crate) from: u64,
    /// The one after the last.
    pub(crate) end: u64,
    /// What they count.
    pub(crate) unit: Unit,
}

/// How long a time is that is drawn alone.
fn whole_of(unit: Unit) -> u64 {
    match unit {
        Unit::Rounds => 1,
        Unit::Nanoseconds => 0,
    }
}

impl Ruler {
    /// That of an interval, cut to the times of these requests.
    pub(crate) fn of(unit: Unit, panel: Interval, bars: &[Bar]) -> Ruler
        ensures { result.unit ≡ unit }
    {
        let mut first = u64::MAX;
        let mut last = 0;
        for bar in bars {
            first = first.min(bar.from);
            last = last.max(bar.to);
        }
        let from = panel.from.max(first.min(last));
        let end = panel.to.min(last).saturating_add(whole_of(unit)).max(from);
        Ruler { from, end, unit }
    }

    /// Where a time lies, no farther than the panel goes.
    pub(crate) fn at(&self, time: u64) -> u64 {
        let since = time.min(self.end).saturating_sub(self.from);
        let long = self.end.saturating_sub(self.from).max(1);
        let wide = since.saturating_mul(WIDE) / long;
        LEFT + wide.min(WIDE)
    }

    /// Where a time ends that is drawn alone.
    pub(crate) fn after(&self, time: u64) -> u64 {
        self.at(time.saturating_add(whole_of(self.unit)))
    }

    /// How long it is from one number of the axis to the next: 1, 2 or 5 times a power of ten, and no less than can be told.
    pub(crate) fn step(&self) -> u64 {
        let long = self.end.saturating_sub(self.from);
        let mut step: u64 = match self.unit {
            Unit::Rounds => 1,
            Unit::Nanoseconds => 1000,
        };
        for number in 0..60 {
            if long / step.max(1) <= MAX_STEPS {
                break;
            }
            step = if number % 3 == 1 {
                (step / 2).saturating_mul(5)
            } else {
                step.saturating_mul(2)
            };
        }
        step.max(1)
    }
}
