//! The times in which late requests wait.

use crate::bars::{Bar, Interval};
use std::alloc::{AllocError, Global};
use std::cmp::Reverse;

/// A time in which late requests wait, and how many of them do.
#[derive(Clone, Copy)]
pub(crate) struct LateTime {
    /// From when the first of them comes in to when the last goes out.
    pub(crate) interval: Interval,
    /// How many there are.
    pub(crate) late: u64,
}

/// When each late request waits, in the order in which they came in.
fn late_waits(alloc: Global, bars: &[Bar]) -> Result<Vec<(u64, u64)>, AllocError> {
    let mut waits = Vec::new(alloc);
    for bar in bars {
        if bar.is_late() {
            waits.push((bar.from, bar.to))?;
        }
    }
    waits.sort()?;
    Ok(waits)
}

/// The times in which late requests wait, joined where they have a part in common, in their order. Each late request waits in one of them.
pub(crate) fn late_times(alloc: Global, bars: &[Bar]) -> Result<Vec<LateTime>, AllocError> {
    let mut times: Vec<LateTime> = Vec::new(alloc);
    for (from, to) in late_waits(alloc, bars)?.as_slice() {
        match times.last_mut() {
            Some(last) if *from <= last.interval.to => {
                last.interval.to = last.interval.to.max(*to);
                last.late = last.late.saturating_add(1);
            }
            _ => {
                let interval = Interval {
                    from: *from,
                    to: *to,
                };
                times.push(LateTime { interval, late: 1 })?;
            }
        }
    }
    Ok(times)
}

/// Puts those first in which the most late requests wait.
pub(crate) fn sort_times(times: &mut Vec<LateTime>) -> Result<(), AllocError> {
    times.sort_by_key(|time| Reverse(time.late))
}
