//! In which lane each request is drawn.

use crate::bars::{Bar, Unit};
use std::alloc::{AllocError, Global};

/// How many commands have a row each at most; more of them share lanes.
const MAX_ROWS: usize = 100;

/// The lane of each request, by its place, and how many there are.
#[derive(Drop)]
pub(crate) struct Lanes {
    /// The lanes, from 0 on.
    pub(crate) of: Vec<u64>,
    /// How many.
    pub(crate) count: u64,
    /// Whether each request has a row of its own.
    pub(crate) own: bool,
}

/// The places of requests in the order in which they came in.
fn in_turn(alloc: Global, bars: &[Bar]) -> Result<Vec<(u64, u64, usize)>, AllocError> {
    let mut order = Vec::new(alloc);
    for place in 0..bars.len() {
        let bar = bars[place];
        order.push((bar.from, bar.id, place))?;
    }
    order.sort()?;
    Ok(order)
}

/// The first lane that is free from a time on, or one past the last.
fn free_lane(ends: &[u64], from: u64) -> usize {
    for lane in 0..ends.len() {
        if ends[lane] <= from {
            return lane;
        }
    }
    ends.len()
}

/// Takes a lane up to a time.
fn take_lane(ends: &mut Vec<u64>, lane: usize, end: u64) -> Result<(), AllocError> {
    if lane < ends.len() {
        ends[lane] = end;
        Ok(())
    } else {
        match ends.push(end) {
            Ok(()) => Ok(()),
            Err(_) => Err(AllocError),
        }
    }
}

/// The lanes of requests: a command of a schedule has a row of its own where there are few, and other requests the first lane that is free
/// when they come in.
pub(crate) fn lanes_of(alloc: Global, unit: Unit, bars: &[Bar]) -> Result<Lanes, AllocError> {
    let own = matches!(unit, Unit::Rounds) && bars.len() <= MAX_ROWS;
    let mut of = Vec::new(alloc);
    of.resize(bars.len(), 0)?;
    let mut ends = Vec::new(alloc);
    for (from, _, place) in in_turn(alloc, bars)?.as_slice() {
        let lane = if own {
            ends.len()
        } else {
            free_lane(ends.as_slice(), *from)
        };
        let end = match bars.get(*place) {
            Some(bar) => bar.to.saturating_add(1),
            None => 0,
        };
        take_lane(&mut ends, lane, end)?;
        if *place < of.len() {
            of[*place] = lane as u64;
        }
    }
    let count = ends.len() as u64;
    Ok(Lanes { of, count, own })
}
