//! Requests as rows of a table.

ghost use Rattle.std.specs.Prelude.{◌≡◌, ◌<◌, ◌^◌, IfOk};
ghost use Rattle.blk_capture.specs.Tables.{known_since, request_row, AreRequestRows};

use crate::requests::CapturedRequest;
use blk_bio::Dir;
use std::alloc::{AllocError, Allocator};

/// A request as a row of a table. Times are in nanoseconds from a beginning, 0 where they lie before it, and None where they aren't known.
#[derive(Clone, Copy, Debug, PartialEq, Eq)]
pub struct RequestRow {
    /// The number of its dispatch, from 1 on, which is its id and its round in the schedule.
    pub id: u64,
    /// Which way its data goes.
    pub dir: Dir,
    /// Its first sector.
    pub first: u64,
    /// How many sectors it has.
    pub sectors: u64,
    /// How many bios it has.
    pub bios: u64,
    /// The process that opened it.
    pub pid: u64,
    /// When its first bio was queued.
    pub queued: u64,
    /// When it was inserted into the scheduler.
    pub inserted: Option<u64>,
    /// When it went out for the last time.
    pub dispatched: u64,
    /// When it was completed.
    pub completed: Option<u64>,
    /// When it was due.
    pub due: u64,
}

/// How long after the beginning a time is.
fn known_since(begin: u64, time: Option<u64>) -> Option<u64>
    ensures { result ≡ known_since begin time }
{
    match time {
        Some(time) => Some(time.saturating_sub(begin)),
        None => None,
    }
}

/// The row of the request at a place.
fn row_of(begin: u64, place: usize, request: &CapturedRequest) -> RequestRow
    requires { place < 2 ^ 63 }
    ensures { result ≡ request_row begin place request.now }
{
    RequestRow {
        id: place as u64 + 1,
        dir: request.dir,
        first: request.first,
        sectors: request.sectors,
        bios: request.bios,
        pid: request.pid,
        queued: request.queued.saturating_sub(begin),
        inserted: known_since(begin, request.inserted),
        dispatched: request.dispatched.saturating_sub(begin),
        completed: known_since(begin, request.completed),
        due: request.deadline.saturating_sub(begin),
    }
}

/// The rows of requests, by place, with times from `begin` on, which mostly is that of the capture's first record. The row of an id is
/// of the request that has this id in the schedule that [`crate::rounds_of`] makes. Fails only when out of memory.
pub fn rows_of<A: Allocator>(
    alloc: A,
    requests: &[CapturedRequest],
    begin: u64,
) -> Result<Vec<RequestRow, A>, AllocError>
    ensures { IfOk result (λ v. AreRequestRows begin requests.now v.items) }
{
    let mut rows = Vec::with_capacity(alloc, requests.len())?;
    for (place, request) in requests.iter().enumerate() {
        rows.push(row_of(begin, place, request))?;
    }
    Ok(rows)
}
