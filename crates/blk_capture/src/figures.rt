//! Figures of requests that are taken in one by one.

ghost use Rattle.std.specs.Prelude.{◌≡◌, ◌≤◌, ◌++◌, ◌∷◌, [], ℕ, List, IfOk, OnOk, count_by, length, map, nat_le};
ghost use Rattle.std.specs.List.{filter_map, cons_option};
ghost use Rattle.std.specs.List.Sorted.{IsNonDecreasingBy};
ghost use Rattle.blk_capture.specs.Requests.{AreTimed};
ghost use Rattle.blk_capture.specs.Summaries.{is_dispatched, all_merges, back_by, in_flight_with, IsMostInFlight, IsSummary};
ghost use Rattle.blk_capture.specs.Inside.Figures.{flight_of, is_late_flight, AreFiguresOf};
ghost use Rattle.blk_capture.specs.declared.fates.Fate.{Fate};
ghost use Rattle.blk_capture.specs.declared.record.Record.{Record};
ghost use Rattle.blk_capture.specs.declared.requests.CapturedBio.{CapturedBio};
ghost use Rattle.blk_capture.specs.declared.requests.CapturedRequest.{CapturedRequest};

use crate::requests::CapturedRequest;
use crate::summary::{MAX_STREAMED, Phase, Summary, count_upto, percentiles_of, time_in};
use blk_bio::Dir;
use std::alloc::{AllocError, Allocator, Global};

/// What is kept of a request that went out.
#[derive(Clone, Copy, Debug)]
pub(crate) struct Flight {
    /// When it went out.
    pub(crate) time: u64,
    /// Which way its data goes.
    pub(crate) dir: Dir,
    /// Whether it went out after its deadline.
    pub(crate) is_late: bool,
    /// Whether it was completed at the very time at which it went out.
    pub(crate) is_back: bool,
}

/// Figures of requests, in the order in which they went out.
#[derive(Drop)]
pub(crate) struct Figures<A: Allocator = Global> {
    /// By request.
    pub(crate) flights: Vec<Flight, A>,
    /// How long phases took, of the requests of which both their ends are known.
    pub(crate) tag: Vec<u64, A>,
    pub(crate) scheduler: Vec<u64, A>,
    pub(crate) device: Vec<u64, A>,
    /// When requests were completed.
    pub(crate) completions: Vec<u64, A>,
}

/// What is kept of a request.
fn flight_of(request: &CapturedRequest) -> Flight
    ensures { result ≡ flight_of request.now }
{
    let is_back = match request.completed {
        Some(completed) => completed <= request.dispatched,
        None => false,
    };
    Flight {
        time: request.dispatched,
        dir: request.dir,
        is_late: request.deadline < request.dispatched,
        is_back,
    }
}

/// Whether a request goes that way, and went out after its deadline.
fn is_late_flight(flight: Flight, dir: Dir) -> bool
    ensures { result ≡ is_late_flight dir flight }
{
    flight.dir == dir && flight.is_late
}

/// How many requests of a direction went out after their deadline.
fn count_late(flights: &[Flight], dir: Dir) -> u64
    ensures { result ≡ count_by (is_late_flight dir) flights.now }
{
    let mut count = 0;
    for flight in flights {
        if is_late_flight(*flight, dir) {
            count += 1;
        }
    }
    count
}

/// Adds a number that is known.
fn push_known<A: Allocator>(list: &mut Vec<u64, A>, value: Option<u64>) -> Result<(), AllocError>
    ensures { OnOk result (list.new.items ≡ list.old.items ++ cons_option value []) }
{
    if let Some(value) = value {
        list.push(value)?;
    }
    Ok(())
}

/// How many of the requests went out by a time. It is found by halves.
fn count_out(flights: &[Flight], time: u64) -> usize
    ensures value { IsNonDecreasingBy (λ f. f.time) flights.now → result ≡ count_by (λ f. nat_le f.time time) flights.now }
    ensures bound { result ≤ length flights.now }
{
    flights.partition_point(|flight| flight.time <= time)
}

/// How many were at the device when one went out, which counts itself, also where it was back at that very time.
fn in_flight_with(flights: &[Flight], completions: &[u64], flight: Flight) -> u64
    requires { IsNonDecreasingBy (λ x. x) completions.now }
    ensures { (qs : List CapturedRequest) (q : CapturedRequest) → flights.now ≡ map flight_of qs → AreTimed qs → ((t : ℕ) → count_by (λ x. nat_le x t) completions.now ≡ count_by (back_by t) qs) → flight ≡ flight_of q → result ≡ in_flight_with qs q }
{
    let out = count_out(flights, flight.time);
    let back = count_upto(completions, flight.time);
    let count = out.saturating_sub(back) as u64;
    if flight.is_back { count + 1 } else { count }
}

/// The most that were at the device at once, by the times at which requests were completed, which it puts in order.
fn most_at_once(flights: &[Flight], completions: &mut [u64]) -> u64
    ensures { (qs : List CapturedRequest) → flights.now ≡ map flight_of qs → AreTimed qs → completions.old ≡ filter_map (λ q. q.completed) qs → IsMostInFlight qs result }
{
    completions.sort_unstable();
    let mut most = 0;
    for flight in flights {
        let count = in_flight_with(flights, completions, *flight);
        if count > most {
            most = count;
        }
    }
    most
}

impl<A: Allocator + Clone> Figures<A> {
    /// Of no request.
    pub(crate) fn new(alloc: A) -> Result<Figures<A>, AllocError>
        ensures { IfOk result (AreFiguresOf []) }
    {
        Ok(Figures {
            flights: Vec::new(alloc.clone()?),
            tag: Vec::new(alloc.clone()?),
            scheduler: Vec::new(alloc.clone()?),
            device: Vec::new(alloc.clone()?),
            completions: Vec::new(alloc),
        })
    }

    /// Of one request more, which went out after them.
    pub(crate) fn add(&mut self, request: &CapturedRequest) -> Result<(), AllocError>
        ensures { (qs : List CapturedRequest) → AreFiguresOf qs self.old → OnOk result (AreFiguresOf (qs ++ request.now ∷ []) self.new) }
    {
        self.flights.push(flight_of(request))?;
        push_known(&mut self.tag, time_in(Phase::Tag, request))?;
        push_known(&mut self.scheduler, time_in(Phase::Scheduler, request))?;
        push_known(&mut self.device, time_in(Phase::Device, request))?;
        push_known(&mut self.completions, request.completed)?;
        Ok(())
    }

    /// How many requests there are.
    pub(crate) fn count(&self) -> u64
        ensures { (qs : List CapturedRequest) → AreFiguresOf qs self.now → result ≡ length qs }
    {
        self.flights.len() as u64
    }

    /// The capture in numbers, by how many records it has, how many bios went out with the requests, and how many records of merges are of them.
    pub(crate) fn summary(self, records: u64, bios: u64, merges: u64) -> Summary
        requires { (qs : List CapturedRequest) × AreFiguresOf qs self × (length qs ≤ MAX_STREAMED) }
        ensures { (rs : List Record) (qs : List CapturedRequest) (bs : List CapturedBio) (fs : List Fate) → AreFiguresOf qs self → AreTimed qs → records ≡ length rs → bios ≡ count_by is_dispatched bs → merges ≡ all_merges rs fs → IsSummary rs qs bs fs result }
    {
        let Figures {
            flights,
            tag,
            scheduler,
            device,
            completions,
        } = self;
        let (mut tag, mut scheduler, mut device) = (tag, scheduler, device);
        let mut completions = completions;
        let flights = flights.as_slice();
        Summary {
            records,
            bios,
            requests: flights.len() as u64,
            merges,
            late_reads: count_late(flights, Dir::Read),
            late_writes: count_late(flights, Dir::Write),
            tag: percentiles_of(tag.as_mut_slice()),
            scheduler: percentiles_of(scheduler.as_mut_slice()),
            device: percentiles_of(device.as_mut_slice()),
            in_flight: most_at_once(flights, completions.as_mut_slice()),
        }
    }
}
