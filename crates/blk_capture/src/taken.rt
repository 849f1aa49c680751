//! What of what was matched is taken, counted without a list of it.

ghost use Rattle.std.specs.Prelude.{◌≡◌, ◌≤◌, ◌<◌, ◌^◌, ℕ, List, IfOk, OnOk, count_by, length, map, option_and_then};
ghost use Rattle.blk_capture.specs.Fates.{is_taken};
ghost use Rattle.blk_capture.specs.Inside.Coherent.{IsCoherent, AreRoots, AreLaidOut};
ghost use Rattle.blk_capture.specs.Inside.Figures.{AreFiguresOf};
ghost use Rattle.blk_capture.specs.Inside.Matchings.{all_known};
ghost use Rattle.blk_capture.specs.Inside.Partly.{all_before, all_in_part, part_taken, goes_with, fate_with, is_counted_in, plain, AreWhole, IsPlacing, IsWhole, IsLeftOut, HasAdded};
ghost use Rattle.blk_capture.specs.Rules.{Known};
ghost use Rattle.blk_capture.specs.Requests.{AreTimed};
ghost use Rattle.blk_capture.specs.Settled.{all_taken, place_in_end};
ghost use Rattle.blk_capture.specs.declared.requests.CapturedRequest.{CapturedRequest};
ghost use Rattle.blk_capture.specs.declared.requests.Options.{Options};

use crate::clock::Dispatch;
use crate::figures::Figures;
use crate::matching::{Matching, Role};
use crate::members::QueuedBio;
use crate::opened::Opened;
use crate::part::place_in;
use crate::requests::{MergeRoot, Options, captured, count_others, lives, place_of, request_of};
use std::alloc::{AllocError, Allocator, Global};

/// For each request its place among those that are taken, if it is taken; how many are, and how many of these went out before a time.
#[derive(Drop)]
pub(crate) struct Placing<A: Allocator = Global> {
    pub(crate) places: Vec<Option<usize>, A>,
    pub(crate) count: usize,
    pub(crate) before: usize,
}

/// How much of what was matched is taken.
#[derive(Clone, Copy, Debug)]
pub(crate) struct TakenCounts {
    /// How many bios went out with requests that are taken.
    pub(crate) bios: u64,
    /// How many records of merges are of such requests.
    pub(crate) merges: u64,
    /// How many requests were neither taken nor merged into others.
    pub(crate) left_out: u64,
}

/// The part that is taken of requests: so many from a place on.
#[derive(Clone, Copy, Debug)]
pub(crate) struct Part {
    pub(crate) from: usize,
    pub(crate) count: usize,
}

impl<A: Allocator + Clone> Placing<A> {
    /// The request of a number is taken next; whether it went out before the time.
    fn put(&mut self, number: usize, is_before: bool)
        requires there { number < length self.old.places.items }
        requires few { self.old.count < 2 ^ 63 }
        requires each { self.old.before ≤ self.old.count }
        ensures { IsPlacing number is_before self.old self.new }
    {
        self.places[number] = Some(self.count);
        self.count += 1;
        if is_before {
            self.before += 1;
        }
    }
}

/// The places of the requests that are taken, and how many of them went out before a time.
fn place_requests<A: Allocator + Clone>(
    alloc: A,
    matching: &Matching<A>,
    lives: &[MergeRoot],
    options: &Options,
    begin: u64,
) -> Result<Placing<A>, AllocError>
    requires coherent { IsCoherent options.now matching.now.clock.now (all_known matching.now) }
    requires paired { length matching.now.members.openers.items ≡ length matching.now.requests.items }
    requires each_life { length lives.now ≡ length matching.now.requests.items }
    requires roots { AreRoots matching.now.absorptions.items lives.now }
    ensures laid { IfOk result (λ t. AreLaidOut options.now (all_known matching.now) lives.now t.places.items) }
    ensures whole { IfOk result (λ t. AreWhole options.now (all_known matching.now) lives.now t.places.items) }
    ensures count { IfOk result (λ t. t.count ≡ length (all_taken options.now (all_known matching.now))) }
    ensures before { IfOk result (λ t. t.before ≡ all_before begin options.now (all_known matching.now)) }
{
    let places = vec![in alloc; None; lives.len()]?;
    let mut taken = Placing {
        places,
        count: 0,
        before: 0,
    };
    let dispatches = matching.clock.dispatches.as_slice();
    for number in 0..dispatches.len() {
        let dispatch = dispatches[number];
        if let Some(request) = request_of(matching, options, number, dispatch) {
            taken.put(dispatch.request, request.dispatched < begin);
        }
    }
    Ok(taken)
}

/// Whether a request went out with one of a part of those that are taken.
fn goes_with(
    lives: &[MergeRoot],
    places: &[Option<usize>],
    part: Part,
    request: Option<usize>,
) -> bool
    ensures { (o : Options) (m : Known) → AreLaidOut o m lives.now places.now → result ≡ goes_with part.from part.count (option_and_then (place_in_end o m) request) }
{
    place_in(part.from, part.count, place_of(lives, places, request)).is_some()
}

/// How many of the bios did.
fn count_bios(
    queued: &[QueuedBio],
    lives: &[MergeRoot],
    places: &[Option<usize>],
    part: Part,
) -> u64
    ensures { (o : Options) (m : Known) → AreLaidOut o m lives.now places.now → result ≡ count_by (is_counted_in part.from part.count o m) queued.now }
{
    let mut count = 0;
    for bio in queued {
        if goes_with(lives, places, part, bio.stage.request()) {
            count += 1;
        }
    }
    count
}

/// Whether a record is of such a request.
fn is_of_part(
    role: Role,
    queued: &[QueuedBio],
    lives: &[MergeRoot],
    places: &[Option<usize>],
    part: Part,
) -> bool
    ensures { (o : Options) (m : Known) → AreLaidOut o m lives.now places.now → m.bios ≡ queued.now → result ≡ is_taken (fate_with part.from part.count o m role) }
{
    match role {
        Role::Bio(bio) if bio < queued.len() => {
            goes_with(lives, places, part, queued[bio].stage.request())
        }
        Role::Request(request) => goes_with(lives, places, part, Some(request)),
        Role::Bio(_) | Role::Unmatched | Role::PassedOver(_) => false,
    }
}

/// How many of the records are.
fn count_records(
    roles: &[Role],
    queued: &[QueuedBio],
    lives: &[MergeRoot],
    places: &[Option<usize>],
    part: Part,
) -> u64
    ensures { (o : Options) (m : Known) → AreLaidOut o m lives.now places.now → m.bios ≡ queued.now → result ≡ count_by (λ r. is_taken (fate_with part.from part.count o m r)) roles.now }
{
    let mut count = 0;
    for role in roles {
        if is_of_part(*role, queued, lives, places, part) {
            count += 1;
        }
    }
    count
}

/// How much of what was matched is taken: of the requests that went out at `begin` or later at most `first`, those that went out first.
pub(crate) fn count_taken<A: Allocator + Clone>(
    alloc: A,
    matching: &Matching<A>,
    merges: &[Role],
    begin: u64,
    first: u64,
) -> Result<TakenCounts, AllocError>
    requires coherent { IsCoherent matching.now.options matching.now.clock.now (all_known matching.now) }
    requires paired { length matching.now.members.openers.items ≡ length matching.now.requests.items }
    ensures whole { IfOk result (λ _. IsWhole matching.now.options (all_known matching.now)) }
    ensures bios { IfOk result (λ t. t.bios ≡ count_by (is_counted_in (all_before begin matching.now.options (all_known matching.now)) (all_in_part begin first matching.now.options (all_known matching.now)) matching.now.options (all_known matching.now)) matching.now.members.bios.items) }
    ensures merges { IfOk result (λ t. t.merges ≡ count_by (λ r. is_taken (fate_with (all_before begin matching.now.options (all_known matching.now)) (all_in_part begin first matching.now.options (all_known matching.now)) matching.now.options (all_known matching.now) r)) merges.now) }
    ensures left { IfOk result (λ t. IsLeftOut matching.now.options (all_known matching.now) (all_in_part begin first matching.now.options (all_known matching.now)) t.left_out) }
{
    let options = matching.options;
    let requests = matching.requests.as_slice();
    let lives = lives(
        alloc.clone()?,
        requests.len(),
        matching.absorptions.as_slice(),
    )?;
    let taken = place_requests(alloc, matching, lives.as_slice(), &options, begin)?;
    let (_, left_out) = count_others(requests, taken.places.as_slice());
    let part = Part {
        from: taken.before,
        count: (taken.count - taken.before).min(first as usize),
    };
    let queued = matching.members.bios.as_slice();
    let (lives, places) = (lives.as_slice(), taken.places.as_slice());
    Ok(TakenCounts {
        bios: count_bios(queued, lives, places, part),
        merges: count_records(merges, queued, lives, places, part),
        left_out: left_out + (taken.count - part.count) as u64,
    })
}

/// Adds the request of the dispatch of a number, if that is its last one.
fn add_taken<A: Allocator + Clone>(
    figures: &mut Figures<A>,
    requests: &[Opened],
    options: &Options,
    number: usize,
    dispatch: Dispatch,
) -> Result<(), AllocError>
    ensures { (m : Known) (qs : List CapturedRequest) → m.requests ≡ requests.now → AreFiguresOf (map plain qs) figures.old → OnOk result (HasAdded options.now m number dispatch qs figures.new) }
{
    if dispatch.request >= requests.len() {
        return Ok(());
    }
    let opened = requests[dispatch.request];
    if !opened.goes_out_by(number) {
        return Ok(());
    }
    figures.add(&captured(&opened, 0, options, dispatch.time))?;
    Ok(())
}

/// The figures of the requests that went out at `begin` or later, of these of at most `first`, those that went out first.
pub(crate) fn figures_in_part<A: Allocator + Clone>(
    alloc: A,
    requests: &[Opened],
    dispatches: &[Dispatch],
    options: &Options,
    begin: u64,
    first: u64,
) -> Result<Figures<A>, AllocError>
    ensures { (m : Known) → m.requests ≡ requests.now → m.dispatches ≡ dispatches.now → AreTimed (all_taken options.now m) → IfOk result (AreFiguresOf (map plain (part_taken begin first options.now m))) }
{
    let mut figures = Figures::new(alloc)?;
    for number in 0..dispatches.len() {
        let dispatch = dispatches[number];
        if dispatch.time >= begin && figures.count() < first {
            add_taken(&mut figures, requests, options, number, dispatch)?;
        }
    }
    Ok(figures)
}
