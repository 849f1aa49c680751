//! The requests of a capture that went out to the device, with their bios.

ghost use Rattle.std.specs.Prelude.{◌≡◌, ◌≤◌, ◌<◌, ◌+◌, ℕ, true, count_by, is_some, None, Some, All, IfOk, IfErr, IfSome, IfNone, OnOk, length, map, slice_get, option_and_then};
ghost use Rattle.edd_commands.specs.Capacity.{fixed};
ghost use Rattle.edd_commands.specs.declared.TheConstants.{MAX_COMMANDS};
ghost use Rattle.edd_commands.specs.Schedule.{IsLegal, RoundsInRange};
ghost use Rattle.blk_capture.specs.Counting.{AreSolvable, AreInRounds};
ghost use Rattle.blk_capture.specs.Fates.{opens, makes, told, is_matched, passed_by, IsTakenBelow, AreOfTaken, ArePassed};
ghost use Rattle.blk_capture.specs.Inside.Roles.{is_known, passed_role};
ghost use Rattle.blk_capture.specs.Requests.{times_of, AreTimed, HaveBios, AreTallied, AreGone, AreInOrder, IsFirstFall, AgreeOnLateness, entry_by, released_by, expire_for, earlier_of, deadline_of, IsDue, IsCaptureFault};
ghost use Rattle.blk_capture.specs.Inside.Coherent.{IsCoherent, IsLast, AreMerges, AreRoots, AreLaidOut, HaveNoPlace, AreToldBios, IsToldFate, AreToldFates};
ghost use Rattle.blk_capture.specs.Inside.Taken.{IsRequestOf, Puts, ArePlacedBios, IsTalliedFrom, AreWithin, ArePlacedIn, IsPlaceOfOwn};
ghost use Rattle.blk_capture.specs.declared.members.QueuedBio.{QueuedBio};
ghost use Rattle.blk_capture.specs.Matched.{all_opened};
ghost use Rattle.blk_capture.specs.Parting.{fate_at};
ghost use Rattle.blk_capture.specs.Rules.{Known};
ghost use Rattle.blk_capture.specs.Settled.{captured, completed_after, uncounted, taken_last, all_taken, all_bios, place_in_end, fate_by, is_absorbed, IsMatching};
ghost use Rattle.blk_capture.specs.Inside.Matchings.{all_known};

use crate::clock::Dispatch;
use crate::counting::{CountedSchedule, TimedRequest, count_rounds};
use crate::fates::Fate;
use crate::matching::{Matching, Role};
use crate::members::QueuedBio;
use crate::opened::{Absorption, Opened};
use crate::record::Record;
use blk_bio::Dir;
use std::alloc::{AllocError, Allocator, Global};
use thiserror::Error;

/// From when a request counts as having come in.
#[derive(Clone, Copy, Debug, PartialEq, Eq)]
pub enum Entry {
    /// From its insertion into the scheduler, or, where it was never inserted, from the queueing of its first bio.
    Insert,
    /// From the queueing of its first bio.
    Queue,
}

/// How soon requests are due. Times are in the unit of the records, which mostly is nanoseconds.
#[derive(Clone, Copy, Debug, PartialEq, Eq)]
pub struct Options {
    /// How long after it came in a read is due: `read_expire` of mq-deadline.
    pub read_expire: u64,
    /// The same of a write: `write_expire`.
    pub write_expire: u64,
    /// From when a request counts as having come in.
    pub entry: Entry,
}

/// Why a capture is refused.
#[derive(Clone, Copy, Debug, PartialEq, Eq, Error)]
#[error("{:?}", self)]
pub enum CaptureFault {
    /// The record at this place, from 0 on, has an earlier time than the one before it.
    #[error("Order")]
    Order(usize),
    /// Memory ran out.
    Memory,
}

/// A request that went out to the device. Times are those of the records.
#[derive(Clone, Copy, Debug, PartialEq, Eq)]
pub struct CapturedRequest {
    /// Which way its data goes.
    pub dir: Dir,
    /// Its first sector.
    pub first: u64,
    /// How many sectors it has.
    pub sectors: u64,
    /// How many bios it has.
    pub bios: u64,
    /// The place of the bio that it was opened for.
    pub bio: usize,
    /// The process that opened it.
    pub pid: u64,
    /// The processor on which that ran then, whose software queue the request came to.
    pub cpu: u64,
    /// When its first bio was queued.
    pub queued: u64,
    /// When it was opened.
    pub got: u64,
    /// When it was inserted into the scheduler, if it was.
    pub inserted: Option<u64>,
    /// When a bio, or a request with its bios, was last merged into it, if any was.
    pub merged: Option<u64>,
    /// When it counts as come in: by this it has its place, and its deadline.
    pub entry: u64,
    /// When it was released, by its last bio: at its entry, or when something was last merged into it, if that was later. Until then it
    /// could not have gone out whole.
    pub released: u64,
    /// The earliest deadline of the requests that were merged into it, if any.
    pub earlier: Option<u64>,
    /// When it was due: its direction's expiry after its entry, or at `earlier` if that is sooner; at most 2^64 - 1.
    pub deadline: u64,
    /// When it went out for the last time.
    pub dispatched: u64,
    /// When it was completed, if it was; no sooner than it went out.
    pub completed: Option<u64>,
}

/// A bio, as it was queued or cut from one that was.
#[derive(Clone, Copy, Debug, PartialEq, Eq)]
pub struct CapturedBio {
    /// Which way its data goes.
    pub dir: Dir,
    /// Its first sector.
    pub first: u64,
    /// How many sectors it has.
    pub sectors: u64,
    /// The process that queued it.
    pub pid: u64,
    /// When it was queued.
    pub queued: u64,
    /// The place of the request that it went out with, if it did and that is taken.
    pub request: Option<usize>,
}

/// What merges made of a request.
#[derive(Clone, Copy, Debug)]
pub(crate) struct MergeRoot {
    /// The request that it was merged into in the end, or itself.
    pub(crate) root: usize,
}

/// When a request came in.
pub(crate) fn entry_of(opened: &Opened, options: &Options) -> u64
    ensures { result ≡ entry_by options.now.entry opened.now.queued opened.now.inserted }
{
    match options.entry {
        Entry::Insert => opened.inserted.unwrap_or(opened.queued),
        Entry::Queue => opened.queued,
    }
}

/// When a request that came in at a time was released: by the last merge into it, if that was later.
fn released_by(entry: u64, merged: Option<u64>) -> u64
    ensures { result ≡ released_by entry merged }
{
    match merged {
        Some(merged) => entry.max(merged),
        None => entry,
    }
}

/// How long after it came in a request of a direction is due.
fn expire_for(options: &Options, dir: Dir) -> u64
    ensures { result ≡ expire_for options.now dir }
{
    match dir {
        Dir::Read => options.read_expire,
        Dir::Write => options.write_expire,
    }
}

/// The sooner of two times, of which one may be unknown.
pub(crate) fn sooner(earlier: Option<u64>, time: u64) -> u64
    ensures { result ≡ earlier_of earlier time }
{
    match earlier {
        Some(earlier) => earlier.min(time),
        None => time,
    }
}

/// When a request that came in at a time was due.
pub(crate) fn deadline_of(options: &Options, dir: Dir, entry: u64, earlier: Option<u64>) -> u64
    ensures { result ≡ deadline_of options.now dir entry earlier }
{
    sooner(earlier, entry.saturating_add(expire_for(options, dir)))
}

/// The request that each of `count` went into in the end.
pub(crate) fn lives<A: Allocator + Clone>(
    alloc: A,
    count: usize,
    absorptions: &[Absorption],
) -> Result<Vec<MergeRoot, A>, AllocError>
    requires { AreMerges count absorptions.now }
    ensures each { IfOk result (λ v. length v.items ≡ count) }
    ensures roots { IfOk result (λ v. AreRoots absorptions.now v.items) }
{
    let mut lives = Vec::with_capacity(alloc, count)?;
    for root in 0..count {
        lives.push(MergeRoot { root })?;
    }
    // the last absorption first, so that where the other went is known
    for place in (0..absorptions.len()).rev() {
        let absorption = absorptions[place];
        lives[absorption.request] = lives[absorption.into];
    }
    Ok(lives)
}

/// A time, if it is known and not before another.
fn not_before(time: Option<u64>, other: u64) -> Option<u64>
    ensures value { result ≡ completed_after other time }
    ensures later { IfSome result (λ t. other ≤ t) }
{
    match time {
        Some(time) if time >= other => Some(time),
        _ => None,
    }
}

/// A request that went out for the last time at `time`, opened for the bio of a number; none of its bios is counted yet.
pub(crate) fn captured(
    opened: &Opened,
    opener: usize,
    options: &Options,
    time: u64,
) -> CapturedRequest
    ensures { result ≡ captured options.now opener time opened.now }
{
    let entry = entry_of(opened, options);
    CapturedRequest {
        dir: opened.range.dir,
        first: opened.range.first,
        sectors: opened.range.sectors(),
        bios: 0,
        bio: opener,
        pid: opened.pid,
        cpu: opened.cpu,
        queued: opened.queued,
        got: opened.got,
        inserted: opened.inserted,
        merged: opened.merged,
        entry,
        released: released_by(entry, opened.merged),
        earlier: opened.earlier,
        deadline: deadline_of(options, opened.range.dir, entry, opened.earlier),
        dispatched: time,
        completed: not_before(opened.completed, time),
    }
}

/// The request of the dispatch of a number, where that is its last one.
pub(crate) fn request_of<A: Allocator + Clone>(
    matching: &Matching<A>,
    options: &Options,
    number: usize,
    dispatch: Dispatch,
) -> Option<CapturedRequest>
    requires coherent { IsCoherent options.now matching.now.clock.now (all_known matching.now) }
    requires paired { length matching.now.members.openers.items ≡ length matching.now.requests.items }
    requires sent { slice_get matching.now.clock.dispatches.items number ≡ Some dispatch }
    ensures of { IfSome result (IsRequestOf matching.now.members.openers.items dispatch) }
    ensures due { IfSome result (IsDue options.now) }
    ensures last { IfSome result (λ _. IsLast (all_known matching.now) number dispatch) }
    ensures taken { result ≡ taken_last options.now (all_known matching.now) (number, dispatch) }
{
    let place = dispatch.request;
    if place >= matching.requests.len() {
        return None;
    }
    let opened = matching.requests[place];
    if !opened.goes_out_by(number) {
        return None;
    }
    Some(captured(
        &opened,
        matching.members.openers[place],
        options,
        dispatch.time,
    ))
}

/// The requests that are taken, in the order of their dispatches, and for each request its place among them, if it is taken.
#[derive(Drop)]
struct Taken<A: Allocator = Global> {
    requests: Vec<CapturedRequest, A>,
    places: Vec<Option<usize>, A>,
}

impl<A: Allocator + Clone> Taken<A> {
    /// Takes the request of a number.
    fn put(&mut self, number: usize, request: CapturedRequest) -> Result<(), AllocError>
        requires { number < length self.old.places.items }
        ensures { OnOk result (Puts number request self.old self.new) }
    {
        self.places[number] = Some(self.requests.len());
        self.requests.push(request)?;
        Ok(())
    }
}

/// The requests that went out for the last time.
fn take_requests<A: Allocator + Clone>(
    alloc: A,
    matching: &Matching<A>,
    lives: &[MergeRoot],
    options: &Options,
) -> Result<Taken<A>, AllocError>
    requires coherent { IsCoherent options.now matching.now.clock.now (all_known matching.now) }
    requires paired { length matching.now.members.openers.items ≡ length matching.now.requests.items }
    requires each_life { length lives.now ≡ length matching.now.requests.items }
    requires roots { AreRoots matching.now.absorptions.items lives.now }
    ensures placed { IfOk result (ArePlacedIn lives.now matching.now.members.openers.items) }
    ensures timed { IfOk result (λ t. AreTimed t.requests.items) }
    ensures untallied { IfOk result (λ t. All (λ q. q.bios ≡ 0) t.requests.items) }
    ensures due { IfOk result (λ t. All (IsDue options.now) t.requests.items) }
    ensures taken { IfOk result (λ t. t.requests.items ≡ all_taken options.now (all_known matching.now)) }
    ensures laid { IfOk result (λ t. AreLaidOut options.now (all_known matching.now) lives.now t.places.items) }
    ensures many { IfOk result (λ t. count_by is_some t.places.items ≡ length t.requests.items) }
    ensures within { IfOk result (λ t. AreWithin (length t.requests.items) t.places.items) }
{
    let places = vec![in alloc.clone()?; None; lives.len()]?;
    let mut taken = Taken {
        requests: Vec::new(alloc),
        places,
    };
    let dispatches = matching.clock.dispatches.as_slice();
    for number in 0..dispatches.len() {
        let dispatch = dispatches[number];
        if let Some(request) = request_of(matching, options, number, dispatch) {
            taken.put(dispatch.request, request)?;
        }
    }
    Ok(taken)
}

/// Of the requests that are not taken, how many were merged into others, and how many were not.
pub(crate) fn count_others(requests: &[Opened], places: &[Option<usize>]) -> (u64, u64)
    requires each { length places.now ≡ length requests.now }
    requires apart { HaveNoPlace requests.now places.now }
    ensures sum { count_by is_some places.now + result.0 + result.1 ≡ length requests.now }
    ensures absorbed { result.0 ≡ count_by (λ q. is_absorbed q.stage) requests.now }
{
    let mut absorbed = 0;
    let mut left_out = 0;
    for (place, request) in requests.iter().enumerate() {
        if request.is_absorbed() {
            absorbed += 1;
        } else if places[place].is_none() {
            left_out += 1;
        }
    }
    (absorbed, left_out)
}

/// The place of the request that a bio went out with, by the request that it first went into.
pub(crate) fn place_of(
    lives: &[MergeRoot],
    places: &[Option<usize>],
    request: Option<usize>,
) -> Option<usize>
    ensures own { IsPlaceOfOwn lives.now places.now request result }
    ensures within { (n : ℕ) → AreWithin n places.now → IfSome result (λ k. k < n) }
    ensures place { (o : Options) (m : Known) → AreLaidOut o m lives.now places.now → result ≡ option_and_then (place_in_end o m) request }
{
    let request = request?;
    if request >= lives.len() {
        return None;
    }
    let root = lives[request].root;
    if root >= places.len() {
        return None;
    }
    places[root]
}

/// The bios, with the places of the requests that they went out with.
fn bios_of<A: Allocator + Clone>(
    alloc: A,
    queued: &[QueuedBio],
    lives: &[MergeRoot],
    places: &[Option<usize>],
) -> Result<Vec<CapturedBio, A>, AllocError>
    ensures placed { IfOk result (λ v. ArePlacedBios lives.now places.now queued.now (length queued.now) v.items) }
    ensures are { IfOk result (λ v. AreToldBios lives.now places.now queued.now v.items) }
    ensures within { (n : ℕ) → AreWithin n places.now → IfOk result (λ v. AreGone n v.items) }
{
    let mut bios = Vec::with_capacity(alloc, queued.len())?;
    for bio in queued {
        bios.push(CapturedBio {
            dir: bio.range.dir,
            first: bio.range.first,
            sectors: bio.range.sectors(),
            pid: bio.pid,
            queued: bio.time,
            request: place_of(lives, places, bio.stage.request()),
        })?;
    }
    Ok(bios)
}

/// The place of the request that the bio of a number went out with.
fn bio_place(bios: &[CapturedBio], bio: usize) -> Option<usize>
    ensures within { (n : ℕ) → AreGone n bios.now → IfSome result (λ k. k < n) }
    ensures place { result ≡ option_and_then (λ b. b.request) (slice_get bios.now bio) }
{
    if bio >= bios.len() {
        return None;
    }
    bios[bio].request
}

/// What became of a record that is of the request at a place, or of one that is not taken.
fn fate_at(place: Option<usize>) -> Fate
    ensures matched { is_matched result ≡ true }
    ensures passed { passed_by result ≡ None }
    ensures below { (n : ℕ) → IfSome place (λ k. k < n) → IsTakenBelow n result }
    ensures value { result ≡ fate_at place }
{
    match place {
        Some(place) => Fate::Taken(place),
        None => Fate::LeftOut,
    }
}

/// What became of a record, by whether its bio or its request was taken.
fn fate_of(role: Role, bios: &[CapturedBio], lives: &[MergeRoot], places: &[Option<usize>]) -> Fate
    ensures matched { is_matched result ≡ is_known role }
    ensures passed { passed_by result ≡ passed_role role }
    ensures below { (n : ℕ) → AreWithin n places.now → AreGone n bios.now → IsTakenBelow n result }
    ensures fate { IsToldFate lives.now places.now bios.now role result }
{
    match role {
        Role::Bio(bio) => fate_at(bio_place(bios, bio)),
        Role::Request(request) => fate_at(place_of(lives, places, Some(request))),
        Role::Unmatched => Fate::Unmatched,
        Role::PassedOver(kind) => Fate::PassedOver(kind),
    }
}

/// The same of each record.
fn fates_of<A: Allocator + Clone>(
    alloc: A,
    roles: &[Role],
    bios: &[CapturedBio],
    lives: &[MergeRoot],
    places: &[Option<usize>],
) -> Result<Vec<Fate, A>, AllocError>
    ensures matched { IfOk result (λ v. map is_matched v.items ≡ map is_known roles.now) }
    ensures passed { IfOk result (λ v. map passed_by v.items ≡ map passed_role roles.now) }
    ensures below { (n : ℕ) → AreWithin n places.now → AreGone n bios.now → IfOk result (λ v. AreOfTaken n v.items) }
    ensures are { IfOk result (λ v. AreToldFates lives.now places.now bios.now roles.now v.items) }
{
    let mut fates = Vec::with_capacity(alloc, roles.len())?;
    for role in roles {
        fates.push(fate_of(*role, bios, lives, places))?;
    }
    Ok(fates)
}

/// The requests with the numbers of their bios, of which none is counted yet.
fn count_bios<A: Allocator + Clone>(
    requests: Vec<CapturedRequest, A>,
    bios: &[CapturedBio],
) -> Vec<CapturedRequest, A>
    requires { All (λ q. q.bios ≡ 0) requests.items }
    ensures { IsTalliedFrom requests.items result.items bios.now }
{
    let mut requests = requests;
    for bio in bios {
        if let Some(place) = bio.request {
            if place < requests.len() {
                let request = requests[place];
                requests[place] = CapturedRequest {
                    bios: request.bios + 1,
                    ..request
                };
            }
        }
    }
    requests
}

/// What a capture tells of requests.
#[derive(Drop)]
pub struct Matched<A: Allocator = Global> {
    /// The requests that are taken, in the order in which they went out.
    pub requests: Vec<CapturedRequest, A>,
    /// The bios that were queued.
    pub bios: Vec<CapturedBio, A>,
    /// By record, what became of it.
    pub fates: Vec<Fate, A>,
    /// How many requests were opened and then merged into others.
    pub absorbed: u64,
    /// How many of the others are not taken: they never went out, or were requeued.
    pub left_out: u64,
}

/// The place of the first record that has an earlier time than the one before it.
fn first_fall(records: &[Record]) -> Option<usize>
    ensures none { IfNone result (AreInOrder records.now (length records.now)) }
    ensures some { IfSome result (IsFirstFall records.now) }
{
    for place in 1..records.len() {
        if records[place].time < records[place - 1].time {
            return Some(place);
        }
    }
    None
}

/// The requests of what was matched, with their bios. Each list that was matched is given back before the next is made.
pub(crate) fn settle<A: Allocator + Clone>(
    alloc: A,
    matching: Matching<A>,
    roles: Vec<Role, A>,
    options: &Options,
) -> Result<Matched<A>, AllocError>
    requires coherent { IsCoherent options.now matching.clock.now (all_known matching) }
    requires paired { length matching.members.openers.items ≡ length matching.requests.items }
    ensures timed { IfOk result (λ m. AreTimed m.requests.items) }
    ensures due { IfOk result (λ m. All (IsDue options.now) m.requests.items) }
    ensures bios { IfOk result (λ m. HaveBios m.requests.items m.bios.items) }
    ensures tallied { IfOk result (λ m. AreTallied m.requests.items m.bios.items) }
    ensures gone { IfOk result (λ m. AreGone (length m.requests.items) m.bios.items) }
    ensures matched { IfOk result (λ m. map is_matched m.fates.items ≡ map is_known roles.items) }
    ensures passed { IfOk result (λ m. map passed_by m.fates.items ≡ map passed_role roles.items) }
    ensures below { IfOk result (λ m. AreOfTaken (length m.requests.items) m.fates.items) }
    ensures within { (r : Role) → IfOk result (λ m. IsTakenBelow (length m.requests.items) (fate_by options.now (all_known matching) r)) }
    ensures opened { IfOk result (λ m. all_opened m ≡ length matching.requests.items) }
    ensures made { IfOk result (λ m. length m.bios.items ≡ length matching.members.bios.items) }
    ensures taken { IfOk result (λ m. map uncounted m.requests.items ≡ all_taken options.now (all_known matching)) }
    ensures bios_are { IfOk result (λ m. m.bios.items ≡ all_bios options.now (all_known matching)) }
    ensures fates_are { IfOk result (λ m. m.fates.items ≡ map (fate_by options.now (all_known matching)) roles.items) }
    ensures absorbed { IfOk result (λ m. m.absorbed ≡ count_by (λ q. is_absorbed q.stage) matching.requests.items) }
{
    let lives = lives(
        alloc.clone()?,
        matching.requests.len(),
        matching.absorptions.as_slice(),
    )?;
    let taken = take_requests(alloc.clone()?, &matching, lives.as_slice(), options)?;
    let Taken { requests, places } = taken;
    let (absorbed, left_out) = count_others(matching.requests.as_slice(), places.as_slice());
    let Matching {
        members,
        requests: opened,
        ..
    } = matching;
    drop(opened);
    let bios = bios_of(
        alloc.clone()?,
        members.bios.as_slice(),
        lives.as_slice(),
        places.as_slice(),
    )?;
    drop(members);
    let fates = fates_of(
        alloc,
        roles.as_slice(),
        bios.as_slice(),
        lives.as_slice(),
        places.as_slice(),
    )?;
    drop(roles);
    Ok(Matched {
        requests: count_bios(requests, bios.as_slice()),
        bios,
        fates,
        absorbed,
        left_out,
    })
}

/// Matches the records of a capture to bios and requests, and takes those that went out. Which record belongs to which
/// request is found by the rules of the crate's page. What a record speaks of may be unknown, which stops nothing.
///
/// Refused as `Order` where a record has an earlier time than the one before it, and when out of memory. The time grows as n log n in
/// the number of records.
pub fn match_records<A: Allocator + Clone>(
    alloc: A,
    records: &[Record],
    options: &Options,
) -> Result<Matched<A>, CaptureFault>
    // in the order of their dispatches, none before its last bio
    ensures timed { IfOk result (λ m. AreTimed m.requests.items) }
    ensures due { IfOk result (λ m. All (IsDue options.now) m.requests.items) }
    ensures bios { IfOk result (λ m. HaveBios m.requests.items m.bios.items) }
    ensures tallied { IfOk result (λ m. AreTallied m.requests.items m.bios.items) }
    // a bio that went out did so with a request that is taken
    ensures gone { IfOk result (λ m. AreGone (length m.requests.items) m.bios.items) }
    ensures fates { IfOk result (λ m. length m.fates.items ≡ length records.now) }
    ensures passed { IfOk result (λ m. ArePassed records.now m.fates.items) }
    ensures below { IfOk result (λ m. AreOfTaken (length m.requests.items) m.fates.items) }
    // each request that a record opened is taken, was merged into another, or is left out
    ensures opened { IfOk result (λ m. all_opened m ≡ told opens records.now m.fates.items) }
    // each bio was made by a record
    ensures made { IfOk result (λ m. length m.bios.items ≡ told makes records.now m.fates.items) }
    // by the rules, letter by letter
    ensures matching { IfOk result (λ m. IsMatching options.now records.now m.requests.items m.bios.items m.fates.items m.absorbed) }
    ensures order { OnOk result (AreInOrder records.now (length records.now)) }
    ensures fault { IfErr result (IsCaptureFault records.now) }
{
    if let Some(place) = first_fall(records) {
        return Err(CaptureFault::Order(place));
    }
    match match_in_order(alloc, records, options) {
        Ok(matched) => Ok(matched),
        Err(_) => Err(CaptureFault::Memory),
    }
}

/// The same of records whose times don't fall.
fn match_in_order<A: Allocator + Clone>(
    alloc: A,
    records: &[Record],
    options: &Options,
) -> Result<Matched<A>, AllocError>
    requires { AreInOrder records.now (length records.now) }
    ensures timed { IfOk result (λ m. AreTimed m.requests.items) }
    ensures due { IfOk result (λ m. All (IsDue options.now) m.requests.items) }
    ensures bios { IfOk result (λ m. HaveBios m.requests.items m.bios.items) }
    ensures tallied { IfOk result (λ m. AreTallied m.requests.items m.bios.items) }
    ensures gone { IfOk result (λ m. AreGone (length m.requests.items) m.bios.items) }
    ensures fates { IfOk result (λ m. length m.fates.items ≡ length records.now) }
    ensures passed { IfOk result (λ m. ArePassed records.now m.fates.items) }
    ensures below { IfOk result (λ m. AreOfTaken (length m.requests.items) m.fates.items) }
    ensures opened { IfOk result (λ m. all_opened m ≡ told opens records.now m.fates.items) }
    ensures made { IfOk result (λ m. length m.bios.items ≡ told makes records.now m.fates.items) }
    ensures matching { IfOk result (λ m. IsMatching options.now records.now m.requests.items m.bios.items m.fates.items m.absorbed) }
{
    let mut matching = Matching::new(alloc.clone()?, options)?;
    let mut roles = Vec::with_capacity(alloc.clone()?, records.len())?;
    for (place, record) in records.iter().enumerate() {
        matching.set_time(record.time);
        let role = matching.take(place as u64, record)?;
        roles.push(role)?;
    }
    settle(alloc, matching, roles, options)
}

/// Counts requests in rounds, as [`crate::count_rounds`] does, each released by its last bio: the one at place k ran in round k + 1, and
/// after its due round exactly where it went out after its deadline. At most [`edd_commands::MAX_COMMANDS`] requests.
pub fn rounds_of<A: Allocator + Clone>(
    alloc: A,
    requests: &[CapturedRequest],
) -> Result<CountedSchedule<A>, AllocError>
    requires timed { AreTimed requests.now }
    requires few { length requests.now ≤ MAX_COMMANDS }
    ensures counted { IfOk result (λ s. AreInRounds (map times_of requests.now) s.commands.items s.rounds.items) }
    ensures legal { IfOk result (λ s. IsLegal s.commands.items s.rounds.items (fixed 1)) }
    ensures late { IfOk result (λ s. AgreeOnLateness requests.now s.commands.items s.rounds.items) }
    ensures solvable { IfOk result (λ s. AreSolvable s.commands.items) }
    ensures in_range { IfOk result (λ s. RoundsInRange s.rounds.items) }
{
    let served = served(alloc.clone()?, requests)?;
    count_rounds(alloc, served.as_slice())
}

/// The parts of requests that are counted in rounds.
fn served<A: Allocator>(
    alloc: A,
    requests: &[CapturedRequest],
) -> Result<Vec<TimedRequest, A>, AllocError>
    ensures { IfOk result (λ v. v.items ≡ map times_of requests.now) }
{
    requests
        .iter()
        .map(|request| TimedRequest {
            release: request.released,
            deadline: request.deadline,
            dispatch: request.dispatched,
        })
        .collect(alloc)
}
