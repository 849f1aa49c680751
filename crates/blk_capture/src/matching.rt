//! The requests of a capture, matched from its records, one rule for each action.

ghost use Rattle.std.specs.Prelude.{◌≡◌, ◌+◌, ◌≤◌, ◌<◌, ◌^◌, ◌++◌, ◌∷◌, [], IfOk, OnOk, IfSome, IfNone, None, Some, true, false, length, is_some, slice_get, slice_set};
ghost use Rattle.blk_capture.specs.Passing.{passed_over};
ghost use Rattle.blk_capture.specs.Ranges.{IsBeside};
ghost use Rattle.blk_capture.specs.Rules.{is_waiting, is_opened, is_inserted, is_in_flight, nothing_known, queued, completed, grows, put_bio, put_request, FindsWaitingBio, FindsLongerBio, FindsWaiting, FindsEntering, FindsEnding, FindsOldestOf, FindsOpenedFrom, FindsLonger, FindsOwnBeside, FindsInsertedBeside, FindsAbutting, IsTold};
ghost use Rattle.blk_capture.specs.Inside.Roles.{passed_role};
ghost use Rattle.blk_capture.specs.Inside.Matchings.{all_known, told_of, IsSound, KeepsRest, IsCutIn, IsGotIn, IsMergedIn, IsBioMergedIn, IsAbsorbedIn, TakesIn, IsInsertedIn, IsIssuedIn, IsCompletedIn, IsRequeuedIn};

use crate::clock::Clock;
use crate::index::RequestIndex;
use crate::lookup::{KeyIndex, LookupKey};
use crate::members::{BioStage, Members, QueuedBio};
use crate::opened::{Absorption, Opened, Stage};
use crate::record::{Action, PassReason, Range, Record};
use crate::requests::{Options, deadline_of, entry_of, sooner};
use blk_bio::Side;
use std::alloc::{AllocError, Allocator, Global};

/// What a record of a capture belongs to.
#[derive(Clone, Copy, Debug)]
pub(crate) enum Role {
    /// It made the bio of a number.
    Bio(usize),
    /// It belongs to the request of a number.
    Request(usize),
    /// Its bio or request isn't known.
    Unmatched,
    /// It is passed over.
    PassedOver(PassReason),
}

/// All that is known of a capture's bios and requests so far.
#[derive(Drop)]
pub(crate) struct Matching<A: Allocator = Global> {
    pub(crate) options: Options,
    pub(crate) clock: Clock<A>,
    pub(crate) members: Members<A>,
    pub(crate) requests: Vec<Opened, A>,
    pub(crate) absorptions: Vec<Absorption, A>,
    /// Bios that wait.
    pub(crate) waiting: KeyIndex<A>,
    /// Requests that wait or are at the device.
    pub(crate) index: RequestIndex<A>,
}

impl<A: Allocator + Clone> Matching<A> {
    /// Nothing yet.
    pub(crate) fn new(alloc: A, options: &Options) -> Result<Matching<A>, AllocError>
        ensures known { IfOk result (λ m. all_known m ≡ nothing_known) }
        ensures sound { IfOk result IsSound }
        ensures options { IfOk result (λ m. m.options ≡ options.now) }
        ensures now { IfOk result (λ m. m.clock.now ≡ 0) }
    {
        Ok(Matching {
            options: *options,
            clock: Clock::new(alloc.clone()?),
            members: Members::new(alloc.clone()?)?,
            requests: Vec::new(alloc.clone()?),
            absorptions: Vec::new(alloc.clone()?),
            waiting: KeyIndex::new(alloc.clone()?),
            index: RequestIndex::new(alloc)?,
        })
    }

    /// Goes on to a time, which is no earlier.
    pub(crate) fn set_time(&mut self, time: u64)
        requires { self.old.clock.now ≤ time }
        ensures known { all_known self.new ≡ all_known self.old }
        ensures sound { IsSound self.old → IsSound self.new }
        ensures options { self.new.options ≡ self.old.options }
        ensures now { self.new.clock.now ≡ time }
    {
        let _ = self.clock.set(time);
    }

    /// Takes in the record of a number, at its time.
    pub(crate) fn take(&mut self, number: u64, record: &Record) -> Result<Role, AllocError>
        requires sound { IsSound self.old }
        requires few { number < 2 ^ 63 }
        requires time { self.old.clock.now ≡ «record».now.time }
        ensures told { IfOk result (λ r. IsTold self.old.options number «record».now (all_known self.old) (told_of self.new r)) }
        ensures sound { OnOk result (IsSound self.new) }
        ensures rest { OnOk result (KeepsRest self.old self.new) }
        ensures passed { IfOk result (λ r. passed_role r ≡ passed_over «record».now) }
    {
        let range = match Range::of(record) {
            Ok(range) => range,
            Err(kind) => return Ok(Role::PassedOver(kind)),
        };
        match record.action {
            Action::Queue => self.queue(number, record.pid, range),
            Action::Get => self.get(number, record.pid, record.cpu, range),
            Action::BackMerge => self.merge(record.pid, range, Side::Back),
            Action::FrontMerge => self.merge(record.pid, range, Side::Front),
            Action::Insert => self.insert(number, range),
            Action::Issue => self.issue(range),
            Action::Complete => self.complete(range),
            Action::Requeue => self.requeue(range),
            Action::Split => self.split(range),
            // passed over before
            Action::Plug | Action::Unplug | Action::Other => Ok(Role::Unmatched),
        }
    }

    /// The oldest waiting bio of a range.
    fn waiting_bio(&self, range: Range) -> Option<(usize, QueuedBio)>
        requires { IsSound self.now }
        ensures { FindsWaitingBio range self.now.members.bios.items result }
    {
        match self.waiting.oldest(LookupKey::whole(range)) {
            Some(number) => Some((number, self.members.bios[number])),
            None => None,
        }
    }

    /// The waiting bio that begins with a range and is longer: the shortest, of several the oldest.
    fn longer_bio(&self, range: Range) -> Option<(usize, QueuedBio)>
        requires sound { IsSound self.now }
        requires low { range.end < 2 ^ 63 }
        ensures { FindsLongerBio range self.now.members.bios.items result }
    {
        match self.waiting.longer(range) {
            Some(number) => Some((number, self.members.bios[number])),
            None => None,
        }
    }

    /// The oldest request of a range that was opened and not inserted.
    fn opened_of(&self, range: Range) -> Option<(usize, Opened)>
        requires { IsSound self.now }
        ensures { FindsOldestOf is_opened range self.now.requests.items result }
    {
        match self.index.opened.wholes.oldest(LookupKey::whole(range)) {
            Some(number) => Some((number, self.requests[number])),
            None => None,
        }
    }

    /// The oldest one that was inserted and did not go out.
    fn inserted_of(&self, range: Range) -> Option<(usize, Opened)>
        requires { IsSound self.now }
        ensures { FindsOldestOf is_inserted range self.now.requests.items result }
    {
        match self.index.inserted.wholes.oldest(LookupKey::whole(range)) {
            Some(number) => Some((number, self.requests[number])),
            None => None,
        }
    }

    /// The oldest one at the device.
    fn at_device(&self, range: Range) -> Option<(usize, Opened)>
        requires { IsSound self.now }
        ensures { FindsOldestOf is_in_flight range self.now.requests.items result }
    {
        match self.index.in_flight.oldest(LookupKey::whole(range)) {
            Some(number) => Some((number, self.requests[number])),
            None => None,
        }
    }

    /// The oldest one that was opened and not inserted and begins with a range.
    fn opened_from(&self, range: Range) -> Option<(usize, Opened)>
        requires { IsSound self.now }
        ensures { FindsOpenedFrom range self.now.requests.items result }
    {
        let start = LookupKey::edge(range, range.first, 0);
        match self.index.starts.oldest(start) {
            Some(number) => Some((number, self.requests[number])),
            None => None,
        }
    }

    /// The one at the device whose rest begins with a range and is longer: the shortest, of several the oldest.
    fn longer_at_device(&self, range: Range) -> Option<(usize, Opened)>
        requires sound { IsSound self.now }
        requires low { range.end < 2 ^ 63 }
        ensures { FindsLonger range self.now.requests.items result }
    {
        match self.index.in_flight.longer(range) {
            Some(number) => Some((number, self.requests[number])),
            None => None,
        }
    }

    /// Of the requests that a newcomer abuts at a side the newest that its process opened and that is not inserted.
    fn own_beside(&self, pid: u64, range: Range, side: Side) -> Option<(usize, Opened)>
        requires { IsSound self.now }
        ensures { FindsOwnBeside side pid range self.now.requests.items result }
    {
        match self.index.opened.newest(range, side, pid) {
            Some(number) => Some((number, self.requests[number])),
            None => None,
        }
    }

    /// The oldest that was inserted and did not go out.
    fn inserted_beside(&self, range: Range, side: Side) -> Option<(usize, Opened)>
        requires { IsSound self.now }
        ensures { FindsInsertedBeside side range self.now.requests.items result }
    {
        match self.index.inserted.oldest(range, side, 0) {
            Some(number) => Some((number, self.requests[number])),
            None => None,
        }
    }

    /// Of the requests of a range: the oldest that was inserted and did not go out, else the oldest that was opened and not inserted.
    fn waiting_request(&self, range: Range) -> Option<(usize, Opened)>
        requires { IsSound self.now }
        ensures { FindsWaiting range self.now.requests.items result }
    {
        match self.inserted_of(range) {
            Some(found) => Some(found),
            None => self.opened_of(range),
        }
    }

    /// The oldest request of a range that was opened and not inserted, else the oldest of the direction and first sector.
    fn entering(&self, range: Range) -> Option<(usize, Opened)>
        requires { IsSound self.now }
        ensures { FindsEntering range self.now.requests.items result }
    {
        match self.opened_of(range) {
            Some(found) => Some(found),
            None => self.opened_from(range),
        }
    }

    /// The oldest request at the device of which just the range is left, else the shortest whose rest begins with it.
    fn ending(&self, range: Range) -> Option<(usize, Opened)>
        requires sound { IsSound self.now }
        requires low { range.end < 2 ^ 63 }
        ensures { FindsEnding range self.now.requests.items result }
    {
        match self.at_device(range) {
            Some(found) => Some(found),
            None => self.longer_at_device(range),
        }
    }

    /// Of the requests that a newcomer abuts at a side: the newest of the same process that was not inserted, else the oldest that was
    /// and did not go out.
    fn abutting(&self, pid: u64, range: Range, side: Side) -> Option<(usize, Opened)>
        requires { IsSound self.now }
        ensures { FindsAbutting side pid range self.now.requests.items result }
    {
        match self.own_beside(pid, range, side) {
            Some(found) => Some(found),
            None => self.inserted_beside(range, side),
        }
    }

    /// Puts a request in another state, and lists it where it waits then.
    fn replace(&mut self, number: usize, old: Opened, new: Opened) -> Result<(), AllocError>
        requires sound { IsSound self.old }
        requires there { slice_get self.old.requests.items number ≡ Some old }
        requires aged { new.age < 2 ^ 63 }
        ensures known { OnOk result (all_known self.new ≡ put_request number new (all_known self.old)) }
        ensures sound { OnOk result (IsSound self.new) }
        ensures rest { OnOk result (KeepsRest self.old self.new) }
    {
        self.requests[number] = new;
        self.index.change(number, &old, &new)
    }

    /// A bio waits no more.
    fn leave(&mut self, number: usize, old: QueuedBio, new: QueuedBio)
        requires sound { IsSound self.old }
        requires there { slice_get self.old.members.bios.items number ≡ Some old }
        requires waits { is_waiting old.stage ≡ true }
        requires gone { is_waiting new.stage ≡ false }
        ensures known { all_known self.new ≡ put_bio number new (all_known self.old) }
        ensures sound { IsSound self.new }
        ensures rest { KeepsRest self.old self.new }
    {
        self.waiting
            .take(LookupKey::whole(old.range), old.age, number);
        self.members.change(number, new);
    }

    /// A bio is queued. Of one range the first queued goes first.
    fn queue(&mut self, number: u64, pid: u64, range: Range) -> Result<Role, AllocError>
        requires sound { IsSound self.old }
        ensures told { IfOk result (λ r. told_of self.new r ≡ queued number pid range self.old.clock.now (all_known self.old)) }
        ensures sound { OnOk result (IsSound self.new) }
        ensures rest { OnOk result (KeepsRest self.old self.new) }
    {
        let place = self.members.queue(QueuedBio {
            range,
            pid,
            time: self.clock.now,
            age: number,
            stage: BioStage::Waiting,
        })?;
        self.waiting.put(LookupKey::whole(range), number, place)?;
        Ok(Role::Bio(place))
    }

    /// A waiting bio that begins with the range is cut where the range ends. Both parts wait since the bio was queued.
    fn split(&mut self, range: Range) -> Result<Role, AllocError>
        requires sound { IsSound self.old }
        requires low { range.end < 2 ^ 63 }
        ensures told { IfOk result (IsCutIn range self.old self.new) }
        ensures sound { OnOk result (IsSound self.new) }
        ensures rest { OnOk result (KeepsRest self.old self.new) }
    {
        let Some((number, bio)) = self.longer_bio(range) else {
            return Ok(Role::Unmatched);
        };
        let end = bio.range.end;
        let rest = Range {
            first: range.end,
            end,
            ..bio.range
        };
        self.waiting
            .take(LookupKey::whole(bio.range), bio.age, number);
        self.members.change(number, QueuedBio { range, ..bio });
        self.waiting.put(LookupKey::whole(range), bio.age, number)?;
        let second = self.members.queue(QueuedBio { range: rest, ..bio })?;
        self.waiting.put(LookupKey::whole(rest), bio.age, second)?;
        Ok(Role::Bio(second))
    }

    /// A request is opened for the oldest waiting bio of the range.
    fn get(&mut self, number: u64, pid: u64, cpu: u64, range: Range) -> Result<Role, AllocError>
        requires sound { IsSound self.old }
        requires few { number < 2 ^ 63 }
        ensures told { IfOk result (IsGotIn number pid cpu range self.old self.new) }
        ensures sound { OnOk result (IsSound self.new) }
        ensures rest { OnOk result (KeepsRest self.old self.new) }
    {
        let Some((place, bio)) = self.waiting_bio(range) else {
            return Ok(Role::Unmatched);
        };
        let request = self.requests.len();
        self.waiting
            .take(LookupKey::whole(bio.range), bio.age, place);
        let stage = BioStage::Into(request);
        self.members.open(place, QueuedBio { stage, ..bio })?;
        let opened = Opened {
            range,
            pid,
            cpu,
            queued: bio.time,
            got: self.clock.now,
            inserted: None,
            merged: None,
            earlier: None,
            completed: None,
            stage: Stage::Opened,
            left: range,
            age: number,
        };
        self.requests.push(opened)?;
        self.index.put(request, &opened)?;
        Ok(Role::Request(request))
    }

    /// A bio is merged into a request that it abuts, or, where no bio of the range waits, a request into the one that ends where it
    /// begins. A bio whose request isn't known waits no more.
    fn merge(&mut self, pid: u64, range: Range, side: Side) -> Result<Role, AllocError>
        requires sound { IsSound self.old }
        requires some { range.first < range.end }
        ensures told { IfOk result (IsMergedIn side pid range self.old self.new) }
        ensures sound { OnOk result (IsSound self.new) }
        ensures rest { OnOk result (KeepsRest self.old self.new) }
    {
        let waiting = self.waiting_bio(range);
        let abutting = self.abutting(pid, range, side);
        match waiting {
            Some((number, bio)) => self.merge_bio(number, bio, range, side, abutting),
            None => self.merge_request(range, side, abutting),
        }
    }

    /// A waiting bio goes into a request, if that is known.
    fn merge_bio(
        &mut self,
        number: usize,
        bio: QueuedBio,
        range: Range,
        side: Side,
        abutting: Option<(usize, Opened)>,
    ) -> Result<Role, AllocError>
        requires sound { IsSound self.old }
        requires there { slice_get self.old.members.bios.items number ≡ Some bio }
        requires waits { is_waiting bio.stage ≡ true }
        requires abuts { IfSome abutting (λ p. slice_get self.old.requests.items p.0 ≡ Some p.1) }
        ensures told { IfOk result (IsBioMergedIn side range (number, bio) abutting self.old self.new) }
        ensures sound { OnOk result (IsSound self.new) }
        ensures rest { OnOk result (KeepsRest self.old self.new) }
    {
        match abutting {
            Some((request, opened)) => {
                let stage = BioStage::Into(request);
                self.leave(number, bio, QueuedBio { stage, ..bio });
                let new = self.grown(opened, range, side);
                self.replace(request, opened, new)?;
                Ok(Role::Request(request))
            }
            None => {
                let stage = BioStage::Unknown;
                self.leave(number, bio, QueuedBio { stage, ..bio });
                Ok(Role::Unmatched)
            }
        }
    }

    /// A request that grew now, at a side, by a range that it abuts. Of one that was requeued after a part was done the rest grows too.
    fn grown(&self, opened: Opened, range: Range, side: Side) -> Opened
        ensures { result ≡ grows side range self.now.clock.now opened }
    {
        Opened {
            range: opened.range.grown(range, side),
            left: opened.left.grown(range, side),
            merged: Some(self.clock.now),
            ..opened
        }
    }

    /// A waiting request of a range goes into the one that the range abuts at the back.
    fn merge_request(
        &mut self,
        range: Range,
        side: Side,
        abutting: Option<(usize, Opened)>,
    ) -> Result<Role, AllocError>
        requires sound { IsSound self.old }
        requires some { range.first < range.end }
        requires abuts { IfSome abutting (λ p. slice_get self.old.requests.items p.0 ≡ Some p.1) }
        requires beside { IfSome abutting (λ p. IsBeside side range p.1.left) }
        ensures told { IfOk result (IsAbsorbedIn side range abutting self.old self.new) }
        ensures sound { OnOk result (IsSound self.new) }
        ensures rest { OnOk result (KeepsRest self.old self.new) }
    {
        let Some((request, opened)) = abutting else {
            return Ok(Role::Unmatched);
        };
        match side {
            Side::Back => self.absorb(range, request, opened),
            Side::Front => Ok(Role::Unmatched),
        }
    }

    /// A waiting request of a range, inserted or not, goes into another.
    fn absorb(&mut self, range: Range, into: usize, opened: Opened) -> Result<Role, AllocError>
        requires sound { IsSound self.old }
        requires some { range.first < range.end }
        requires abuts { slice_get self.old.requests.items into ≡ Some opened }
        requires beside { opened.left.end ≡ range.first }
        ensures told { IfOk result (TakesIn range (into, opened) self.old self.new) }
        ensures sound { OnOk result (IsSound self.new) }
        ensures rest { OnOk result (KeepsRest self.old self.new) }
    {
        let Some((request, other)) = self.waiting_request(range) else {
            return Ok(Role::Unmatched);
        };
        let entry = entry_of(&other, &self.options);
        let due = deadline_of(&self.options, other.range.dir, entry, other.earlier);
        let stage = Stage::Absorbed;
        self.replace(request, other, Opened { stage, ..other })?;
        let earlier = Some(sooner(opened.earlier, due));
        let new = self.grown(Opened { earlier, ..opened }, range, Side::Back);
        self.replace(into, opened, new)?;
        self.absorptions.push(Absorption { request, into })?;
        Ok(Role::Request(into))
    }

    /// The oldest request of the direction and first sector that was not inserted yet, one of equal size first, is inserted.
    fn insert(&mut self, number: u64, range: Range) -> Result<Role, AllocError>
        requires sound { IsSound self.old }
        requires few { number < 2 ^ 63 }
        ensures told { IfOk result (IsInsertedIn number range self.old self.new) }
        ensures sound { OnOk result (IsSound self.new) }
        ensures rest { OnOk result (KeepsRest self.old self.new) }
    {
        let Some((request, opened)) = self.entering(range) else {
            return Ok(Role::Unmatched);
        };
        let new = Opened {
            stage: Stage::Inserted,
            inserted: Some(self.clock.now),
            age: number,
            ..opened
        };
        self.replace(request, opened, new)?;
        Ok(Role::Request(request))
    }

    /// The oldest request of the range that was inserted goes out, else the oldest that was opened: what a scheduler passes by, as a
    /// request that is handed to the device directly, has no insertion.
    fn issue(&mut self, range: Range) -> Result<Role, AllocError>
        requires sound { IsSound self.old }
        ensures told { IfOk result (IsIssuedIn range self.old self.new) }
        ensures sound { OnOk result (IsSound self.new) }
        ensures rest { OnOk result (KeepsRest self.old self.new) }
    {
        let Some((request, opened)) = self.waiting_request(range) else {
            return Ok(Role::Unmatched);
        };
        let stage = Stage::InFlight(self.clock.dispatch(request)?);
        self.replace(request, opened, Opened { stage, ..opened })?;
        Ok(Role::Request(request))
    }

    /// The oldest request at the device of which just the range is left is completed, or the first part of one.
    fn complete(&mut self, range: Range) -> Result<Role, AllocError>
        requires sound { IsSound self.old }
        requires low { range.end < 2 ^ 63 }
        ensures told { IfOk result (IsCompletedIn range self.old self.new) }
        ensures sound { OnOk result (IsSound self.new) }
        ensures rest { OnOk result (KeepsRest self.old self.new) }
    {
        let Some((request, opened)) = self.ending(range) else {
            return Ok(Role::Unmatched);
        };
        let new = self.done(opened, range);
        self.replace(request, opened, new)?;
        Ok(Role::Request(request))
    }

    /// A request at the device of which a range was done now.
    fn done(&self, opened: Opened, range: Range) -> Opened
        ensures { result ≡ completed range self.now.clock.now opened }
    {
        if range.end < opened.left.end {
            let left = Range {
                first: range.end,
                ..opened.left
            };
            return Opened { left, ..opened };
        }
        let stage = match opened.stage {
            Stage::InFlight(dispatch) => Stage::Completed(dispatch),
            stage => stage,
        };
        Opened {
            stage,
            completed: Some(self.clock.now),
            ..opened
        }
    }

    /// The oldest request at the device of which just the range is left is requeued, to where it waited before.
    fn requeue(&mut self, range: Range) -> Result<Role, AllocError>
        requires sound { IsSound self.old }
        ensures told { IfOk result (IsRequeuedIn range self.old self.new) }
        ensures sound { OnOk result (IsSound self.new) }
        ensures rest { OnOk result (KeepsRest self.old self.new) }
    {
        let Some((request, opened)) = self.at_device(range) else {
            return Ok(Role::Unmatched);
        };
        let stage = if opened.inserted.is_some() {
            Stage::Inserted
        } else {
            Stage::Opened
        };
        self.replace(request, opened, Opened { stage, ..opened })?;
        Ok(Role::Request(request))
    }
}
