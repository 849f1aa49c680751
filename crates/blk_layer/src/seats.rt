//! The seats of a layer: what a submitter and a worker have for themselves.

ghost use Rattle.std.specs.Prelude.{true, false, ◌≡◌, ◌++◌, OnErr, IfSome, IfNone, ◌<◌, ◌≤◌, ◌+◌, [], ℕ, IfOk, IfErr, OnOk, All, length, map, replicate, vec_len, slice_get, Some, None, Contains};
ghost use Rattle.blk_trace.specs.Events.{AreOnce};
ghost use Rattle.blk_core.specs.Calls.{Completes, RequeuesTag};
ghost use Rattle.blk_layer.specs.Seats.{AreOwn, HoldsItsTags, new_submitter, new_worker};
ghost use Rattle.blk_layer.specs.Submitting.{CanAccept, IsFlushReason};
ghost use Rattle.blk_layer.specs.Serving.{TakesInHand, AccountsFor, LetsGo, IsInHand, IsIssueAnswer};
ghost use Rattle.blk_layer.specs.Closing.{all_ran};
ghost use Rattle.blk_layer.specs.Inside.Submitting.{IsOfBios};
ghost use Rattle.blk_layer.specs.Inside.Serving.{IssuesTo};
ghost use Rattle.blk_layer.specs.Inside.Next.{IsNoNext, WantsTag, TakesTag, KeepsTags, TriesEach};

use crate::accounts::Account;
use crate::layer::Named;
use crate::locked::LockedCore;
use crate::serving::Issued;
use crate::submitting::{FlushReason, first_foreign};
use blk_bio::Bio;
use blk_core::{BackFault, IssueFault, NoneIssued, NotIssued};
use blk_sched::Scheduler;
use blk_tags::{TagSeat, TagSet};
use edd_commands::Command;
use std::alloc::{AllocError, Allocator, Global};
use std::marker::{Model, PhantomData};
use std::sync::ledger::{Book, Share};

/// Why a worker is issued no next command.
#[derive(Clone, Copy, Debug, PartialEq, Eq)]
pub(crate) enum NoNext {
    /// Each tag was tried, and is taken.
    NoTag,
    /// Why the last try issued none. Out of memory also for the worker's account; a tag that is used up in the round only where as many
    /// were tried as there are.
    Tried(NoneIssued),
}

/// A submitter's seat: the software queue that is its own, and the account of its bios that were accepted.
#[derive(Drop)]
pub struct Submitter<L: Named, A: Allocator = Global> {
    number: u8,
    account: Account<A>,
    of: PhantomData<L>,
}

impl<L: Named, A: Allocator> Model for Submitter<L, A> {
    ghost use Rattle.std.specs.Prelude.{◌≡◌, All};
    ghost use Rattle.blk_layer.specs.Seats.{SubmitterSeat, AreOwn};

    ghost Value = { SubmitterSeat };

    ghost view = { λ s. record { number = s.number; accepted = s.account } };

    ghost invariant = { λ s. AreOwn s.number s.account };
}

impl<L: Named, A: Allocator + Clone> Submitter<L, A> {
    /// The submitter of a software queue, of which nothing was accepted. Fails only when memory runs out.
    fn new(alloc: A, number: u8) -> Result<Submitter<L, A>, AllocError>
        ensures { IfOk result (λ s. s ≡ new_submitter number) }
    {
        Ok(Submitter {
            number,
            account: Account::new(alloc)?,
            of: PhantomData,
        })
    }

    /// The bios of which a flush said that they were accepted, in that order: all of this submitter, and no two of one id.
    pub fn accepted(&self) -> &[Bio]
        ensures value { result.now ≡ self.now.accepted }
        ensures own { AreOwn self.now.number self.now.accepted }
        ensures once { AreOnce self.now.accepted }
    {
        // Reads nothing that counts: the prover gets the invariant, by which all are the submitter's own.
        let _ = self.number;
        self.account.bios()
    }

    /// The number of its software queue, below the number of software queues.
    pub fn number(&self) -> u8
        ensures { result ≡ self.now.number }
    {
        self.number
    }

    /// The first reason not to accept bios, memory and the software queue aside.
    pub(crate) fn refusal(&self, bios: &[Bio]) -> Option<FlushReason>
        ensures some { IfSome result (IsFlushReason self.now bios.now) }
        ensures kind { IfSome result IsOfBios }
        ensures none { IfNone result (CanAccept self.now bios.now) }
    {
        if let Some(id) = first_foreign(self.number, bios) {
            return Some(FlushReason::Foreign(id));
        }
        match self.account.first_repeated(bios) {
            Some(id) => Some(FlushReason::Repeated(id)),
            None => None,
        }
    }

    /// Accepts bios that may be accepted. Fails only when memory runs out, and nothing is changed then.
    pub(crate) fn accept(&mut self, bios: &[Bio]) -> Result<(), AllocError>
        requires { CanAccept self.old bios.now }
        ensures ok { OnOk result (self.new ≡ record { number = self.old.number; accepted = self.old.accepted ++ bios.now }) }
        ensures err { OnErr result (self.new ≡ self.old) }
    {
        self.account.add(bios)
    }
}

/// `count` submitters, of the software queues from 0 on.
pub(crate) fn seat_submitters<L: Named, A: Allocator + Clone>(
    alloc: &A,
    count: u8,
) -> Result<Vec<Submitter<L, A>, A>, AllocError>
    ensures count { IfOk result (λ all. length all.items ≡ count) }
    ensures each { IfOk result (λ all. (k : ℕ) → k < count → slice_get all.items k ≡ Some (new_submitter k)) }
{
    let mut all = Vec::with_capacity(alloc.clone()?, usize::from(count))?;
    for number in 0..count {
        all.push(Submitter::new(alloc.clone()?, number)?)?;
    }
    Ok(all)
}

/// A worker's seat: the hardware queue that it works for, the commands in its hands with their tags, the account of the
/// commands that it ran, and its part of the ledger. Where it is dropped its tags stay taken, and no close is Ok any more.
#[derive(Drop)]
pub struct Worker<L: Named, A: Allocator = Global> {
    pub(crate) hw: u8,
    pub(crate) seat: TagSeat<A>,
    /// The commands in its hands, by tag.
    pub(crate) hands: Vec<Option<Command>, A>,
    /// Its account, which has room for the commands in its hands.
    pub(crate) ran: Vec<Command, A>,
    pub(crate) share: Share<L>,
}

impl<L: Named, A: Allocator> Model for Worker<L, A> {
    ghost use Rattle.std.specs.Prelude.{vec_capacity};
    ghost use Rattle.blk_layer.specs.Seats.{WorkerSeat};
    ghost use Rattle.blk_layer.specs.Inside.Seats.{IsWorkingAt};

    ghost Value = { WorkerSeat };

    ghost view = { λ w. record {
      tag_set = w.seat.of_set;
      hw = w.hw;
      tags = w.seat.tags;
      hands = w.hands.items;
      ran = w.ran.items;
    } };

    ghost invariant = { λ w. IsWorkingAt L.setup L.queues w.hw w.seat w.hands.items w.ran.items (vec_capacity w.ran) w.share.parts w.share.amount };
}

impl<L: Named, A: Allocator + Clone> Worker<L, A> {
    /// A worker with nothing in its hands, which ran nothing. Fails only when memory runs out.
    fn new(
        alloc: A,
        seat: TagSeat<A>,
        share: Share<L>,
        hw: u8,
        depth: u64,
    ) -> Result<Worker<L, A>, AllocError>
        requires depth { (seat.of_set.depth ≡ depth) × (depth ≡ L.setup.depth) }
        requires seat { seat.tags ≡ [] }
        requires share { (share.parts ≡ 1) × (share.amount ≡ 0) }
        requires queue { hw < L.setup.hw }
        requires one { Contains L.queues hw }
        ensures { IfOk result (λ w. w ≡ new_worker seat.of_set hw) }
    {
        let hands = empty_hands(alloc.clone()?, depth)?;
        Ok(Worker {
            hw,
            seat,
            hands,
            ran: Vec::new(alloc),
            share,
        })
    }

    /// The commands that were accepted from it as done, in the order in which they were. The tags that it holds are just
    /// those of the commands in its hands.
    pub fn ran(&self) -> &[Command]
        ensures value { result.now ≡ self.now.ran }
        ensures holds { HoldsItsTags self.now }
    {
        // Here and below: reads nothing that counts, and the prover gets the worker's view.
        let _ = self.hw;
        self.ran.as_slice()
    }

    /// The hardware queue that it works for, below the number of hardware queues.
    pub fn hw(&self) -> u8
        ensures value { result ≡ self.now.hw }
        ensures there { result < L.setup.hw }
    {
        self.hw
    }

    /// Makes room in its account for the commands that it may have in its hands. Fails only when memory runs out.
    pub(crate) fn make_room(&mut self) -> Result<(), AllocError>
        ensures { self.new ≡ self.old }
    {
        self.ran.reserve(self.hands.len())
    }

    /// The command in its hands under a tag.
    pub(crate) fn in_hand(&self, tag: u16) -> Option<Command>
        ensures some { IfSome result (λ command. slice_get self.now.hands tag ≡ Some (Some command)) }
        ensures none { IfNone result (¬ Contains self.now.tags tag) }
    {
        // brings the prover the worker's invariant
        let _ = self.hw;
        if usize::from(tag) >= self.hands.len() {
            return None;
        }
        self.hands[usize::from(tag)]
    }

    /// Reports to the core as done the command in its hands under a tag. The tag is given back under the core's lock.
    pub(crate) fn done<S: Scheduler<A = A>>(
        &mut self,
        core: &mut LockedCore<S, L>,
        tags: &TagSet<A>,
        tag: u16,
    ) -> Result<(), NotIssued>
        requires { self.old.tag_set ≡ tags.now }
        ensures done { OnOk result (AccountsFor self.old tag self.new) }
        ensures core { OnOk result (Completes S.policy.told_done core.old.core tag core.new.core) }
        ensures same { OnErr result (self.new ≡ self.old) }
    {
        let Some(command) = self.in_hand(tag) else {
            return Err(NotIssued);
        };
        core.done(&mut self.share, tag)?;
        self.hands[usize::from(tag)] = None;
        self.ran.push_reserved(command);
        tags.give(&mut self.seat, tag);
        Ok(())
    }

    /// Requeues the command in its hands under a tag, as `Layer::back` says.
    pub(crate) fn back<S: Scheduler<A = A>>(
        &mut self,
        core: &mut LockedCore<S, L>,
        tags: &TagSet<A>,
        tag: u16,
    ) -> Result<u64, BackFault>
        requires { self.old.tag_set ≡ tags.now }
        ensures back { IfOk result (λ id. LetsGo self.old tag id self.new) }
        ensures core { IfOk result (λ _. (id : ℕ) × RequeuesTag core.old.core tag id core.new.core) }
        ensures fault { IfErr result (λ why. why ≡ BackFault.Memory → IsInHand self.old tag) }
        ensures same { OnErr result (self.new ≡ self.old) }
    {
        let Some(command) = self.in_hand(tag) else {
            return Err(BackFault::NotIssued);
        };
        core.back(tag)?;
        self.hands[usize::from(tag)] = None;
        tags.give(&mut self.seat, tag);
        Ok(command.id)
    }

    /// Issues the next command to it out of the core, if there is one, under the first free tag that isn't used up in the round
    /// ([`issue_next`]). Without a command it is as it was; [`NoNext`] says why, and what was done.
    pub(crate) fn next<S: Scheduler<A = A>>(
        &mut self,
        core: &mut LockedCore<S, L>,
        tags: &TagSet<A>,
    ) -> Result<Issued, NoNext>
        requires { self.old.tag_set ≡ tags.now }
        ensures issued { IfOk result (λ issued. TakesInHand self.old issued.tag issued.command self.new) }
        ensures core { IfOk result (λ issued. IssuesTo S.policy core.old.core self.old.hw issued core.new.core) }
        ensures none { IfErr result (λ why. IsNoNext S.policy core.old.core self.old.hw why core.new.core) }
        ensures same { OnErr result (self.new ≡ self.old) }
    {
        if self.ran.reserve(self.hands.len()).is_err() {
            return Err(NoNext::Tried(NoneIssued::Issue(IssueFault::Memory)));
        }
        match issue_next(&mut self.seat, core, tags, self.hw) {
            Ok(issued) => {
                self.hands[usize::from(issued.tag)] = Some(issued.command);
                Ok(issued)
            }
            Err(why) => Err(why),
        }
    }
}

/// Issues the next command for a hardware queue out of the core, under a tag that it takes with a seat of the set. It tries one free tag after
/// the other (`Core::try_issue`), beginning after the tag that was issued last, until one isn't used up in the round or the round is full.
/// Without a command the seat holds the tags that it held.
fn issue_next<S: Scheduler, L: Named>(
    seat: &mut TagSeat<S::A>,
    core: &mut LockedCore<S, L>,
    tags: &TagSet<S::A>,
    hw: u8,
) -> Result<Issued, NoNext>
    requires set { seat.old.of_set ≡ tags.now }
    requires depth { tags.now.depth ≡ L.setup.depth }
    requires queue { hw < L.setup.hw }
    requires one { Contains L.queues hw }
    ensures taken { IfOk result (λ issued. TakesTag seat.old issued.tag seat.new) }
    ensures core { IfOk result (λ issued. IssuesTo S.policy core.old.core hw issued core.new.core) }
    ensures none { IfErr result (λ why. IsNoNext S.policy core.old.core hw why core.new.core) }
    ensures tried { IfErr result (λ why. WantsTag why → TriesEach seat.old seat.new) }
    ensures kept { OnErr result (KeepsTags seat.old seat.new) }
{
    let mut from = core.next_tag;
    let mut last = NoNext::NoTag;
    for _ in 0..tags.depth() {
        let Some(tag) = tags.get_from(seat, from) else {
            return Err(NoNext::NoTag);
        };
        from = tag.saturating_add(1);
        let why = match core.core.try_issue(hw, tag) {
            Ok(command) => {
                core.next_tag = from;
                return Ok(Issued { command, tag });
            }
            Err(why) => why,
        };
        tags.give(seat, tag);
        last = NoNext::Tried(why);
        if !is_used_up(why) {
            return Err(last);
        }
    }
    Err(last)
}

/// Whether a try issued none since its tag is used up in the round, which carries more.
fn is_used_up(why: NoneIssued) -> bool
    ensures yes { result ≡ true → WantsTag (NoNext.Tried why) }
    ensures no { result ≡ false → ¬ WantsTag (NoNext.Tried why) }
{
    match why {
        NoneIssued::Issue(fault) => matches!(fault, IssueFault::TagRange | IssueFault::SlotUsed),
        NoneIssued::Nothing => false,
        NoneIssued::Tick(_) => false,
        NoneIssued::Ended => false,
    }
}

/// `count` hands, none of which has a command.
fn empty_hands<A: Allocator>(alloc: A, count: u64) -> Result<Vec<Option<Command>, A>, AllocError>
    ensures { IfOk result (λ hands. hands.items ≡ replicate count None) }
{
    let mut hands = Vec::with_capacity(alloc, count as usize)?;
    for _ in 0..count {
        hands.push(None)?;
    }
    Ok(hands)
}

/// A worker for each of these hardware queues, with a part of the ledger each.
pub(crate) fn seat_workers<L: Named, A: Allocator + Clone>(
    alloc: &A,
    tags: &TagSet<A>,
    first: &mut TagSeat<A>,
    rest: &mut Share<L>,
    queues: &[u8],
) -> Result<Vec<Worker<L, A>, A>, AllocError>
    requires seat { first.old.of_set ≡ tags.now }
    requires depth { tags.now.depth ≡ L.setup.depth }
    requires queues { All (λ hw. hw < L.setup.hw) queues.now }
    requires are { queues.now ≡ L.queues }
    requires parts { length queues.now ≤ rest.old.parts }
    requires amount { rest.old.amount ≡ 0 }
    ensures parts { OnOk result (rest.new.parts + length queues.now ≡ rest.old.parts) }
    ensures amount { rest.new.amount ≡ 0 }
    ensures count { IfOk result (λ all. vec_len all ≡ length queues.now) }
    ensures each { IfOk result (λ all. all.items ≡ map (new_worker tags.now) queues.now) }
{
    let mut all = Vec::with_capacity(alloc.clone()?, queues.len())?;
    for hw in queues {
        let seat = tags.split(first)?;
        let share = rest.split_off(1, 0);
        let worker = Worker::new(alloc.clone()?, seat, share, *hw, tags.depth())?;
        all.push(worker)?;
    }
    Ok(all)
}

/// Audits a ledger of which the workers have a part each and `all` has the other parts: the amounts are the book's total. Each
/// worker lends its part for the audit.
pub(crate) fn audit<L: Named, A: Allocator + Clone>(
    book: &mut Book<L>,
    all: &mut Share<L>,
    workers: &mut [Worker<L, A>],
)
    requires parts { all.old.parts + length workers.old ≡ L.parts }
    requires backed { all.old.parts ≡ 0 → all.old.amount ≡ 0 }
    ensures amounts { all.old.amount + length (all_ran workers.old) ≡ book.old.total }
    ensures total { book.new.total ≡ book.old.total }
    ensures parts { all.new.parts ≡ all.old.parts }
    ensures amount { all.new.amount ≡ all.old.amount }
    ensures workers { workers.new ≡ workers.old }
{
    let Some((worker, others)) = workers.split_first_mut() else {
        book.audit(all);
        return;
    };
    let Worker { share, ran, .. } = worker;
    let count = ran.len() as u64;
    share.give(all, 1, count);
    audit(book, all, others);
    all.give(share, 1, count);
}
