//! The bios that entered and those that wait, gathered from the events or counted.

ghost use Rattle.std.specs.Prelude.{ℕ, ◌≡◌, ◌++◌, false, not, cond, Some, IfOk, OnOk, length};
ghost use Rattle.std.specs.Option.{option_map_or};
ghost use Rattle.blk_ids.specs.ById.{kept_at};
ghost use Rattle.std.specs.List.{flat_map};
ghost use Rattle.std.specs.Ordering.{nat_cmp};
ghost use Rattle.std.specs.BTreeMap.{get, values, IsOrdered};
ghost use Rattle.blk_trace.specs.Inside.Gathered.{waiting_bios, with_event};
ghost use Rattle.blk_trace.specs.Inside.Kept.{known_of, is_gone};
ghost use Rattle.blk_trace.specs.Events.{join_up, entered};
ghost use Rattle.blk_trace.specs.Kinds.{enters};
ghost use Rattle.blk_trace.specs.Laws.{IsAccounted};
ghost use Rattle.blk_trace.specs.Legal.{IsLegalTrace};
ghost use Rattle.blk_trace.specs.Meaning.{waiting_of};
ghost use Rattle.blk_ids.specs.Given.{Gives};

use crate::event::Event;
use crate::known::{Known, Stage};
use crate::setup::Setup;
use crate::trace::Trace;
use blk_bio::{Bio, Request};
use blk_ids::ById;
use std::alloc::{AllocError, Allocator};
use std::collections::BTreeMap;
use std::marker::Model;

impl<A: Allocator + Clone> Trace<A> {
    /// The bios that entered, in the order of their events. Fails only when out of memory.
    pub fn entered(&self) -> Result<Vec<Bio, A>, AllocError>
        ensures { IfOk result (λ v. v.items ≡ entered self.now.events) }
    {
        all_entered(self.events.allocator().clone()?, self.events.as_slice())
    }

    /// How many bios entered. It takes no memory.
    pub fn bios_entered(&self) -> u64
        ensures { result ≡ length (entered self.now.events) }
    {
        count_entered(self.setup, self.events.as_slice())
    }

    /// The bios of the released requests that were not issued, or were requeued, by rising id of the requests and then
    /// in the order of their sectors. It walks the events once. Fails only when out of memory.
    pub fn waiting(&self) -> Result<Vec<Bio, A>, AllocError>
        ensures waiting { IfOk result (λ v. v.items ≡ waiting_of self.now.events) }
        // with those of the issued requests they are the bios that entered, each once
        ensures accounted { IsAccounted self.now.events }
    {
        all_waiting(
            self.events.allocator(),
            self.setup,
            &self.known,
            self.events.as_slice(),
        )
    }

    /// How many bios wait: as many as [`Trace::waiting`] has. It walks the events once and takes no memory.
    pub fn bios_waiting(&self) -> u64
        ensures waiting { result ≡ length (waiting_of self.now.events) }
        // with those of the issued requests they are the bios that entered, each once
        ensures accounted { IsAccounted self.now.events }
    {
        count_waiting(self.setup, &self.known, self.events.as_slice())
    }
}

/// The bios of a request that waits, as far as they were gathered.
#[derive(Debug, Drop)]
struct Bios<A: Allocator> {
    bios: Vec<Bio, A>,
}

impl<A: Allocator> Model for Bios<A> {
    ghost use Rattle.std.specs.Prelude.{List};
    ghost use Rattle.blk_bio.specs.Bios.{Bio as BioFields};

    ghost Value = { List BioFields };

    ghost view = { λ g. g.bios.items };
}

impl<A: Allocator + Clone> Bios<A> {
    /// Joins the bios of a request to these, at the side that it has in a trace. Fails only when out of memory.
    fn join(&mut self, newcomer: &Request<A>) -> Result<(), AllocError>
        ensures { OnOk result (self.new ≡ join_up self.old newcomer.now) }
    {
        let after = self.are_followed_by(newcomer);
        self.bios.extend_from_slice(newcomer.bios())?;
        if !after {
            self.bios.rotate_right(newcomer.bios().len());
        }
        Ok(())
    }

    /// Whether a request begins where the last of these ends; it does where there are none.
    #[tactic(auto, using(crate::proofs::Gathering::joined_to))]
    fn are_followed_by(&self, newcomer: &Request<A>) -> bool
        ensures { join_up self.now newcomer.now ≡ cond result (self.now ++ newcomer.now) (newcomer.now ++ self.now) }
    {
        match self.bios.last() {
            Some(last) => newcomer.first() == last.first() + last.sectors(),
            None => true,
        }
    }
}

/// The bios that entered by the events.
#[tactic(auto, using(crate::proofs::Pushing::entered_up, crate::proofs::Pushing::none_entered))]
fn all_entered<A: Allocator + Clone>(
    alloc: A,
    events: &[Event<Request<A>>],
) -> Result<Vec<Bio, A>, AllocError>
    ensures { IfOk result (λ v. v.items ≡ entered events.now) }
{
    let mut bios = Vec::new(alloc);
    for event in events {
        bios.extend_from_slice(event.bios())?;
    }
    Ok(bios)
}

/// The bios that wait after the events, of which this is kept.
fn all_waiting<A: Allocator + Clone>(
    alloc: &A,
    setup: Setup,
    known: &ById<Known, A>,
    events: &[Event<Request<A>>],
) -> Result<Vec<Bio, A>, AllocError>
    requires legal { IsLegalTrace setup events.now }
    requires kept { (id : ℕ) → kept_at known.now id ≡ known_of setup events.now id }
    ensures { IfOk result (λ v. v.items ≡ waiting_of events.now) }
{
    let requests = gathered(alloc, setup, known, events)?;
    in_order(alloc.clone()?, &requests)
}

/// How many bios entered by the events.
fn count_entered<A: Allocator + Clone>(setup: Setup, events: &[Event<Request<A>>]) -> u64
    requires { IsLegalTrace setup events.now }
    ensures { result ≡ length (entered events.now) }
{
    // brings the prover what limits are
    let _ = setup.limits().max_segments();
    let mut bios = 0;
    for event in events {
        bios += event.bios().len() as u64;
    }
    bios
}

/// How many bios wait after the events, of which this is kept.
fn count_waiting<A: Allocator + Clone>(
    setup: Setup,
    known: &ById<Known, A>,
    events: &[Event<Request<A>>],
) -> u64
    requires legal { IsLegalTrace setup events.now }
    requires kept { (id : ℕ) → kept_at known.now id ≡ known_of setup events.now id }
    ensures { result ≡ length (waiting_of events.now) }
{
    // brings the prover what limits are
    let _ = setup.limits().max_segments();
    let mut bios = 0;
    for event in events {
        if stays(known, event) {
            bios += event.bios().len() as u64;
        }
    }
    bios
}

/// The bios of the requests that wait after the events, by their ids.
fn gathered<A: Allocator + Clone>(
    alloc: &A,
    setup: Setup,
    known: &ById<Known, A>,
    events: &[Event<Request<A>>],
) -> Result<BTreeMap<u64, Bios<A>, A>, AllocError>
    requires legal { IsLegalTrace setup events.now }
    requires kept { (id : ℕ) → kept_at known.now id ≡ known_of setup events.now id }
    ensures { IfOk result (λ m. (id : ℕ) → get nat_cmp m id ≡ waiting_bios setup events.now id) }
{
    let mut requests = BTreeMap::new(alloc.clone()?);
    for event in events {
        if stays(known, event) {
            gather(alloc, &mut requests, event)?;
        }
    }
    Ok(requests)
}

/// Whether bios enter by the event under an id whose request waits in the end.
fn stays<A: Allocator + Clone>(known: &ById<Known, A>, event: &Event<Request<A>>) -> bool
    ensures { result ≡ option_map_or (λ p. not (is_gone (kept_at known.now p.0))) (enters event.now) false }
{
    let Some((id, _)) = event.enters() else {
        return false;
    };
    match known.get(id) {
        None => true,
        Some(kept) => !matches!(kept.stage, Stage::Gone),
    }
}

/// Takes account of one more event.
fn gather<A: Allocator + Clone>(
    alloc: &A,
    requests: &mut BTreeMap<u64, Bios<A>, A>,
    event: &Event<Request<A>>,
) -> Result<(), AllocError>
    ensures { OnOk result ((id : ℕ) → get nat_cmp requests.new id ≡ with_event (get nat_cmp requests.old) event.now id) }
{
    let Some((id, request)) = event.enters() else {
        return Ok(());
    };
    if let Some(there) = requests.get_mut(&id) {
        return there.join(request);
    }
    let bios = Vec::from_slice(alloc.clone()?, request.bios())?;
    put(requests, id, Bios { bios })
}

/// Puts bios under an id.
fn put<A: Allocator + Clone>(
    requests: &mut BTreeMap<u64, Bios<A>, A>,
    id: u64,
    bios: Bios<A>,
) -> Result<(), AllocError>
    ensures { OnOk result (Gives (get nat_cmp requests.old) id (Some bios) (get nat_cmp requests.new)) }
{
    match requests.insert(id, bios) {
        Ok(_) => Ok(()),
        Err(_) => Err(AllocError),
    }
}

/// The bios of all the requests, by rising id.
fn in_order<A: Allocator + Clone>(
    alloc: A,
    requests: &BTreeMap<u64, Bios<A>, A>,
) -> Result<Vec<Bio, A>, AllocError>
    ensures bios { IfOk result (λ v. v.items ≡ flat_map (λ bios. bios) (values requests.now)) }
    ensures ordered { IsOrdered nat_cmp requests.now }
{
    let mut bios = Vec::new(alloc);
    for request in requests.values() {
        bios.extend_from_slice(request.bios.as_slice())?;
    }
    Ok(bios)
}
