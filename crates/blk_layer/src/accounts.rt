//! The account of a submitter.

ghost use Rattle.std.specs.Prelude.{◌≡◌, ◌≤◌, ◌+◌, ◌++◌, ◌↔◌, [], IsTrue, IfOk, OnOk, OnErr, IfSome, IfNone, length};
ghost use Rattle.blk_ids.specs.IdSet.{set_has};
ghost use Rattle.blk_ids.specs.IdSet as id_set;
ghost use Rattle.blk_trace.specs.Events.{AreOnce, HasId, IsFirstRepeatedBio};
ghost use Rattle.blk_trace.specs.Inside.Kept.{has_named};
ghost use Rattle.blk_layer.specs.Inside.Seats.{AddsIds};

use blk_bio::{Bio, BioId};
use blk_ids::IdSet;
use std::alloc::{AllocError, Allocator, Global};
use std::marker::Model;

/// Bios with distinct ids, in the order in which they came, beside their ids.
#[derive(Drop)]
pub(crate) struct Account<A: Allocator = Global> {
    bios: Vec<Bio, A>,
    ids: IdSet<A>,
}

impl<A: Allocator> Model for Account<A> {
    ghost use Rattle.std.specs.Prelude.{List};
    ghost use Rattle.blk_ids.specs.IdSet.{set_has};
    ghost use Rattle.blk_bio.specs.Bios.{Bio as BioFields};
    ghost use Rattle.blk_trace.specs.Inside.Kept.{has_named};
    ghost use Rattle.blk_layer.specs.Inside.Seats.{IsAccount};

    ghost Value = { List BioFields };

    ghost view = { λ a. a.bios.items };

    ghost invariant = { λ a. IsAccount a.bios.items (has_named (set_has a.ids)) };
}

impl<A: Allocator + Clone> Account<A> {
    /// An account of no bios. Fails only when memory runs out.
    pub(crate) fn new(alloc: A) -> Result<Account<A>, AllocError>
        ensures { IfOk result (λ a. a ≡ []) }
    {
        let ids = IdSet::new(alloc.clone()?)?;
        Ok(Account {
            bios: Vec::new(alloc),
            ids,
        })
    }

    /// Its bios.
    pub(crate) fn bios(&self) -> &[Bio]
        ensures value { result.now ≡ self.now }
        ensures once { AreOnce self.now }
    {
        self.bios.as_slice()
    }

    /// Whether a bio of this id is in it.
    fn has(&self, id: BioId) -> bool
        ensures value { IsTrue result ↔ HasId self.now id }
        ensures once { AreOnce self.now }
    {
        // Reads nothing: the prover gets the invariant, which ties the ids to the bios.
        let _ = &self.bios;
        self.ids.contains(id.submitter, id.serial)
    }

    /// The id of the first of the bios that is in the account or earlier among the bios.
    pub(crate) fn first_repeated(&self, bios: &[Bio]) -> Option<BioId>
        ensures some { IfSome result (IsFirstRepeatedBio self.now bios.now) }
        ensures none { IfNone result (AreOnce (self.now ++ bios.now)) }
    {
        // Answers nothing that counts: the prover gets that no two bios of the account have one id.
        let _ = self.bios().len();
        for (place, bio) in bios.iter().enumerate() {
            let id = bio.id();
            if self.has(id) || stands_in(&bios[..place], id) {
                return Some(id);
            }
        }
        None
    }

    /// Adds bios, none of which has an id that is in it or that another of them has. Fails only when memory runs out, and the
    /// account is then as it was.
    pub(crate) fn add(&mut self, bios: &[Bio]) -> Result<(), AllocError>
        requires { AreOnce (self.old ++ bios.now) }
        ensures ok { OnOk result (self.new ≡ self.old ++ bios.now) }
        ensures err { OnErr result (self.new ≡ self.old) }
    {
        self.ids.make_room(bios.len())?;
        self.bios.extend_from_slice(bios)?;
        insert_ids(&mut self.ids, bios);
        Ok(())
    }
}

/// Whether one of the bios has the id.
fn stands_in(bios: &[Bio], id: BioId) -> bool
    ensures { IsTrue result ↔ HasId bios.now id }
{
    bios.iter().any(|bio| bio.id() == id)
}

/// Adds the ids of the bios, for which there is room.
fn insert_ids<A: Allocator + Clone>(ids: &mut IdSet<A>, bios: &[Bio])
    requires { length bios.now ≤ id_set.spare ids.old }
    ensures { AddsIds (has_named (set_has ids.old)) bios.now (has_named (set_has ids.new)) }
{
    for bio in bios {
        let id = bio.id();
        ids.insert(id.submitter, id.serial);
    }
}
