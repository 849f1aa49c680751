//! The bios of a request; a single one stands in the request itself.

ghost use Rattle.std.specs.Prelude.{◌≡◌, ◌++◌, ◌∷◌, [], OnOk, OnErr, IfOk};

use crate::bio::Bio;
use std::alloc::{AllocError, Allocator, Global};
use std::marker::Model;
use std::slice;

/// Where the bios stand.
#[derive(Debug, Drop)]
pub(crate) enum Bios<A: Allocator> {
    /// One bio, and the allocator for more.
    One(A, Bio),
    /// Any number of them.
    Many(Vec<Bio, A>),
}

/// Bios one after the other. Most requests have one, which takes no memory beside the request's.
#[derive(Debug, Drop)]
pub(crate) struct BioList<A: Allocator = Global> {
    bios: Bios<A>,
}

impl<A: Allocator> Model for BioList<A> {
    ghost use Rattle.std.specs.Prelude.{List};
    ghost use Rattle.blk_bio.specs.Bios.{Bio as BioFields};
    ghost use Rattle.blk_bio.specs.Inside.BioLists.{listed};

    ghost Value = { List BioFields };

    ghost view = { λ s. listed s.bios };
}

impl<A: Allocator + Clone> BioList<A> {
    /// One bio. It takes no memory.
    pub(crate) fn of(alloc: A, bio: Bio) -> BioList<A>
        ensures { result ≡ bio ∷ [] }
    {
        BioList {
            bios: Bios::One(alloc, bio),
        }
    }

    /// All of them.
    #[inline(always)]
    pub(crate) fn as_slice(&self) -> &[Bio]
        ensures { result.now ≡ self.now }
    {
        match &self.bios {
            Bios::One(_, bio) => slice::from_ref(bio),
            Bios::Many(bios) => bios.as_slice(),
        }
    }

    /// Adds bios after these. Fails only when out of memory: nothing is changed then.
    pub(crate) fn append(&mut self, others: &[Bio]) -> Result<(), AllocError>
        ensures ok { OnOk result (self.new ≡ self.old ++ others.now) }
        ensures err { OnErr result (self.new ≡ self.old) }
    {
        match &mut self.bios {
            Bios::One(alloc, bio) => {
                let bios = both(alloc.clone()?, slice::from_ref(bio), others)?;
                self.bios = Bios::Many(bios);
                Ok(())
            }
            Bios::Many(bios) => bios.extend_from_slice(others),
        }
    }

    /// Puts bios before these. Fails only when out of memory: nothing is changed then.
    pub(crate) fn prepend(&mut self, others: &[Bio]) -> Result<(), AllocError>
        ensures ok { OnOk result (self.new ≡ others.now ++ self.old) }
        ensures err { OnErr result (self.new ≡ self.old) }
    {
        match &mut self.bios {
            Bios::One(alloc, bio) => {
                let bios = both(alloc.clone()?, others, slice::from_ref(bio))?;
                self.bios = Bios::Many(bios);
                Ok(())
            }
            Bios::Many(bios) => {
                bios.extend_from_slice(others)?;
                bios.rotate_right(others.len());
                Ok(())
            }
        }
    }
}

/// A list of bios and others after them.
fn both<A: Allocator>(alloc: A, bios: &[Bio], others: &[Bio]) -> Result<Vec<Bio, A>, AllocError>
    ensures { IfOk result (λ v. v.items ≡ bios.now ++ others.now) }
{
    let mut all = Vec::from_slice(alloc, bios)?;
    all.extend_from_slice(others)?;
    Ok(all)
}
