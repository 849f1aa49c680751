//! A bio: one transfer of a range of sectors, after `struct bio` of Linux.

ghost use Rattle.std.specs.Prelude.{◌≡◌, ◌≢◌, ◌+◌, ◌<◌, ◌∷◌, [], IfSome, IfNone};
ghost use Rattle.blk_bio.specs.Names.{bio_fault_name};
ghost use Rattle.blk_bio.specs.Bios.{Bio as BioFields, IsBio, IsBioAnswer};
ghost use Rattle.blk_bio.specs.Requests.{IsRequest};
ghost use Rattle.blk_bio.specs.Extents.{extent_of};
ghost use Rattle.blk_bio.specs.Letters.{direction_text};
ghost use Rattle.blk_bio.specs.declared.bio.Dir.{Dir as Direction};

use crate::extent::Extent;
use edd_commands::variant_name;
use std::marker::Model;
use thiserror::Error;

/// No bio reaches past this sector, counted from the device's beginning.
pub const MAX_END: u64 = 1 << 48;

/// Which way a bio's data goes, as `REQ_OP_READ` and `REQ_OP_WRITE` of Linux say.
#[derive(Clone, Copy, Debug, PartialEq, Eq, PartialOrd, Ord)]
pub enum Dir {
    /// From the device.
    Read,
    /// To the device.
    Write,
}

impl Dir {
    /// Its letter in a text, as blkparse has it: R or W.
    #[inline]
    pub fn letter(self) -> u8
        ensures { result ∷ [] ≡ direction_text self }
    {
        match self {
            Dir::Read => b'R',
            Dir::Write => b'W',
        }
    }

    /// The direction that a field of a text names; None for any field but R and W.
    #[inline]
    pub fn of_letter(field: &[u8]) -> Option<Dir>
        ensures some { IfSome result (λ dir. field.now ≡ direction_text dir) }
        ensures none { IfNone result ((dir : Direction) → field.now ≢ direction_text dir) }
    {
        match field {
            [b'R'] => Some(Dir::Read),
            [b'W'] => Some(Dir::Write),
            _ => None,
        }
    }
}

/// A bio's name: who submitted it, and its number among that submitter's. Any two numbers make a name; that no name
/// is used twice is checked where bios are accepted.
#[derive(Clone, Copy, Debug, PartialEq, Eq, PartialOrd, Ord)]
pub struct BioId {
    /// Who submitted it, 0 to 255; a block layer has submitters from 0 on.
    pub submitter: u8,
    /// Its number among that submitter's bios, in any order.
    pub serial: u64,
}

/// Why a bio is not made, in the order in which the reasons are looked for.
#[derive(Clone, Copy, Debug, PartialEq, Eq, Error)]
#[error("{}", self.name())]
pub enum BioFault {
    /// It has 0 sectors.
    Empty,
    /// It ends past [`MAX_END`].
    Range,
}

impl BioFault {
    /// Its name, which the program prints.
    pub fn name(self) -> &'static str
        ensures { result.now ≡ bio_fault_name self }
    {
        variant_name!(self: BioFault { Empty, Range })
    }
}

/// A transfer of `sectors` sectors from sector `first` on, at least one, that ends at most at [`MAX_END`].
#[derive(Clone, Copy, Debug, PartialEq, Eq, PartialOrd, Ord)]
pub struct Bio {
    id: BioId,
    dir: Dir,
    first: u64,
    sectors: u64,
}

impl Model for Bio {
    ghost use Rattle.blk_bio.specs.Bios.{Bio as BioFields, IsBio};

    ghost Value = { BioFields };

    ghost view = { λ b. record { id = b.id; dir = b.dir; first = b.first; sectors = b.sectors } };

    ghost invariant = { λ b. IsBio record { id = b.id; dir = b.dir; first = b.first; sectors = b.sectors } };

    ghost inverse = { λ v. record { id = v.id; dir = v.dir; first = v.first; sectors = v.sectors } };
}

impl Bio {
    /// A bio of the `sectors` sectors from `first` on. Refused as `Empty` for 0 sectors, and then as `Range` where
    /// `first + sectors` passes [`MAX_END`]; a bio may end just there.
    pub fn new(id: BioId, dir: Dir, first: u64, sectors: u64) -> Result<Bio, BioFault>
        ensures { IsBioAnswer id dir first sectors result }
    {
        if sectors == 0 {
            return Err(BioFault::Empty);
        }
        if first > MAX_END || sectors > MAX_END - first {
            return Err(BioFault::Range);
        }
        Ok(Bio {
            id,
            dir,
            first,
            sectors,
        })
    }

    /// Its name.
    pub fn id(&self) -> BioId
        ensures { result ≡ self.now.id }
    {
        self.id
    }

    /// Which way its data goes.
    pub fn dir(&self) -> Dir
        ensures { result ≡ self.now.dir }
    {
        self.dir
    }

    /// Its first sector, below [`MAX_END`].
    pub fn first(&self) -> u64
        ensures value { result ≡ self.now.first }
        ensures is_bio { IsBio self.now }
    {
        self.first
    }

    /// How many sectors it has, 1 to [`MAX_END`].
    pub fn sectors(&self) -> u64
        ensures value { result ≡ self.now.sectors }
        ensures is_bio { IsBio self.now }
    {
        self.sectors
    }

    /// Its extent, as that of a request of this bio alone.
    #[inline]
    pub fn extent(&self) -> Extent
        ensures value { result ≡ extent_of (self.now ∷ []) }
        ensures is_request { IsRequest (self.now ∷ []) }
    {
        Extent::of(self.dir, self.first, self.first + self.sectors, 1)
    }
}
