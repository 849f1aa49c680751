//! What a request stands by among those of shared places.

ghost use Rattle.std.specs.Prelude.{Some, refl};
ghost use Rattle.std.specs.Ordering.{eq_by_cmp};
ghost use Rattle.std.specs.Cmp.{eq_by_cmp_equiv, partial_equiv_from_equiv, partial_order_from_agreeing_total};
ghost use Rattle.blk_index.specs.Inside.Entries.{entry_cmp, entry_total};

use std::cmp::Ordering;
use std::marker::Model;

/// A direction and a sector, how many whole blocks of a size the bios of a request there fill, how many of a size its sectors fill, and its id; in
/// order by these. Seen as pairs, the last of which is of all before and the id.
#[derive(Clone, Copy)]
pub struct Entry {
    /// Whether the direction writes.
    pub write: bool,
    /// The sector.
    pub sector: u64,
    /// The size of a block of bios.
    pub span: u64,
    /// How many of these it fills.
    pub bios: u64,
    /// The size of a block of sectors.
    pub unit: u64,
    /// How many of these it fills.
    pub sectors: u64,
    /// Its id.
    pub id: u64,
}

impl Model for Entry {
    ghost use Rattle.blk_index.specs.Inside.Entries.{Key};

    ghost Value = { Key };

    ghost view = { λ s. ((((((s.write, s.sector), s.span), s.bios), s.unit), s.sectors), s.id) };

    ghost inverse = { λ p. record { write = p.0.0.0.0.0.0; sector = p.0.0.0.0.0.1; span = p.0.0.0.0.1; bios = p.0.0.0.1; unit = p.0.0.1; sectors = p.0.1; id = p.1 } };
}

impl PartialEq for Entry {
    ghost eq = { eq_by_cmp entry_cmp };

    ghost laws = { partial_equiv_from_equiv (eq_by_cmp_equiv entry_total) };

    fn eq(&self, other: &Entry) -> bool {
        self.cmp(other).is_eq()
    }
}

impl Eq for Entry {
    ghost laws = { eq_by_cmp_equiv entry_total };
}

impl PartialOrd for Entry {
    ghost partial_cmp = { λ x y. Some (entry_cmp x y) };

    ghost laws = { partial_order_from_agreeing_total entry_cmp entry_total (λ x y. refl) (λ x y. refl) };

    fn partial_cmp(&self, other: &Entry) -> Option<Ordering> {
        Some(self.cmp(other))
    }
}

impl Ord for Entry {
    ghost cmp = { entry_cmp };

    ghost total = { entry_total };

    ghost matches_partial_cmp = { λ x y. refl };

    ghost matches_eq = { λ x y. refl };

    fn cmp(&self, other: &Entry) -> Ordering {
        let place = self
            .write
            .cmp(&other.write)
            .then(self.sector.cmp(&other.sector));
        let spanned = place.then(self.span.cmp(&other.span));
        let class = spanned.then(self.bios.cmp(&other.bios));
        let sized = class.then(self.unit.cmp(&other.unit));
        let block = sized.then(self.sectors.cmp(&other.sectors));
        block.then(self.id.cmp(&other.id))
    }
}
