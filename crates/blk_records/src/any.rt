//! The rows of kinds of records, and those of titles, in one type.

ghost use Rattle.std.specs.Prelude.{◌≡◌, ◌≤◌, ◌<◌, length, get_or};
ghost use Rattle.blk_records.specs.Kinds.{row, title_kind};
ghost use Rattle.blk_records.specs.Inside.Any.{filled};
ghost use Rattle.blk_records.specs.declared.fields.Slot.TheVariants as slot;
ghost use Rattle.blk_records.specs.declared.names.FieldName.TheVariants as name;

use crate::fields::Slot;
use crate::kinds::Kind;
use crate::names::FieldName;
use crate::titles::TitleRow;
use std::marker::Model;

/// The most letters of a word.
pub const MAX_LETTERS: usize = 16;

/// The most fields of a record.
pub const MAX_FIELDS: usize = 8;

/// The row of a kind of record, of one type for all kinds: the rows of the forms differ in type, by the length of their word and the number of
/// their fields.
#[derive(Clone, Copy, Drop)]
pub struct AnyKind {
    word: [u8; MAX_LETTERS],
    letters: usize,
    since: u64,
    slots: [Slot; MAX_FIELDS],
    names: [FieldName; MAX_FIELDS],
    width: usize,
}

impl Model for AnyKind {
    ghost use Rattle.blk_records.specs.Kinds.{KindRow};

    ghost Value = { KindRow };

    ghost use Rattle.blk_records.specs.Inside.Any.{kept_row, in_arrays, IsInArrays};

    ghost view = { kept_row };

    ghost invariant = { IsInArrays };

    ghost inverse = { in_arrays };

    ghost inverse_ok = { λ a h. h.same };
}

/// An array that begins with some items, and has another in its other places.
fn padded<T: Copy + Drop, const N: usize>(items: &[T], past: T) -> [T; N]
    requires { length items.now ≤ N }
    ensures { result ≡ filled N items.now past }
{
    let mut all = [past; N];
    all[..items.len()].copy_from_slice(items);
    all
}

impl<const L: usize, const N: usize> Kind<L, N> {
    /// This row, in the one type of all kinds.
    pub fn any(&self) -> AnyKind
        requires word { L ≤ MAX_LETTERS }
        requires width { N ≤ MAX_FIELDS }
        ensures { result ≡ row self.now }
    {
        AnyKind {
            word: padded(&self.word, 0),
            letters: L,
            since: self.since,
            slots: padded(&self.slots, Slot::Given),
            names: padded(&self.names, FieldName::Unused),
            width: N,
        }
    }
}

impl<const L: usize, const N: usize> TitleRow<L, N> {
    /// This row as that of a kind: beside what may stand in its other fields, the versions of its form.
    pub fn any(&self) -> AnyKind
        requires word { L ≤ MAX_LETTERS }
        requires width { (1 < N) × (N ≤ MAX_FIELDS) }
        ensures { result ≡ title_kind self.now }
    {
        let mut slots = self.slots;
        slots[1] = Slot::Number {
            least: 1,
            most: self.latest,
        };
        let kind = Kind {
            word: self.word,
            since: 1,
            slots,
            names: self.names,
        };
        kind.any()
    }
}

impl AnyKind {
    /// The word that its records begin with, or nothing.
    pub fn word(&self) -> &[u8]
        ensures { result.now ≡ self.now.word }
    {
        &self.word[..self.letters]
    }

    /// The first version that has such records.
    pub fn since(&self) -> u64
        ensures { result ≡ self.now.since }
    {
        self.since
    }

    /// How many fields they have.
    pub fn width(&self) -> u64
        ensures { result ≡ length self.now.slots }
    {
        self.width as u64
    }

    /// What may stand in the field at a place, anything past the last.
    pub fn slot(&self, place: usize) -> Slot
        ensures { result ≡ get_or self.now.slots place slot.Given }
    {
        match self.slots[..self.width].get(place) {
            Some(slot) => *slot,
            None => Slot::Given,
        }
    }

    /// What the field at a place is called, `Unused` past the last.
    pub fn name(&self, place: usize) -> FieldName
        ensures { result ≡ get_or self.now.names place name.Unused }
    {
        match self.names[..self.width].get(place) {
            Some(name) => *name,
            None => FieldName::Unused,
        }
    }
}
