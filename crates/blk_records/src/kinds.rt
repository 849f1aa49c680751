//! Kinds of records, each a row of data: the word that its records begin with, and what may stand in their fields.

ghost use Rattle.std.specs.Prelude.{◌≡◌, ◌-◌, ◌≤◌, ◌<◌, ◌↔◌, OnOk, IsTrue, length};
ghost use Rattle.text_output.specs.declared.block.TheConstants.{MAX_ROW_FIELDS};
ghost use Rattle.blk_records.specs.Cells.{IsPlainWord};
ghost use Rattle.blk_records.specs.Kinds.{StandsFrom, below, AddsRecord};

use crate::fields::Slot;
use crate::names::FieldName;
use crate::writing::push_row;
use std::alloc::AllocError;
use text_output::Block;

/// A kind of record.
#[derive(Clone, Copy, Drop)]
pub struct Kind<const L: usize, const N: usize> {
    /// The word that its records begin with.
    pub word: [u8; L],
    /// The first version that has it.
    pub since: u64,
    /// What may stand in its fields, of which the word is the first.
    pub slots: [Slot; N],
    /// What its fields are called, `Unused` where its records don't use one.
    pub names: [FieldName; N],
}

/// Whether what came with one version stands in another.
#[inline(always)]
fn stands(since: u64, version: u64) -> bool
    ensures { IsTrue result ↔ StandsFrom since version }
{
    match since {
        1 => true,
        _ => since <= version,
    }
}

impl<const L: usize, const N: usize> Kind<L, N> {
    /// Whether this is the kind of a record that begins with a field, in a version.
    #[inline(always)]
    pub fn is(&self, field: &[u8], version: u64) -> bool
        ensures { IsTrue result ↔ (StandsFrom self.now.since version × (field.now ≡ self.now.word)) }
    {
        // The word is copied, so that of a constant row only the word is built for the comparison, and not all its slots.
        let word = self.word;
        stands(self.since, version) && field == word.as_slice()
    }

    /// Its slots, with its first number below a count.
    #[inline(always)]
    pub fn below(&self, count: u64) -> [Slot; N]
        requires some { 1 ≤ count }
        requires wide { 1 < N }
        ensures { result ≡ below count self.now.slots }
    {
        let mut slots = self.slots;
        slots[1] = Slot::Number {
            least: 0,
            most: count - 1,
        };
        slots
    }

    /// Adds the record of this kind with these numbers in the fields after its word, and empty ones after them.
    #[inline(always)]
    pub fn push(&self, draft: &mut Block, numbers: &[u64]) -> Result<(), AllocError>
        requires word { IsPlainWord self.now.word }
        requires wide { (2 ≤ N) × (N ≤ MAX_ROW_FIELDS) }
        requires few { length numbers.now < N }
        ensures text { OnOk result (AddsRecord draft.old draft.new self.now.word numbers.now (N - 1)) }
    {
        let word = self.word;
        push_row(draft, word.as_slice(), numbers, N - 1 - numbers.len())
    }
}
