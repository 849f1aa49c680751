//! Items of a text, each of which may have some records and depend on those before it.

ghost use Rattle.std.specs.Prelude.{◌≡◌, ◌+◌, ◌-◌, ◌*◌, ◌<◌, ◌≤◌, ◌^◌, ℕ, List, [], length, All, OnOk, OnErr, IfOk, IfErr};
ghost use Rattle.csv.specs.Records.{fields_of};
ghost use Rattle.blk_records.specs.Sources.{Row};
ghost use Rattle.blk_records.specs.declared.fault.TextReason.{TextReason as AReason};
ghost use Rattle.text_grammar.specs.Parts.{Part, IsCount, most_of};
ghost use Rattle.blk_records.specs.Reads.{Reads, ReadsAll, NextFailsBy, FailsBy, Halts, HaltsBy, GathersBy, AreGatheredBy, IsRowOf, IsWrongRecord, IsOne, IsStopped, beyond_of, items_of, repeated};

use crate::fault::{TextFault, TextReason};
use crate::source::Records;
use csv::ByteRecord;
use std::alloc::Global;
use std::io::Read;
use text_grammar::Repeats;

/// A kind of record by itself.
pub trait RecordForm {
    /// What a record tells.
    type Value;

    ghost part: { Self → Part Row AReason Self.Value };

    /// The fault where the record never came.
    fn gone(&self) -> TextReason
        ensures wrong { (part self.now).Wrong [] 1 result }
        ensures one { IsOne (part self.now) };

    /// The value that a record spells, or the first thing that is wrong with it.
    fn value(&self, row: &ByteRecord) -> Result<Self::Value, TextReason>
        ensures ok { IfOk result (IsRowOf (part self.now) (fields_of row.now)) }
        ensures err { IfErr result (IsWrongRecord (part self.now) (fields_of row.now)) };
}

/// What the next record tells.
#[tactic(auto, using(text_grammar::proofs::Then::at_first))]
pub fn read_record<R: Read + Drop, F: RecordForm>(
    records: &mut Records<R>,
    form: &F,
) -> Result<F::Value, TextFault>
    requires { records.old.at < 2 ^ 64 - 1 }
    ensures at { records.new.at ≡ records.old.at + 1 }
    ensures ok { IfOk result (Reads (F.part form.now) records.old.left records.new.left) }
    // also where the reader's bytes are not known
    ensures fits { IfOk result (F.part form.now).Fits }
    // at the record that was asked for last: none was read past it
    ensures last { IfErr result (λ f. f.at ≡ records.new.at) }
    ensures err { IfErr result (λ f. Halts records.new.failed (F.part form.now) records.old.left records.old.at f.at f.why) }
{
    let gone = form.gone();
    match records.advance() {
        Ok(true) => {}
        Ok(false) => return Err(records.fault(gone)),
        Err(fault) => return Err(fault),
    }
    match form.value(records.row()) {
        Ok(value) => Ok(value),
        Err(why) => Err(records.fault(why)),
    }
}

/// A kind of item, which has a record at least and may depend on the items before it.
pub trait ItemForm {
    /// What the items are gathered in.
    type Items;

    ghost View: { Type 0 };

    // what is known of the items that this form has gathered, and of what was read and they don't keep
    ghost known: { Self → Self.Items → Type 0 };

    // the items, each as what was read of it
    ghost seen: { (form : Self) → (items : Self.Items) → known form items → List View };

    ghost part: { Self → List View → Part Row AReason View };

    // the most records past the first
    ghost more: { ℕ };

    /// The fault where the first record never came.
    fn gone(&self, items: &Self::Items) -> TextReason
        ensures { (k : known self.now items.now) → (part self.now (seen self.now items.now k)).Wrong [] 1 result };

    /// Reads the item of the record that was read last and those after it, and adds it to those before it.
    fn read<R: Read + Drop>(
        &self,
        alloc: Global,
        records: &mut Records<R>,
        items: &mut Self::Items,
    ) -> Result<(), TextFault>
        requires room { records.old.at + more < 2 ^ 64 - 1 }
        requires known { known self.now items.old }
        ensures ok { OnOk result (GathersBy records.old records.new (part self.now) (seen self.now items.old) (seen self.now items.new)) }
        ensures last { IfErr result (λ f. (records.old.at ≤ f.at) × (f.at ≤ records.new.at)) }
        ensures err { IfErr result (NextFailsBy records.old records.new (part self.now) (seen self.now items.old)) }
        ensures reads { (records.old.at ≤ records.new.at) × (records.new.at ≤ records.old.at + more) };
}

/// Reads items until there are as many as there may be, or until the text is over where there may be fewer, and says
/// whether it is over.
pub fn gather<R: Read + Drop, F: ItemForm>(
    alloc: Global,
    records: &mut Records<R>,
    form: &F,
    repeats: Repeats,
    items: &mut F::Items,
) -> Result<bool, TextFault>
    requires room { records.old.at + most_of repeats * (F.more + 1) < 2 ^ 64 - 1 }
    requires none { (k : F.known form.now items.old) × (F.seen form.now items.old k ≡ []) }
    ensures ok { IfOk result (AreGatheredBy records.old records.new repeats (F.part form.now) (F.seen form.now items.new)) }
    ensures err { IfErr result (FailsBy records.old records.new (repeated repeats (F.part form.now))) }
    // all items before the one that is being read are good, and no record past that one is asked for
    ensures before { IfErr result (λ f. IsStopped repeats (F.part form.now) records.old.left records.old.at F.more f.at records.new.at) }
    ensures asked { OnErr result (records.old.at < records.new.at) }
    ensures reads { (records.old.at ≤ records.new.at) × (records.new.at ≤ records.old.at + most_of repeats * (F.more + 1)) }
{
    for _ in 0..repeats.most() {
        match records.advance() {
            Ok(true) => {}
            Ok(false) => {
                return match repeats {
                    Repeats::AtMost(_) => Ok(true),
                    Repeats::Exactly(_) => Err(records.fault(form.gone(items))),
                };
            }
            Err(fault) => return Err(fault),
        }
        match form.read(alloc, records, items) {
            Ok(()) => {}
            Err(fault) => return Err(fault),
        }
    }
    Ok(false)
}

/// Items that have one record each.
#[derive(Clone, Copy, Drop)]
pub struct Each<F> {
    pub form: F,
}

impl<F: RecordForm> ItemForm for Each<F>
where
    F::Value: Drop,
{
    ghost use Rattle.std.specs.Prelude.{List};

    type Items = Vec<F::Value>;

    ghost View = { F.Value };

    ghost known = { λ _ _. Unit {0} };

    ghost seen = { λ _ v _. v.items };

    ghost part = { λ e _. F.part e.form };

    ghost more = { 0 };

    fn gone(&self, items: &Vec<F::Value>) -> TextReason {
        let _ = items;
        self.form.gone()
    }

    fn read<R: Read + Drop>(
        &self,
        alloc: Global,
        records: &mut Records<R>,
        items: &mut Vec<F::Value>,
    ) -> Result<(), TextFault> {
        // `gone` brings the prover which fault the form tells where a record is missing
        let _ = (alloc, self.form.gone());
        match self.form.value(records.row()) {
            Ok(value) => {
                if items.push(value).is_err() {
                    return Err(records.fault(TextReason::Memory));
                }
                Ok(())
            }
            Err(why) => Err(records.fault(why)),
        }
    }
}

/// The fault of one item more.
fn beyond(repeats: Repeats) -> TextReason
    ensures { result ≡ beyond_of repeats }
{
    match repeats {
        Repeats::AtMost(_) => TextReason::TooLong,
        Repeats::Exactly(_) => TextReason::Count,
    }
}

/// What the remaining records tell, to the end of the text.
pub fn read_records<R: Read + Drop, F: RecordForm>(
    alloc: Global,
    records: &mut Records<R>,
    form: F,
    repeats: Repeats,
) -> Result<Vec<F::Value>, TextFault>
where
    F::Value: Drop,
    F: Drop,
    requires { records.old.at + most_of repeats + 1 < 2 ^ 64 - 1 }
    ensures ok { IfOk result (λ v. ReadsAll (items_of repeats (λ _. F.part form)) records.old.left v.items) }
    ensures err { IfErr result (HaltsBy records.old records.new (items_of repeats (λ _. F.part form))) }
    // at the record that was asked for last: none was read past it
    ensures last { IfErr result (λ f. f.at ≡ records.new.at) }
    // also where the reader's bytes are not known
    ensures fit { IfOk result (λ v. All (F.part form).Fits v.items × IsCount repeats (length v.items)) }
    ensures reads { (records.old.at < records.new.at) × (records.new.at ≤ records.old.at + most_of repeats + 1) }
    // the last thing that was asked for is the record after these, which there is not
    ensures end { IfOk result (λ v. records.new.at ≡ records.old.at + length v.items + 1) }
{
    let each = Each { form };
    let mut values = Vec::new(alloc);
    // brings the prover which fault the form tells where a record is missing
    let _ = each.form.gone();
    match gather(alloc, records, &each, repeats, &mut values) {
        Ok(true) => return Ok(values),
        Ok(false) => {}
        Err(fault) => return Err(fault),
    }
    match records.advance() {
        Ok(true) => {}
        Ok(false) => return Ok(values),
        Err(fault) => return Err(fault),
    }
    match each.form.value(records.row()) {
        Ok(_) => Err(records.fault(beyond(repeats))),
        Err(why) => Err(records.fault(why)),
    }
}
