//! The bios of a group of a trace.

ghost use Rattle.std.specs.Prelude.{◌≡◌, ◌≤◌, ◌<◌, ◌^◌, ◌-◌, ◌+◌, ◌++◌, ◌∷◌, [], length, IsTrue, OnOk, IfOk, IfErr};
ghost use Rattle.csv.specs.Records.{fields_of};
ghost use Rattle.blk_bio.specs.Requests.{Fits};
ghost use Rattle.blk_records.specs.Reads.{IsRowOf, IsWrongRecord, Reads, Fails};
ghost use Rattle.blk_text.specs.TraceForm.{whole_bio, group};

use crate::bios::{BIO, MAX_SUBMITTERS, read_bio};
use crate::heads::HeadForm;
use blk_bio::{Bio, Limits, MAX_SEGMENTS, Request, Side};
use blk_records::fault::{TextFault, TextReason};
use blk_records::fields::field;
use blk_records::items::{ItemForm, RecordForm, gather};
use blk_records::source::Records;
use csv::ByteRecord;
use std::alloc::{AllocError, Global};
use std::io::Read;
use text_grammar::Repeats;

/// The bio of a record of a group. Another event's record comes too soon there.
fn bio_line(form: &HeadForm, row: &ByteRecord) -> Result<Bio, TextReason>
    ensures ok { IfOk result (IsRowOf (whole_bio form.now.version) (fields_of row.now)) }
    ensures err { IfErr result (IsWrongRecord (whole_bio form.now.version) (fields_of row.now)) }
{
    if BIO.is(field(row, 0), form.version) {
        return read_bio(row, MAX_SUBMITTERS);
    }
    match form.value(row) {
        Ok(_) => Err(TextReason::Count),
        Err(why) => Err(why),
    }
}

/// Whether a bio joins a request at the back, within the limits.
fn tiles(request: &Request, bio: &Bio, limits: &Limits) -> bool
    ensures fits { IsTrue result → Fits limits.now request.now (bio.now ∷ []) Side.Back }
    ensures only { Fits limits.now request.now (bio.now ∷ []) Side.Back → IsTrue result }
    ensures some { 0 < length request.now }
{
    // brings the prover that a request has a bio
    let _ = request.bios();
    match request.fits_bio(bio, limits) {
        Some(Side::Back) => true,
        Some(Side::Front) => false,
        None => false,
    }
}

/// Joins a bio to a request at the back.
fn append(request: &mut Request, bio: Bio, limits: &Limits) -> Result<(), AllocError>
    requires { Fits limits.now request.old (bio ∷ []) Side.Back }
    ensures { OnOk result (request.new ≡ request.old ++ bio ∷ []) }
{
    match request.push_bio(bio, limits) {
        Ok(()) => Ok(()),
        Err(_) => Err(AllocError),
    }
}

/// The bios of a group of a version, under limits.
#[derive(Clone, Copy, Drop)]
struct GroupForm {
    head: HeadForm,
    limits: Limits,
}

impl ItemForm for GroupForm {
    ghost use Rattle.blk_bio.specs.Bios.{Bio as BioFields};
    ghost use Rattle.blk_text.specs.TraceForm.{group_bio};
    ghost use Rattle.blk_text.specs.Inside.TraceForm.{gathered_bios};

    type Items = Option<Request>;

    ghost View = { BioFields };

    ghost known = { λ _ _. Unit {0} };

    ghost seen = { λ _ bios _. gathered_bios bios };

    ghost part = { λ f before. group_bio f.head.version f.limits before };

    ghost more = { 0 };

    fn gone(&self, items: &Option<Request>) -> TextReason {
        let _ = items;
        TextReason::Count
    }

    fn read<R: Read + Drop>(
        &self,
        alloc: Global,
        records: &mut Records<R>,
        items: &mut Option<Request>,
    ) -> Result<(), TextFault> {
        let bio = match bio_line(&self.head, records.row()) {
            Ok(bio) => bio,
            Err(why) => return Err(records.fault(why)),
        };
        match items {
            None => match Request::of(alloc, bio) {
                Ok(request) => {
                    *items = Some(request);
                    Ok(())
                }
                Err(_) => Err(records.fault(TextReason::Memory)),
            },
            Some(request) => {
                if !tiles(request, &bio, &self.limits) {
                    return Err(records.fault(TextReason::Tile));
                }
                match append(request, bio, &self.limits) {
                    Ok(()) => Ok(()),
                    Err(AllocError) => Err(records.fault(TextReason::Memory)),
                }
            }
        }
    }
}

/// The request of the next records, in this number.
pub(crate) fn read_group<R: Read + Drop>(
    alloc: Global,
    records: &mut Records<R>,
    head: HeadForm,
    limits: Limits,
    bios: u64,
) -> Result<Request, TextFault>
    requires some { (1 ≤ bios) × (bios ≤ MAX_SEGMENTS) }
    requires room { records.old.at + MAX_SEGMENTS < 2 ^ 64 - 1 }
    ensures ok { IfOk result (Reads (group head.version limits bios) records.old.left records.new.left) }
    ensures fits { IfOk result (group head.version limits bios).Fits }
    ensures end { IfOk result (λ r. records.new.at ≡ records.old.at + length r) }
    ensures err { IfErr result (λ f. Fails records.new.failed (group head.version limits bios) records.old.left records.old.at f.at f.why) }
    ensures last { IfErr result (λ f. (records.old.at ≤ f.at) × (f.at ≤ records.new.at)) }
    ensures reads { (records.old.at ≤ records.new.at) × (records.new.at ≤ records.old.at + bios) }
{
    let form = GroupForm { head, limits };
    let mut items = None;
    match gather(alloc, records, &form, Repeats::Exactly(bios), &mut items) {
        Ok(true) => unreachable!(),
        Ok(false) => {}
        Err(fault) => return Err(fault),
    }
    match items {
        Some(request) => Ok(request),
        None => unreachable!(),
    }
}
