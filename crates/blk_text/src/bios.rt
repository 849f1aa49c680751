//! The record of a bio, in a script and in a group of a trace.

ghost use Rattle.std.specs.Prelude.{◌≡◌, ◌++◌, ◌∷◌, ◌≤◌, [], IfOk, IfErr, OnOk};
ghost use Rattle.csv.specs.Records.{fields_of};
ghost use Rattle.blk_bio.specs.Letters.{direction_text};
ghost use Rattle.blk_bio.specs.declared.bio.Dir.{Dir as Direction};
ghost use Rattle.blk_records.specs.Reads.{IsRowOf, IsWrongRecord};
ghost use Rattle.blk_records.specs.Texts.{rows_text};
ghost use Rattle.blk_records.specs.Words.{StartsWith};
ghost use Rattle.blk_text.specs.Inside.BioTable.{bio_record, bio_row};
ghost use Rattle.blk_text.specs.declared.bios.TheConstants.{BIO};
ghost use Rattle.blk_text.specs.TraceRecords.{BioFits};
ghost use Rattle.text_output.specs.Drafts.{draft_text};

use crate::setup::WIDTH;
use blk_bio::{Bio, BioId, Dir};
use blk_records::fault::TextReason;
use blk_records::fields::{ANY_SLOT, Slot, read_fields};
use blk_records::kinds::Kind;
use blk_records::names::FieldName;
use csv::ByteRecord;
use std::alloc::AllocError;
use text_output::Block;
use text_output::pieces::{put, put_two};

/// The record of a bio: its submitter, below a number of them, its serial, its direction, its first sector and how many.
pub const BIO: Kind<3, WIDTH> = Kind {
    word: *b"bio",
    since: 1,
    slots: [
        Slot::Given,
        ANY_SLOT,
        ANY_SLOT,
        Slot::Direction,
        ANY_SLOT,
        ANY_SLOT,
    ],
    names: [
        FieldName::Word,
        FieldName::Submitter,
        FieldName::Serial,
        FieldName::Direction,
        FieldName::First,
        FieldName::Sectors,
    ],
};

/// The submitters that a bio of a trace may name lie below this number.
pub const MAX_SUBMITTERS: u64 = 1 << 8;

/// The direction of a letter that a record spells.
#[inline]
fn direction_of(letter: u64) -> Dir
    requires { (dir : Direction) × (letter ∷ [] ≡ direction_text dir) }
    ensures { letter ∷ [] ≡ direction_text result }
{
    if letter == b'R' as u64 {
        Dir::Read
    } else {
        Dir::Write
    }
}

/// The bio of a record that begins with its word, of a submitter below this number.
pub fn read_bio(row: &ByteRecord, submitters: u64) -> Result<Bio, TextReason>
    requires some { (1 ≤ submitters) × (submitters ≤ MAX_SUBMITTERS) }
    requires starts { StartsWith BIO.word (fields_of row.now) }
    ensures ok { IfOk result (IsRowOf (bio_record submitters) (fields_of row.now)) }
    ensures err { IfErr result (IsWrongRecord (bio_record submitters) (fields_of row.now)) }
{
    let slots = BIO.below(submitters);
    let numbers = match read_fields(row, &slots) {
        Ok(numbers) => numbers,
        Err(why) => return Err(why),
    };
    let id = BioId {
        submitter: numbers[1] as u8,
        serial: numbers[2],
    };
    match Bio::new(id, direction_of(numbers[3]), numbers[4], numbers[5]) {
        Ok(bio) => Ok(bio),
        Err(fault) => Err(TextReason::Bio(fault)),
    }
}

/// Adds the record of a bio.
#[inline]
pub fn push_bio(draft: &mut Block, bio: &Bio) -> Result<(), AllocError>
    ensures text { OnOk result (draft_text draft.new ≡ draft_text draft.old ++ rows_text (bio_row bio.now ∷ [])) }
    ensures fits { OnOk result (BioFits bio.now) }
{
    let start = draft.room()?;
    let id = bio.id();
    let buf = &mut draft.block;
    let head = put(b"bio,", buf, start);
    let named = put_two(id.submitter as u64, id.serial, buf, head);
    let way = put(&[b',', bio.dir().letter(), b','], buf, named);
    let placed = put_two(bio.first(), bio.sectors(), buf, way);
    draft.at = put(b"\n", buf, placed);
    Ok(())
}
