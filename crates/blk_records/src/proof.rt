//! Certificates of either form, told by their titles.

ghost use Rattle.std.specs.Prelude.{◌≡◌, ◌+◌, ◌*◌, ◌≤◌, IfOk, IfErr, IfSome};
ghost use Rattle.blk_records.specs.Reads.{FaultsBy, Reaches};
ghost use Rattle.blk_records.specs.Proof.{proof_claimed, proof_form, proof_size, IsProofClaim, SpellsProof, ProofFault};

use crate::certificate::{CERTIFICATE, Certificate, read_claim_body};
use crate::fault::{TextFault, TextReason};
use crate::fields::begins_with;
use crate::items::{RecordForm, read_record};
use crate::on_time::{ON_TIME, OnTimeCertificate, read_on_time_body};
use crate::source::Records;
use csv::ByteRecord;
use edd_commands::MAX_COMMANDS;
use std::alloc::Global;
use std::io::Read;

/// A certificate of either form.
#[derive(Debug, Drop)]
pub enum Proof {
    /// That no schedule has a smaller greatest lateness.
    Lateness(Certificate),
    /// That no schedule has more commands on time.
    OnTime(OnTimeCertificate),
}

/// Which of the two a title names.
#[derive(Clone, Copy, Debug, PartialEq, Eq)]
pub(crate) enum ProofKind {
    Lateness,
    OnTime,
}

/// The title record of either form: which it is, the version, and with it the depth and the number of commands.
#[derive(Clone, Copy, Drop)]
struct ProofTitleForm;

impl RecordForm for ProofTitleForm {
    ghost use Rattle.blk_records.specs.Inside.Proof.{proof_title};

    type Value = (ProofKind, (u64, (u64, u64)));

    ghost part = { λ _. proof_title };

    #[tactic(auto, using(crate::proofs::ProofLaws::title_one, crate::proofs::ProofLaws::title_gone))]
    fn gone(&self) -> TextReason {
        TextReason::Title
    }

    fn value(&self, row: &ByteRecord) -> Result<(ProofKind, (u64, (u64, u64))), TextReason> {
        if begins_with(row, &CERTIFICATE.word) {
            let (version, [_, _, depth, count]) = CERTIFICATE.read(row)?;
            return Ok((ProofKind::Lateness, (version, (depth, count))));
        }
        if begins_with(row, &ON_TIME.word) {
            let (version, [_, _, depth, count]) = ON_TIME.read(row)?;
            return Ok((ProofKind::OnTime, (version, (depth, count))));
        }
        Err(TextReason::Title)
    }
}

/// The certificate of a text of either form: by its title that of [`read_certificate`](crate::read_certificate) or that of
/// [`read_on_time`](crate::read_on_time), with the faults of that form. No record may have been read before.
///
/// A text that begins with neither name is [`TextReason::Title`] at record 1. No record is asked for past that of the fault, and
/// never more than 2 * [`MAX_COMMANDS`] + 3.
pub fn read_proof<R: Read + Drop>(
    alloc: Global,
    records: &mut Records<R>,
) -> Result<Proof, TextFault>
    requires { records.old.at ≡ 0 }
    ensures ok { IfOk result (λ p. IfSome records.old.left (λ rows. SpellsProof rows (proof_claimed p))) }
    // also where the reader's bytes are not known
    ensures in_range { IfOk result (λ p. IsProofClaim (proof_claimed p)) }
    // at the record that was asked for last: none was read past it
    ensures last { IfErr result (λ f. f.at ≡ records.new.at) }
    ensures err { IfErr result (FaultsBy records.old records.new ProofFault) }
    // also where it came from outside: at most one past the last record, and no record before it is wrong
    ensures reached { IfErr result (λ f. Reaches proof_form records.old.left 0 f.at) }
    ensures reads { (1 ≤ records.new.at) × (records.new.at ≤ 2 * MAX_COMMANDS + 3) }
    // the last thing that was asked for is the record after the commands, which there is not
    ensures end { IfOk result (λ p. records.new.at ≡ proof_size (proof_claimed p) + 1) }
{
    let (kind, (_, (depth, count))) = match read_record(records, &ProofTitleForm) {
        Ok(title) => title,
        Err(fault) => return Err(fault),
    };
    match kind {
        ProofKind::Lateness => match read_claim_body(alloc, records, depth, count) {
            Ok(certificate) => Ok(Proof::Lateness(certificate)),
            Err(fault) => Err(fault),
        },
        ProofKind::OnTime => match read_on_time_body(alloc, records, depth, count) {
            Ok(certificate) => Ok(Proof::OnTime(certificate)),
            Err(fault) => Err(fault),
        },
    }
}
