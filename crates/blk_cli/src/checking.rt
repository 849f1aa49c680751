//! The job over a certificate of either form: its check, and the line on what it proves.

ghost use Rattle.std.specs.Prelude.{◌≡◌, OnOk, IfOk, IfErr};
ghost use Rattle.edd_commands.specs.Capacity.{fixed};
ghost use Rattle.blk_records.specs.Certificate.{IsClaim, claimed};
ghost use Rattle.blk_records.specs.OnTime.{on_time_claimed, IsOnTimeClaim};
ghost use Rattle.blk_records.specs.Proof.{OfLateness, OfOnTime, SpellsProof, ProofFault, proof_claimed, IsProofClaim};
ghost use Rattle.blk_cli.specs.Inputs.{Of, FailsOver};
ghost use Rattle.blk_cli.specs.Certificates.{IsProved, IsOnTimeProved, IsClaimFailure, IsOnTimeUnproved, IsCheckText, IsBad, sentence_parts, bound_parts, no_commands_parts, verdict_parts, on_time_verdict_parts};
ghost use Rattle.blk_cli.specs.Inside.Certificates.{IsCrowdingOf, IsBoundOf};

use crate::failure::Failure;
use crate::forms::written;
use answer::names::{CARRIES, CARRY, LATENESS, LOAD, MET, OF, OUTSIDE, WINDOWS};
use answer::{Answer, Cell, Layout, Line, Part, Value, Word};
use blk_args::Form;
use blk_records::{Certificate, OnTimeCertificate, Proof, Records, read_proof};
use edd_check::{Bound, Crowding, check, check_on_time};
use edd_commands::Capacity;
use std::alloc::{AllocError, Global};
use std::io::Read;

/// How crowded the window is that proves a certificate's lateness least; nothing where it has no commands.
fn verify(alloc: Global, certificate: &Certificate) -> Result<Option<Crowding>, Failure>
    requires { IsClaim (claimed certificate.now) }
    ensures proved { OnOk result (IsProved (claimed certificate.now)) }
    ensures crowding { IfOk result (IsCrowdingOf (claimed certificate.now) (claimed certificate.now).bound) }
    ensures unproved { IfErr result (IsClaimFailure (claimed certificate.now)) }
{
    let commands = certificate.commands.as_slice();
    let rounds = certificate.rounds.as_slice();
    match certificate.bound {
        None => Ok(None),
        Some((lateness, window)) => {
            let Ok(capacity) = Capacity::fixed(alloc, certificate.depth) else {
                return Err(Failure::Memory);
            };
            match check(alloc, commands, &capacity, lateness, rounds, window) {
                Ok(crowding) => Ok(Some(crowding)),
                Err(fault) => Err(Failure::Check(fault)),
            }
        }
    }
}

/// What is said on one line, and what ends it.
fn sentence(alloc: Global, cells: Vec<Cell>, end: &'static str) -> Result<Answer, AllocError>
    ensures { IfOk result (λ answer. answer ≡ sentence_parts cells.items end.now) }
{
    let mut answer = Answer::new(alloc);
    answer.add(Part::Line(Line::new(cells, end)))?;
    Ok(answer)
}

/// What is said of a certificate without commands: each of its members is nothing.
fn no_commands_answer(alloc: Global) -> Result<Answer, AllocError>
    ensures { IfOk result (λ answer. answer ≡ no_commands_parts) }
{
    let cells = Vec::from_array(
        alloc,
        [
            Cell::new(
                Layout::Words(Word::new("ok ")),
                LATENESS,
                Value::Nothing(Word::new("no commands")),
            ),
            Cell::new(Layout::Plain, LOAD, Value::Nothing(Word::new(""))),
            Cell::new(Layout::Plain, CARRIES, Value::Nothing(Word::new(""))),
        ],
    )?;
    sentence(alloc, cells, "\n")
}

/// What is said of one with a bound, whose window holds `asked` commands and carries `carries`.
fn bound_answer(
    alloc: Global,
    lateness: i64,
    asked: u64,
    carries: u64,
) -> Result<Answer, AllocError>
    ensures { IfOk result (λ answer. answer ≡ bound_parts lateness asked carries) }
{
    let cells = Vec::from_array(
        alloc,
        [
            Cell::new(
                Layout::WordsName(Word::new("ok ")),
                LATENESS,
                Value::Signed(lateness),
            ),
            Cell::new(Layout::NextName, LOAD, Value::Count(asked)),
            Cell::new(Layout::NextName, CARRIES, Value::Count(carries)),
        ],
    )?;
    sentence(alloc, cells, "\n")
}

/// What is said of a certificate that was verified, whose window is this crowded.
fn verdict(
    alloc: Global,
    certificate: &Certificate,
    crowding: Option<Crowding>,
) -> Result<Answer, AllocError>
    requires { IsCrowdingOf (claimed certificate.now) (claimed certificate.now).bound crowding }
    ensures { IfOk result (λ answer. answer ≡ verdict_parts (claimed certificate.now) (claimed certificate.now).bound) }
{
    match (certificate.bound, crowding) {
        (Some((lateness, _)), Some(crowding)) => {
            bound_answer(alloc, lateness, crowding.load, crowding.carries)
        }
        _ => no_commands_answer(alloc),
    }
}

/// What is written of a certificate of a least lateness, which proves it.
fn lateness_checked(
    alloc: Global,
    form: Form,
    certificate: &Certificate,
) -> Result<Vec<u8>, Failure>
    requires { IsClaim (claimed certificate.now) }
    ensures good { IfOk result (λ text. IsCheckText form (OfLateness (claimed certificate.now)) text.items) }
    ensures unproved { IfErr result (IsClaimFailure (claimed certificate.now)) }
{
    let crowding = match verify(alloc, certificate) {
        Ok(crowding) => crowding,
        Err(failure) => return Err(failure),
    };
    let Ok(answer) = verdict(alloc, certificate, crowding) else {
        return Err(Failure::Memory);
    };
    match written(alloc, form, &answer) {
        Ok(text) => Ok(text),
        Err(_) => Err(Failure::Memory),
    }
}

/// The bound of a certificate's windows, which prove that no schedule has more commands on time under its depth in every round.
fn verify_on_time(
    alloc: Global,
    certificate: &OnTimeCertificate,
    capacity: &Capacity<Global>,
) -> Result<Bound, Failure>
    requires claim { IsOnTimeClaim (on_time_claimed certificate.now) }
    requires capacity { capacity.now ≡ fixed certificate.now.depth }
    ensures proved { OnOk result (IsOnTimeProved (on_time_claimed certificate.now)) }
    ensures bound { IfOk result (IsBoundOf (on_time_claimed certificate.now)) }
    ensures on_time_unproved { IfErr result (IsOnTimeUnproved (on_time_claimed certificate.now)) }
{
    let commands = certificate.commands.as_slice();
    let rounds = certificate.rounds.as_slice();
    let cover = certificate.cover.as_slice();
    match check_on_time(
        alloc,
        commands,
        capacity,
        rounds,
        certificate.on_time,
        cover,
    ) {
        Ok(bound) => Ok(bound),
        Err(fault) => Err(Failure::OnTime(fault)),
    }
}

/// What is said of a certificate that was verified, whose windows have this bound.
fn on_time_verdict(
    alloc: Global,
    certificate: &OnTimeCertificate,
    bound: Bound,
) -> Result<Answer, AllocError>
    requires { IsBoundOf (on_time_claimed certificate.now) bound }
    ensures { IfOk result (λ answer. answer ≡ on_time_verdict_parts (on_time_claimed certificate.now)) }
{
    let count = certificate.commands.len() as u64;
    let windows = certificate.cover.len() as u64;
    let cells = Vec::from_array(
        alloc,
        [
            Cell::new(
                Layout::WordsName(Word::new("ok ")),
                MET,
                Value::Count(certificate.on_time),
            ),
            Cell::new(Layout::NextName, OF, Value::Count(count)),
            Cell::new(Layout::NextName, WINDOWS, Value::Count(windows)),
            Cell::new(Layout::NextName, CARRY, Value::Count(bound.carries)),
            Cell::new(
                Layout::Words(Word::new(" and ")),
                OUTSIDE,
                Value::Count(bound.outside),
            ),
        ],
    )?;
    sentence(alloc, cells, " outside\n")
}

/// What is written of a certificate of what is on time, which proves it.
fn on_time_checked(
    alloc: Global,
    form: Form,
    certificate: &OnTimeCertificate,
) -> Result<Vec<u8>, Failure>
    requires { IsOnTimeClaim (on_time_claimed certificate.now) }
    ensures good { IfOk result (λ text. IsCheckText form (OfOnTime (on_time_claimed certificate.now)) text.items) }
    ensures on_time_unproved { IfErr result (IsOnTimeUnproved (on_time_claimed certificate.now)) }
{
    let Ok(capacity) = Capacity::fixed(alloc, certificate.depth) else {
        return Err(Failure::Memory);
    };
    let bound = match verify_on_time(alloc, certificate, &capacity) {
        Ok(bound) => bound,
        Err(failure) => return Err(failure),
    };
    let Ok(answer) = on_time_verdict(alloc, certificate, bound) else {
        return Err(Failure::Memory);
    };
    match written(alloc, form, &answer) {
        Ok(text) => Ok(text),
        Err(_) => Err(Failure::Memory),
    }
}

/// What is written of a certificate of either kind, which proves what it claims.
fn checked(alloc: Global, form: Form, proof: &Proof) -> Result<Vec<u8>, Failure>
    requires { IsProofClaim (proof_claimed proof.now) }
    ensures good { IfOk result (λ text. IsCheckText form (proof_claimed proof.now) text.items) }
    ensures bad { IfErr result (IsBad (proof_claimed proof.now)) }
{
    match proof {
        Proof::Lateness(certificate) => lateness_checked(alloc, form, certificate),
        Proof::OnTime(certificate) => on_time_checked(alloc, form, certificate),
    }
}

/// Reads a certificate of either kind, checks it, and gives what it proves in this form.
pub fn over_proof<R: Read + Drop>(
    alloc: Global,
    form: Form,
    records: &mut Records<R>,
) -> Result<Vec<u8>, Failure>
    requires { records.old.at ≡ 0 }
    ensures text { IfOk result (λ text. Of SpellsProof (IsCheckText form) records.old.left text.items) }
    ensures fails { IfErr result (FailsOver SpellsProof ProofFault IsBad records.old.left records.new.failed) }
{
    let proof = match read_proof(alloc, records) {
        Ok(proof) => proof,
        Err(fault) => return Err(Failure::Text(fault)),
    };
    checked(alloc, form, &proof)
}
