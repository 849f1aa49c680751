//! The jobs over a command list: certificates of what is least and of what is most.

ghost use Rattle.std.specs.Prelude.{◌≡◌, IfOk, IfErr};
ghost use Rattle.blk_records.specs.Commands.{AreCommands, CommandsFault};
ghost use Rattle.blk_records.specs.Certificate.{IsClaim, claimed};
ghost use Rattle.blk_records.specs.OnTime.{IsOnTimeClaim, on_time_claimed};
ghost use Rattle.blk_cli.specs.Inputs.{Of, FailsOver};
ghost use Rattle.blk_cli.specs.Certificates.{SpellsList, IsProved, IsOnTimeProved, IsSolved, IsOracleFailure};

use crate::failure::Failure;
use blk_args::Solving;
use blk_records::{
    Certificate, OnTimeCertificate, Records, certificate_text, on_time_text, read_commands,
};
use edd_commands::{Capacity, Command};
use edd_oracle::{most_on_time, solve};
use std::alloc::Global;
use std::io::Read;

/// The certificate of the least schedule of commands.
fn certify(alloc: Global, depth: u64, commands: Vec<Command>) -> Result<Certificate, Failure>
    requires { AreCommands depth commands.items }
    ensures depth { IfOk result (λ c. c.depth ≡ depth) }
    ensures commands { IfOk result (λ c. c.commands.items ≡ commands.items) }
    ensures in_range { IfOk result (λ c. IsClaim (claimed c)) }
    ensures proved { IfOk result (λ c. IsProved (claimed c)) }
    ensures unsolved { IfErr result (IsOracleFailure (depth, commands.items)) }
{
    let Ok(capacity) = Capacity::fixed(alloc, depth) else {
        return Err(Failure::Memory);
    };
    match solve(alloc, commands.as_slice(), &capacity) {
        Ok(None) => Ok(Certificate {
            depth,
            commands,
            rounds: Vec::new(alloc),
            bound: None,
        }),
        Ok(Some(answer)) => Ok(Certificate {
            depth,
            commands,
            rounds: answer.rounds,
            bound: Some((answer.lateness, answer.window)),
        }),
        Err(fault) => Err(Failure::Solve(fault)),
    }
}

/// The certificate of a schedule that has as many commands on time as any.
fn certify_on_time(
    alloc: Global,
    depth: u64,
    commands: Vec<Command>,
) -> Result<OnTimeCertificate, Failure>
    requires { AreCommands depth commands.items }
    ensures depth { IfOk result (λ c. c.depth ≡ depth) }
    ensures commands { IfOk result (λ c. c.commands.items ≡ commands.items) }
    ensures in_range { IfOk result (λ c. IsOnTimeClaim (on_time_claimed c)) }
    ensures proved { IfOk result (λ c. IsOnTimeProved (on_time_claimed c)) }
    ensures unsolved { IfErr result (IsOracleFailure (depth, commands.items)) }
{
    let Ok(capacity) = Capacity::fixed(alloc, depth) else {
        return Err(Failure::Memory);
    };
    match most_on_time(alloc, commands.as_slice(), &capacity) {
        Ok(answer) => Ok(OnTimeCertificate {
            depth,
            commands,
            rounds: answer.rounds,
            on_time: answer.on_time,
            cover: answer.cover,
        }),
        Err(fault) => Err(Failure::Solve(fault)),
    }
}

/// The text of the certificate of the least schedule of commands.
fn least_of(alloc: Global, depth: u64, commands: Vec<Command>) -> Result<Vec<u8>, Failure>
    requires { AreCommands depth commands.items }
    ensures text { IfOk result (λ text. IsSolved Solving.Least (depth, commands.items) text.items) }
    ensures unsolved { IfErr result (IsOracleFailure (depth, commands.items)) }
{
    let certificate = match certify(alloc, depth, commands) {
        Ok(certificate) => certificate,
        Err(failure) => return Err(failure),
    };
    match certificate_text(alloc, &certificate) {
        Ok(text) => Ok(text),
        Err(_) => Err(Failure::Memory),
    }
}

/// The text of the certificate of how many commands can be on time.
pub(crate) fn most_of(alloc: Global, depth: u64, commands: Vec<Command>) -> Result<Vec<u8>, Failure>
    requires { AreCommands depth commands.items }
    ensures text { IfOk result (λ text. IsSolved Solving.Most (depth, commands.items) text.items) }
    ensures unsolved { IfErr result (IsOracleFailure (depth, commands.items)) }
{
    let certificate = match certify_on_time(alloc, depth, commands) {
        Ok(certificate) => certificate,
        Err(failure) => return Err(failure),
    };
    match on_time_text(alloc, &certificate) {
        Ok(text) => Ok(text),
        Err(_) => Err(Failure::Memory),
    }
}

/// The text of the certificate that is asked for.
fn solved(
    alloc: Global,
    solving: Solving,
    depth: u64,
    commands: Vec<Command>,
) -> Result<Vec<u8>, Failure>
    requires { AreCommands depth commands.items }
    ensures text { IfOk result (λ text. IsSolved solving (depth, commands.items) text.items) }
    ensures unsolved { IfErr result (IsOracleFailure (depth, commands.items)) }
{
    match solving {
        Solving::Least => least_of(alloc, depth, commands),
        Solving::Most => most_of(alloc, depth, commands),
    }
}

/// Reads a command list, and gives the certificate that is asked for.
pub fn over_list<R: Read + Drop>(
    alloc: Global,
    solving: Solving,
    records: &mut Records<R>,
) -> Result<Vec<u8>, Failure>
    requires { records.old.at ≡ 0 }
    ensures text { IfOk result (λ text. Of SpellsList (IsSolved solving) records.old.left text.items) }
    ensures fails { IfErr result (FailsOver SpellsList CommandsFault IsOracleFailure records.old.left records.new.failed) }
{
    let (depth, commands) = match read_commands(alloc, records) {
        Ok(list) => list,
        Err(fault) => return Err(Failure::Text(fault)),
    };
    solved(alloc, solving, depth, commands)
}
