//! The job over a capture that tells what its late requests are blamed on.

ghost use Rattle.std.specs.Prelude.{◌≡◌, ◌≤◌, IfOk, IfErr, length};
ghost use Rattle.edd_commands.specs.declared.TheConstants.{MAX_COMMANDS};
ghost use Rattle.blk_capture.specs.Requests.{AreInOrder, AreTimed};
ghost use Rattle.blk_capture_text.specs.Imports.{first_time};
ghost use Rattle.blk_cli.specs.Said.{said_of};
ghost use Rattle.blk_cli.specs.Importing.{grouped_by, IsWholeBlame, IsEachBlame, IsBlameCertificate, aim_of, IsTightestText, IsBlamingText, IsMadeOf, IsOutputFailure};

use crate::Answered;
use crate::failure::Failure;
use crate::forms::written;
use crate::lists::most_of;
use crate::taken::take_requests;
use blk_args::{BlameBy, Blaming, Form, Import, ShownBlame, TightestAsked};
use blk_bio::Dir;
use blk_blame::{
    GroupedBy, OnTimeTarget, blame_answer, blame_picture, each_answer, tightest_answer,
};
use blk_capture::{CapturedRequest, CountedSchedule, Record, rounds_of};
use blk_capture_text::first_time;
use std::alloc::{AllocError, Global};

/// By what the table of whose requests were late is put together, where there is one.
fn grouped_by(by: BlameBy) -> Option<GroupedBy>
    ensures { result ≡ grouped_by by }
{
    match by {
        BlameBy::Process => Some(GroupedBy::Process),
        BlameBy::Processor => Some(GroupedBy::Processor),
        BlameBy::Nobody => None,
    }
}

/// What is said of what the late ones of requests are blamed on.
fn whole_text(
    alloc: Global,
    blaming: Blaming,
    begin: u64,
    requests: &[CapturedRequest],
) -> Result<Vec<u8>, AllocError>
    requires timed { AreTimed requests.now }
    requires few { length requests.now ≤ MAX_COMMANDS }
    ensures { IfOk result (λ text. IsWholeBlame blaming begin requests.now text.items) }
{
    let by = grouped_by(blaming.by);
    let answer = blame_answer(alloc, by, blaming.most, begin, requests)?;
    written(alloc, blaming.form, &answer)
}

/// What is said of each of them.
fn each_text(
    alloc: Global,
    form: Form,
    begin: u64,
    requests: &[CapturedRequest],
) -> Result<Vec<u8>, AllocError>
    requires timed { AreTimed requests.now }
    requires few { length requests.now ≤ MAX_COMMANDS }
    ensures { IfOk result (λ text. IsEachBlame form begin requests.now text.items) }
{
    let answer = each_answer(alloc, begin, requests)?;
    written(alloc, form, &answer)
}

/// The certificate of how many requests can be on time.
fn certificate_of(alloc: Global, requests: &[CapturedRequest]) -> Result<Vec<u8>, AllocError>
    requires timed { AreTimed requests.now }
    requires few { length requests.now ≤ MAX_COMMANDS }
    ensures { IfOk result (λ text. IsBlameCertificate requests.now text.items) }
{
    let counted = rounds_of(alloc, requests)?;
    let CountedSchedule {
        commands,
        rounds: _,
    } = counted;
    // commands that count requests are refused only when out of memory
    match most_of(alloc, 1, commands) {
        Ok(text) => Ok(text),
        Err(_) => Err(AllocError),
    }
}

/// Of which direction the tightest is asked for, by what its requests are due, and how many of them are to be on time.
fn aim_of(wanted: Import, asked: TightestAsked) -> OnTimeTarget
    ensures { result ≡ aim_of wanted asked }
{
    if asked.writes {
        OnTimeTarget {
            dir: Dir::Write,
            expire: wanted.write_expire,
            share: asked.share,
        }
    } else {
        OnTimeTarget {
            dir: Dir::Read,
            expire: wanted.read_expire,
            share: asked.share,
        }
    }
}

/// What is said of the least deadline of a direction.
fn tightest_text(
    alloc: Global,
    form: Form,
    aim: OnTimeTarget,
    requests: &[CapturedRequest],
) -> Result<Vec<u8>, AllocError>
    requires timed { AreTimed requests.now }
    requires few { length requests.now ≤ MAX_COMMANDS }
    ensures { IfOk result (λ text. IsTightestText form aim requests.now text.items) }
{
    let answer = tightest_answer(alloc, requests, aim)?;
    written(alloc, form, &answer)
}

/// What is asked for of these.
fn text_of(
    alloc: Global,
    wanted: Import,
    blaming: Blaming,
    begin: u64,
    requests: &[CapturedRequest],
) -> Result<Vec<u8>, AllocError>
    requires timed { AreTimed requests.now }
    requires few { length requests.now ≤ MAX_COMMANDS }
    ensures { IfOk result (λ text. IsBlamingText blaming wanted begin requests.now text.items) }
{
    match blaming.shown {
        ShownBlame::Whole => whole_text(alloc, blaming, begin, requests),
        ShownBlame::Each => each_text(alloc, blaming.form, begin, requests),
        ShownBlame::Certificate => certificate_of(alloc, requests),
        ShownBlame::Tightest(asked) => {
            tightest_text(alloc, blaming.form, aim_of(wanted, asked), requests)
        }
        ShownBlame::Picture => blame_picture(alloc, begin, requests),
    }
}

/// What the late requests of a capture are blamed on, and what is said beside it, as of their schedule.
pub fn blamed(
    alloc: Global,
    wanted: Import,
    blaming: Blaming,
    records: &[Record],
) -> Result<Answered, Failure>
    requires { AreInOrder records.now (length records.now) }
    ensures answers { IfOk result (λ answer. IsMadeOf (IsBlamingText blaming wanted (first_time records.now)) wanted records.now (said_of answer)) }
    ensures fails { IfErr result (IsOutputFailure wanted records.now) }
{
    let taken = match take_requests(alloc, wanted, records) {
        Ok(taken) => taken,
        Err(failure) => return Err(failure),
    };
    let begin = first_time(records);
    match text_of(alloc, wanted, blaming, begin, taken.requests.as_slice()) {
        Ok(text) => Ok(taken.beside(text)),
        Err(_) => Err(Failure::Memory),
    }
}
