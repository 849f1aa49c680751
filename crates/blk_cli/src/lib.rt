//! The command line of the program, over a reader and two writers.
#![tactic(auto)]

ghost use Rattle.std.specs.Prelude.{◌≡◌, ◌≤◌, IfOk, IfErr, Result, map, string_bytes};
ghost use Rattle.text_output.specs.Outputs.{stream_of};
ghost use Rattle.blk_cli.specs.Said.{only, said_of, IsAlone};
ghost use Rattle.blk_cli.specs.Gives.{GivesText, TellsOf, HasNoText, GivesAnswer, HasNoAnswer, ReadsNothing, version_line};
ghost use Rattle.blk_cli.specs.Ends.{Answers, AskForGood, AskForNoInput, AskForTexts, IsWithout, IsWithoutAnswer, IsFailureOf, says_more, line_told, status_with, SaysBeside, EndsSaying, EndsWithout, RunEndsOn, EndsAs, HasRun, IsRunOf};
ghost use Rattle.blk_cli.specs.Inside.Ends.{EndsPutOn};

mod blaming;
mod checking;
mod comparing;
mod drawing;
mod explaining;
mod failure;
mod figures;
mod forms;
mod importing;
mod judging;
mod lists;
mod loading;
mod notes;
mod picturing;
mod replaying;
mod scripts;
mod taken;
mod titles;
mod traces;
mod tuning;
mod unflushed;

use crate::checking::over_proof;
use crate::drawing::draw_schedule;
use crate::explaining::over_bytes;
pub use crate::failure::Failure;
use crate::failure::tell_more;
use crate::importing::over_capture;
use crate::judging::over_schedule;
use crate::lists::over_list;
use crate::loading::run_load;
use crate::scripts::over_script;
use crate::titles::more_of;
use crate::traces::over_trace;
use crate::tuning::over_trial;
use blk_args::{Job, NoJob, TextJob, choose, version};
use blk_capture_text::UnreadCapture;
use blk_records::{Records, TextFault, TextReason};
use blk_schedulers::Loads;
pub use blk_sim::laws;
use csv::ByteRecord;
use std::alloc::Global;
use std::io::{Read, Write};
use std::sync::Wait;
use std::thread::Threads;
use text_output::Output;
use turns::Progress;

/// The exit status of a run that did what it was asked.
const GOOD: u8 = 0;

/// The exit status of refused input.
const REFUSED: u8 = 1;

/// The exit status of arguments that are no command line of the program.
pub const COMMAND_LINE: u8 = 2;

/// The line for arguments that clap takes and that name no job: only these two flags do.
const NO_JOB: &[u8] = b"blk: --trace and --met exclude one another\n";

/// How a run ended.
#[derive(Clone, Copy, Debug, PartialEq, Eq)]
pub struct Ended {
    /// Its exit status.
    pub status: u8,
    /// Whether all that it had to say was written; true where it had nothing to say.
    pub said: bool,
}

/// What a job answers.
#[derive(Drop)]
pub struct Answered {
    /// What is written to the output.
    pub text: Vec<u8>,
    /// The line that is said beside it, of what the text leaves out; most jobs have none.
    pub note: Option<Vec<u8>>,
    /// Whether what was looked at is good: the run ends with [`GOOD`] then, and else with [`REFUSED`].
    pub good: bool,
}

impl Answered {
    /// A text alone, with nothing wrong.
    fn alone(text: Vec<u8>) -> Answered
        ensures { said_of result ≡ only text.items }
    {
        Answered {
            text,
            note: None,
            good: true,
        }
    }

    /// The status of a run that wrote the text.
    fn status(&self) -> u8
        ensures { result ≡ status_with self.now.good }
    {
        if self.good { GOOD } else { REFUSED }
    }

    /// Says the note, where there is one, and ends with the status of the answer, even where the note can't be said.
    fn say<F: Write>(&self, faults: &mut Output<F>) -> Ended
        ensures status { result.status ≡ status_with self.now.good }
        ensures says { SaysBeside (said_of self.now).note (stream_of F.contents faults.old) (stream_of F.contents faults.new) result.said }
        ensures quiet { IsAlone (said_of self.now) → faults.new ≡ faults.old }
    {
        let status = self.status();
        match &self.note {
            None => Ended { status, said: true },
            Some(note) => match faults.put(note.as_slice()) {
                Ok(()) => Ended { status, said: true },
                Err(_) => Ended {
                    status,
                    said: false,
                },
            },
        }
    }
}

/// Why arguments get no text.
#[derive(Drop)]
pub enum NoText {
    /// The job that they ask for fails, or memory ran out before they were read.
    Failure(Failure),
    /// The job that they ask for fails for a fault of its text, of which more is said than its name: what the text is and what was wanted, where
    /// the title is that of another; or what to do with one that is too long.
    Told(TextFault, Vec<u8>),
    /// They are no command line of the program, or ask for its help: what clap says of them.
    Usage(String),
    /// Their flags exclude one another.
    Excluded,
}

impl NoText {
    /// Writes the line that says so and ends with its status, even where the line can't be written.
    pub fn say<F: Write>(&self, faults: &mut Output<F>) -> Ended
        ensures ends { EndsWithout self.now (stream_of F.contents faults.old) (stream_of F.contents faults.new) result }
        ensures range { (1 ≤ result.status) × (result.status ≤ 3) }
    {
        match self {
            NoText::Failure(failure) => failure.say(faults),
            NoText::Told(fault, text) => refuse_text(*fault, text.as_slice(), faults),
            NoText::Usage(text) => refuse(text.as_bytes(), faults),
            NoText::Excluded => refuse(NO_JOB, faults),
        }
    }
}

/// Writes the line on arguments that ask for nothing and ends with their status, even where the line can't be written.
fn refuse<F: Write>(line: &[u8], faults: &mut Output<F>) -> Ended
    ensures { EndsSaying 2 line.now (stream_of F.contents faults.old) (stream_of F.contents faults.new) result }
{
    match faults.put(line) {
        Ok(()) => Ended {
            status: COMMAND_LINE,
            said: true,
        },
        Err(_) => Ended {
            status: COMMAND_LINE,
            said: false,
        },
    }
}

/// Writes the line on a fault of a text of which more is said than its name, and ends with its status, even where the line can't be written.
fn refuse_text<F: Write>(fault: TextFault, text: &[u8], faults: &mut Output<F>) -> Ended
    ensures { EndsSaying 1 (line_told fault text.now) (stream_of F.contents faults.old) (stream_of F.contents faults.new) result }
{
    match tell_more(faults, fault.at, fault.why.name(), text) {
        Ok(()) => Ended {
            status: REFUSED,
            said: true,
        },
        Err(_) => Ended {
            status: REFUSED,
            said: false,
        },
    }
}

/// The line with the program's name and version.
fn version_text(alloc: Global) -> Result<Vec<u8>, Failure>
    ensures text { IfOk result (λ text. text.items ≡ version_line) }
    ensures memory { IfErr result (λ f. f ≡ Failure.Memory) }
{
    let version = version();
    match format!(in alloc; "blk {version}\n") {
        Ok(line) => Ok(line.into_bytes()),
        Err(_) => Err(Failure::Memory),
    }
}

/// What a job over a text answers. Each kind of such a job is a row here: what it reads.
fn work<R: Read + Drop>(
    alloc: Global,
    job: TextJob,
    records: &mut Records<R>,
) -> Result<Answered, Failure>
    requires { records.old.at ≡ 0 }
    ensures text { IfOk result (λ a. GivesText job records.old.left (said_of a).text) }
    ensures beside { IfOk result (λ a. TellsOf job records.old.left (said_of a)) }
    ensures fails { IfErr result (HasNoText job records.old.left records.new.failed) }
{
    match job {
        TextJob::OfScript(running) => over_script(alloc, running, records),
        TextJob::OfTrace(telling) => match over_trace(alloc, telling, records) {
            Ok(text) => Ok(Answered::alone(text)),
            Err(failure) => Err(failure),
        },
        TextJob::OfList(solving) => match over_list(alloc, solving, records) {
            Ok(text) => Ok(Answered::alone(text)),
            Err(failure) => Err(failure),
        },
        TextJob::Check(form) => match over_proof(alloc, form, records) {
            Ok(text) => Ok(Answered::alone(text)),
            Err(failure) => Err(failure),
        },
        TextJob::Judge { each } => over_schedule(alloc, each, records),
        TextJob::Draw => match draw_schedule(alloc, records) {
            Ok(text) => Ok(Answered::alone(text)),
            Err(failure) => Err(failure),
        },
    }
}

/// Whether more is said of a fault than its name.
fn says_more(why: TextReason) -> bool
    ensures { result ≡ says_more why }
{
    match why {
        TextReason::Title | TextReason::TooLong => true,
        _ => false,
    }
}

/// Why a job has no answer, given its failure and the record that was read last. Where a subcommand of the project's own was given the text of
/// another, or a capture that is too long, more is said of that.
fn without(alloc: Global, job: Job, failure: Failure, row: &ByteRecord) -> NoText
    ensures { IsFailureOf failure result }
{
    let fault = match failure {
        Failure::Text(fault) => fault,
        Failure::Unread(UnreadCapture::Text(fault)) => fault,
        _ => return NoText::Failure(failure),
    };
    if !says_more(fault.why) {
        return NoText::Failure(failure);
    }
    match more_of(alloc, job, fault.why, row) {
        Ok(Some(text)) => NoText::Told(fault, text),
        Ok(None) => NoText::Failure(failure),
        Err(_) => NoText::Failure(Failure::Memory),
    }
}

/// What a job answers, or why there is none. Each kind is a row here: what it needs. Loads are run by `loads`, on the threads of `rt`, and so are
/// trials and replays of the grid that the arguments ask for, which tell `progress` how far they have come.
fn answer_of<L: Loads, T: Threads + Wait + Sync, R: Read + Drop, P: Progress>(
    loads: &L,
    rt: &T,
    alloc: Global,
    words: &[String],
    job: Job,
    records: &mut Records<R>,
    progress: &mut P,
) -> Result<Answered, NoText>
    requires { records.old.at ≡ 0 }
    ensures answer { IfOk result (λ a. GivesAnswer (map string_bytes words.now) job records.old.left records.old.bytes (said_of a)) }
    ensures none { IfErr result (IsWithoutAnswer (map string_bytes words.now) job records.old.left records.old.bytes records.new.failed) }
    ensures unread { ReadsNothing job → records.new ≡ records.old }
    ensures run { HasRun L.ends_as job result }
{
    match job {
        Job::Version => match version_text(alloc) {
            Ok(text) => Ok(Answered::alone(text)),
            Err(failure) => Err(NoText::Failure(failure)),
        },
        Job::OfText(of_text) => match work(alloc, of_text, records) {
            Ok(answer) => Ok(answer),
            Err(failure) => Err(without(alloc, job, failure, records.row())),
        },
        Job::Tune(tuning) => match over_trial(rt, alloc, words, tuning, records, progress) {
            Ok(answer) => Ok(answer),
            Err(failure) => Err(without(alloc, job, failure, records.row())),
        },
        Job::Import(import) => over_capture(rt, alloc, words, import, records, progress),
        Job::Refuse(refusal) => Err(NoText::Failure(Failure::Words(refusal))),
        Job::Explain => match over_bytes(alloc, records) {
            Ok(answer) => Ok(answer),
            Err(failure) => Err(NoText::Failure(failure)),
        },
        Job::Load(sched, amounts, shown, times) => {
            match run_load(loads, rt, alloc, sched, amounts, shown, times) {
                Ok(answer) => Ok(answer),
                Err(failure) => Err(NoText::Failure(failure)),
            }
        }
    }
}

/// What the program answers to the arguments of its command line, the first of which is its name, or why there is nothing.
/// Nothing is written to the outputs. Loads are run by `loads`, on the threads of `rt`, and so are trials, which tell `progress` how far they
/// have come.
pub fn answer<L: Loads, T: Threads + Wait + Sync, R: Read + Drop, P: Progress>(
    loads: &L,
    rt: &T,
    alloc: Global,
    words: &[String],
    records: &mut Records<R>,
    progress: &mut P,
) -> Result<Answered, NoText>
    requires { records.old.at ≡ 0 }
    ensures answers { IfOk result (λ answer. Answers (map string_bytes words.now) records.old.left records.old.bytes (said_of answer)) }
    ensures without { IfErr result (IsWithout (map string_bytes words.now) records.old.left records.old.bytes records.new.failed) }
    ensures unread { AskForNoInput (map string_bytes words.now) → records.new ≡ records.old }
    // of a load that the arguments ask for, just it is run, and what it ends with is answered
    ensures run { IsRunOf L.ends_as (map string_bytes words.now) result }
{
    match choose(alloc, words) {
        Ok(job) => match answer_of(loads, rt, alloc, words, job, records, progress) {
            Ok(answer) => Ok(answer),
            Err(none) => Err(none),
        },
        Err(NoJob::Memory) => Err(NoText::Failure(Failure::Memory)),
        Err(NoJob::Usage(text)) => Err(NoText::Usage(text)),
        Err(NoJob::Nothing) => Err(NoText::Excluded),
    }
}

/// Writes the text of an answer, the one call by which anything reaches the output, and says its note. Where the writer fails, a
/// prefix of the text is out, the note isn't said, and a line to `faults` says that the write failed.
fn put_out<W: Write, F: Write>(
    answer: &Answered,
    out: &mut Output<W>,
    faults: &mut Output<F>,
) -> Ended
    ensures ends { EndsPutOn W.contents F.contents (said_of answer.now) out.old out.new faults.old faults.new result }
    ensures quiet { IsAlone (said_of answer.now) → result.status ≡ 0 → faults.new ≡ faults.old }
{
    match out.put(answer.text.as_slice()) {
        Ok(()) => answer.say(faults),
        Err(_) => Failure::Write.say(faults),
    }
}

/// Runs the program on the arguments of its command line, the first of which is its name: reads the input from `records` and writes the
/// output to `out`. On failure, or where the output leaves something out, it writes one line to `faults`. Loads are run by `loads`, on
/// the threads of `rt`, and so are trials, which tell `progress` how far they have come. Answers how it ended.
pub fn run<L: Loads, T: Threads + Wait + Sync, R: Read + Drop, W: Write, F: Write, P: Progress>(
    loads: &L,
    rt: &T,
    alloc: Global,
    words: &[String],
    records: &mut Records<R>,
    out: &mut Output<W>,
    faults: &mut Output<F>,
    progress: &mut P,
) -> Ended
    requires { records.old.at ≡ 0 }
    ensures ended { RunEndsOn W.contents F.contents words.now records.old records.new out.old out.new faults.old faults.new result }
    // nothing is read where the arguments ask for nothing of the input: for the version or a load, for what is refused, or for no job
    ensures unread { AskForNoInput (map string_bytes words.now) → records.new ≡ records.old }
    // nothing is written at status 2
    ensures unwritten { result.status ≡ 2 → out.new ≡ out.old }
    // nor at status 1, where the arguments ask for what is good if it is answered; where they ask for a text alone, nothing is said at status 0
    ensures kept { AskForGood (map string_bytes words.now) → result.status ≡ 1 → out.new ≡ out.old }
    ensures quiet { AskForTexts (map string_bytes words.now) → result.status ≡ 0 → faults.new ≡ faults.old }
    ensures range { result.status ≤ 3 }
    // a load's text and its fault are those of just the load that the arguments ask for
    ensures run { (r : Result Answered NoText) × IsRunOf L.ends_as (map string_bytes words.now) r × EndsAs W.contents F.contents r out.old out.new faults.old faults.new result }
{
    let answered = answer(loads, rt, alloc, words, records, progress);
    progress.over();
    match answered {
        Ok(answer) => put_out(&answer, out, faults),
        Err(none) => none.say(faults),
    }
}
