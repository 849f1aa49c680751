//! The job over a capture: what is written of it, what is said of what that leaves out, and its arrivals as a script.

ghost use Rattle.std.specs.Prelude.{◌≡◌, ◌≤◌, List, [], IfOk, IfErr, length, map, option_map, string_bytes};
ghost use Rattle.blk_capture.specs.Requests.{AreInOrder};
ghost use Rattle.blk_capture.specs.declared.record.Record.{Record};
ghost use Rattle.blk_capture_text.specs.Shown.{IsShown};
ghost use Rattle.blk_capture_text.specs.Streaming.{HasStreamed};
ghost use Rattle.blk_capture_text.specs.Streams.{IsSummable};
ghost use Rattle.blk_cli.specs.Said.{said_of};
ghost use Rattle.blk_cli.specs.Importing.{entry_asked, most_asked, asked_of, terms_of, IsMadeOf, IsOutputFailure, IsScripted, IsScriptFailure, IsImported, IsImportFailure, noted, tags_asked, SaysFrom, IsImportedFrom, IsWrittenOf, IsReadCaptureFailure, SumsUp, IsSummedFrom, IsCaptureWritten};
ghost use Rattle.blk_cli.specs.Ends.{IsFailureOf, IsImportNoText, IsSummaryNoText, IsCaptureUnwritten};

use crate::blaming::blamed;
use crate::failure::Failure;
use crate::notes::{doubt_text, source_text};
use crate::replaying::{replayed, replayed_grid, replayed_once};
use crate::taken::take_requests;
use crate::{Answered, NoText, without};
use answer::lines;
use blk_args::{Import, Job, Kept, Written};
use blk_arrivals::{Terms, USUAL_DEPTH, script_of, script_text};
use blk_capture::{Entry, Options, Record};
use blk_capture_text::{
    CaptureRead, ImportAsked, Printed, RecordCounts, ShownImport, StreamedCapture, UnreadCapture,
    Unstreamed, read_source, shown_text, stream_source, summary_answer,
};
use blk_records::Records;
use std::alloc::{AllocError, Global};
use std::io::Read;
use std::thread::Threads;
use turns::Progress;

/// When a request counts as having come in.
fn entry_asked(from_queue: bool) -> Entry
    ensures { result ≡ entry_asked from_queue }
{
    if from_queue {
        Entry::Queue
    } else {
        Entry::Insert
    }
}

/// How many requests are taken at most.
fn most_asked(first: Option<u64>) -> u64
    ensures { result ≡ most_asked first }
{
    match first {
        Some(first) => first,
        None => u64::MAX,
    }
}

/// What is asked of the import.
pub(crate) fn asked_of(wanted: Import) -> ImportAsked
    ensures { result ≡ asked_of wanted }
{
    let entry = entry_asked(wanted.from_queue);
    let options = Options {
        read_expire: wanted.read_expire,
        write_expire: wanted.write_expire,
        entry,
    };
    ImportAsked {
        options,
        skip: wanted.skip,
        first: most_asked(wanted.first),
    }
}

/// How its arrivals become a script.
fn terms_of(wanted: Import, round: u64, depth: Option<u64>) -> Terms
    ensures { result ≡ terms_of wanted round depth }
{
    let depth = match depth {
        Some(depth) => depth,
        None => USUAL_DEPTH,
    };
    Terms {
        round,
        depth,
        read_expire: wanted.read_expire,
        write_expire: wanted.write_expire,
    }
}

/// A note behind what is told before it; without that, as it is.
pub(crate) fn noted(told: Vec<u8>, note: Option<Vec<u8>>) -> Result<Option<Vec<u8>>, AllocError>
    ensures { IfOk result (λ all. option_map (λ n. n.items) all ≡ noted told.items (option_map (λ n. n.items) note)) }
{
    if told.is_empty() {
        return Ok(note);
    }
    let mut told = told;
    if let Some(note) = note {
        told.extend_from_slice(note.as_slice())?;
    }
    Ok(Some(told))
}

/// How many requests the device takes at once, where nobody says so: hardly any takes more.
const USUAL_TAGS: u64 = 4096;

/// How many requests the device takes at once.
pub(crate) fn tags_asked(tags: Option<u64>) -> u64
    ensures { result ≡ tags_asked tags }
{
    match tags {
        Some(tags) => tags,
        None => USUAL_TAGS,
    }
}

/// What is shown of the requests of a capture.
fn shown_of(
    alloc: Global,
    wanted: Import,
    shown: ShownImport,
    records: &[Record],
) -> Result<Answered, Failure>
    requires { AreInOrder records.now (length records.now) }
    ensures answers { IfOk result (λ answer. IsMadeOf (IsShown shown records.now) wanted records.now (said_of answer)) }
    ensures fails { IfErr result (IsOutputFailure wanted records.now) }
{
    let taken = match take_requests(alloc, wanted, records) {
        Ok(taken) => taken,
        Err(failure) => return Err(failure),
    };
    match shown_text(alloc, shown, records, taken.requests.as_slice()) {
        Ok(text) => Ok(taken.beside(text)),
        Err(_) => Err(Failure::Memory),
    }
}

/// The arrivals of a capture as a script, on these terms.
fn scripted(alloc: Global, terms: Terms, records: &[Record]) -> Result<Answered, Failure>
    requires { AreInOrder records.now (length records.now) }
    ensures answers { IfOk result (λ answer. IsScripted terms records.now (said_of answer)) }
    ensures fails { IfErr result (IsScriptFailure terms records.now) }
{
    let script = match script_of(alloc, records, &terms) {
        Ok(script) => script,
        Err(fault) => return Err(Failure::Arrivals(fault)),
    };
    match script_text(alloc, &script) {
        Ok(text) => Ok(Answered {
            text,
            note: None,
            good: true,
        }),
        Err(_) => Err(Failure::Memory),
    }
}

/// What is written of the records of a capture.
fn imported<T: Threads + Sync, P: Progress>(
    rt: &T,
    alloc: Global,
    words: &[String],
    wanted: Import,
    kept: Kept,
    records: &[Record],
    progress: &mut P,
) -> Result<Answered, Failure>
    requires { AreInOrder records.now (length records.now) }
    ensures answers { IfOk result (λ answer. IsImported kept (map string_bytes words.now) wanted records.now (said_of answer)) }
    ensures fails { IfErr result (IsImportFailure kept (map string_bytes words.now) wanted records.now) }
{
    match kept {
        Kept::Schedule => shown_of(alloc, wanted, ShownImport::Schedule, records),
        Kept::Table => shown_of(alloc, wanted, ShownImport::Table, records),
        Kept::Script { round, depth } => {
            let terms = terms_of(wanted, round, depth);
            scripted(alloc, terms, records)
        }
        Kept::Blame(blaming) => blamed(alloc, wanted, blaming, records),
        Kept::Replay(replaying) => replayed(rt, alloc, wanted, replaying, records, progress),
        Kept::Grid(grid) => replayed_grid(rt, alloc, words, wanted, grid, records, progress),
        Kept::Replayed(plan, shown) => replayed_once(alloc, wanted, plan, shown, records),
    }
}

/// What is said of where a capture comes from is said before the note of an answer.
fn with_source(
    alloc: Global,
    answer: Answered,
    printed: Option<Printed>,
    counts: &RecordCounts,
) -> Result<Answered, Failure>
    ensures ok { IfOk result (λ a. SaysFrom printed counts.now (said_of answer) (said_of a)) }
    ensures err { IfErr result (λ f. f ≡ Failure.Memory) }
{
    let Ok(told) = source_text(alloc, printed, counts) else {
        return Err(Failure::Memory);
    };
    let Answered { text, note, good } = answer;
    match noted(told, note) {
        Ok(note) => Ok(Answered { text, note, good }),
        Err(_) => Err(Failure::Memory),
    }
}

/// What is written of a capture that was read.
fn over_read<T: Threads + Sync, P: Progress>(
    rt: &T,
    alloc: Global,
    words: &[String],
    wanted: Import,
    kept: Kept,
    read: &CaptureRead,
    progress: &mut P,
) -> Result<Answered, Failure>
    requires { AreInOrder read.now.records.items (length read.now.records.items) }
    ensures answers { IfOk result (λ answer. IsWrittenOf kept (map string_bytes words.now) wanted read.now (said_of answer)) }
    ensures fails { IfErr result (IsReadCaptureFailure kept (map string_bytes words.now) wanted read.now) }
{
    let answer = match imported(
        rt,
        alloc,
        words,
        wanted,
        kept,
        read.records.as_slice(),
        progress,
    ) {
        Ok(answer) => answer,
        Err(failure) => return Err(failure),
    };
    let counts = RecordCounts::of(read.records.as_slice());
    match with_source(alloc, answer, read.printed, &counts) {
        Ok(answer) => Ok(answer),
        Err(failure) => Err(failure),
    }
}

/// Why nothing is written of bytes that aren't read: of what is no capture, what they are.
fn untaken(alloc: Global, wanted: Import, bytes: &[u8], fault: UnreadCapture) -> NoText
    ensures { IsFailureOf (Failure.Unread fault) result }
{
    let mut records = Records::new(alloc, bytes);
    match records.advance() {
        Ok(_) => {
            let failure = Failure::Unread(fault);
            without(alloc, Job::Import(wanted), failure, records.row())
        }
        Err(_) => NoText::Failure(Failure::Memory),
    }
}

/// What is written of a capture that was put in numbers as it was read.
fn summed(alloc: Global, wanted: Import, capture: StreamedCapture) -> Result<Answered, Failure>
    requires ready { IsSummable (asked_of wanted).options capture }
    requires streamed { (rs : List Record) × HasStreamed rs capture.streamed }
    ensures answers { IfOk result (λ a. SumsUp wanted capture (said_of a)) }
    ensures fails { IfErr result (λ f. f ≡ Failure.Memory) }
{
    let asked = asked_of(wanted);
    let StreamedCapture { streamed, printed } = capture;
    let Ok(sum) = streamed.summary(alloc, &asked) else {
        return Err(Failure::Memory);
    };
    let Ok(numbers) = summary_answer(alloc, &sum.summary, sum.left_out, &sum.unused) else {
        return Err(Failure::Memory);
    };
    let Ok(text) = lines(alloc, &numbers) else {
        return Err(Failure::Memory);
    };
    let Ok(doubts) = doubt_text(
        alloc,
        &sum.counts,
        &sum.summary,
        tags_asked(wanted.source.tags),
        sum.unused.unmatched,
    ) else {
        return Err(Failure::Memory);
    };
    let Ok(note) = noted(doubts, None) else {
        return Err(Failure::Memory);
    };
    let answer = Answered {
        text,
        note,
        good: true,
    };
    match with_source(alloc, answer, printed, &sum.counts) {
        Ok(answer) => Ok(answer),
        Err(failure) => Err(failure),
    }
}

/// Puts the input, a capture, in numbers as its bytes come. Of these none is kept that is not needed.
fn over_summary<R: Read + Drop>(
    alloc: Global,
    wanted: Import,
    records: &mut Records<R>,
) -> Result<Answered, NoText>
    ensures answers { IfOk result (λ a. IsSummedFrom wanted records.old.bytes (said_of a)) }
    ensures fails { IfErr result (IsSummaryNoText wanted records.old.bytes records.new.failed) }
{
    let options = asked_of(wanted).options;
    let source = wanted.source;
    let capture = match stream_source(alloc, source.form, source.device, &options, records) {
        Ok(capture) => capture,
        Err(unstreamed) => {
            let Unstreamed { fault, bytes } = unstreamed;
            return Err(untaken(alloc, wanted, bytes.as_slice(), fault));
        }
    };
    match summed(alloc, wanted, capture) {
        Ok(answer) => Ok(answer),
        Err(failure) => Err(NoText::Failure(failure)),
    }
}

/// Reads all of the input as a capture, and gives what is written of it. The text is given back before its records are matched, which takes as
/// much memory again. Replays go on the threads of `rt`, and `progress` hears how far they have come.
fn over_whole<T: Threads + Sync, R: Read + Drop, P: Progress>(
    rt: &T,
    alloc: Global,
    words: &[String],
    wanted: Import,
    kept: Kept,
    records: &mut Records<R>,
    progress: &mut P,
) -> Result<Answered, NoText>
    ensures answers { IfOk result (λ answer. IsImportedFrom kept (map string_bytes words.now) wanted records.old.bytes (said_of answer)) }
    ensures fails { IfErr result (IsImportNoText kept (map string_bytes words.now) wanted records.old.bytes records.new.failed) }
{
    let bytes = match records.bytes(alloc) {
        Ok(bytes) => bytes,
        Err(why) => return Err(NoText::Failure(Failure::Text(records.fault(why)))),
    };
    let source = wanted.source;
    let read = match read_source(alloc, source.form, source.device, bytes.as_slice()) {
        Ok(read) => read,
        Err(fault) => return Err(untaken(alloc, wanted, bytes.as_slice(), fault)),
    };
    drop(bytes);
    match over_read(rt, alloc, words, wanted, kept, &read, progress) {
        Ok(answer) => Ok(answer),
        Err(failure) => Err(NoText::Failure(failure)),
    }
}

/// Reads the input as a capture, and gives what is written of it: of one that is put in numbers no record is kept. Replays go on the threads of
/// `rt`, and `progress` hears how far they have come.
pub fn over_capture<T: Threads + Sync, R: Read + Drop, P: Progress>(
    rt: &T,
    alloc: Global,
    words: &[String],
    wanted: Import,
    records: &mut Records<R>,
    progress: &mut P,
) -> Result<Answered, NoText>
    ensures answers { IfOk result (λ answer. IsCaptureWritten (map string_bytes words.now) wanted records.old.bytes (said_of answer)) }
    ensures fails { IfErr result (IsCaptureUnwritten (map string_bytes words.now) wanted records.old.bytes records.new.failed) }
{
    match wanted.written {
        Written::Summary => over_summary(alloc, wanted, records),
        Written::Kept(kept) => over_whole(rt, alloc, words, wanted, kept, records, progress),
    }
}
