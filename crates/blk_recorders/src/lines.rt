//! The lines of each recorder: which of them are steps, where the parts of a step stand, and what else there is.

ghost use Rattle.std.specs.Prelude.{◌≡◌, ◌⊎◌, ◌+◌, ◌<◌, ◌≤◌, IfOk, IfErr, IfSome, Ok, Err, drop, length, ◌^◌};
ghost use Rattle.std.specs.Result.{result_map_both};
ghost use Rattle.blk_recorders.specs.Words.{word_texts};
ghost use Rattle.std.specs.List.{list_any};
ghost use Rattle.blk_recorders.specs.Layouts.{laid, spanned};
ghost use Rattle.blk_recorders.specs.Lines.{lined, begins_with_digit, ends_with_byte, is_of_loss, tells_loss, remark, as_step, row_layout, row_step, inside, is_cpu, is_event, place_from, task_line, timed_line, task_layout, ftrace_line, blkparse_line, bpftrace_line, event_of, request_event_of, place_of_range, perf_layout, perf_line, printed_line_of};

use crate::device::Device;
use crate::fault::LineReason;
use crate::layout::{Layout, Places, Span, is_passed, placed, span_from};
use crate::recorder::Recorder;
use crate::words::{before, begins_with, behind_last, cut_fields, number, parted, word_at};
use blk_capture::Action;

/// What a line is.
#[derive(Clone, Copy, Debug)]
pub(crate) enum Line<W> {
    /// A step of the block layer.
    Step(Layout<W>),
    /// A comment, a notice, a count, or something that isn't a step of the block layer: it is passed over.
    Remark,
    /// It says that events were lost, and is passed over.
    Loss,
}

/// The columns of blkparse's default output: `%D %2c %8s %5T.%9t %5p %2a %3d`.
const BLKPARSE: Places = Places {
    device: 0,
    cpu: 1,
    time: 3,
    pid: 4,
    action: 5,
    rwbs: 6,
    span: 7,
};

/// Those of ftrace's blk tracer with `blk_classic`: the same without the number of the line.
const CLASSIC: Places = Places {
    device: 0,
    cpu: 1,
    time: 2,
    pid: 3,
    action: 4,
    rwbs: 5,
    span: 6,
};

/// How many fields a row has.
const ROW_WIDTH: usize = 8;

/// Whether a word begins with a digit.
fn begins_with_digit(word: &[u8]) -> bool
    ensures { result ≡ begins_with_digit word.now }
{
    match word {
        [first, ..] => first.is_ascii_digit(),
        [] => false,
    }
}

/// Whether a word says that something was lost, as the recorders write it: `Lost 17 events` (bpftrace), `CPU:1 [LOST 17 EVENTS]` (ftrace),
/// `PERF_RECORD_LOST lost 17` and `lost 3 chunks!` (perf), `17 dropped events` (blktrace).
fn is_of_loss(word: &[u8]) -> bool
    ensures { result ≡ is_of_loss word.now }
{
    word == b"Lost".as_slice()
        || word == b"[LOST".as_slice()
        || word == b"PERF_RECORD_LOST".as_slice()
        || word == b"lost".as_slice()
        || word == b"dropped".as_slice()
}

/// Whether a line that is no step tells that events were lost. blkparse's own count, `Skips: 0 forward`, does where it isn't 0.
fn tells_loss(words: &[&[u8]]) -> bool
    ensures { result ≡ tells_loss (word_texts words.now) }
{
    if word_at(words, 0) == b"Skips:".as_slice() {
        return number(word_at(words, 1)) != Some(0);
    }
    has_word_of_loss(words)
}

/// Whether some word says that something was lost.
fn has_word_of_loss(words: &[&[u8]]) -> bool
    ensures { result ≡ list_any is_of_loss (word_texts words.now) }
{
    for place in 0..words.len() {
        if is_of_loss(word_at(words, place)) {
            return true;
        }
    }
    false
}

/// A line that is no step.
fn remark<'a>(words: &[&'a [u8]]) -> Line<&'a [u8]>
    ensures { lined result ≡ remark (word_texts words.now) }
{
    if tells_loss(words) {
        Line::Loss
    } else {
        Line::Remark
    }
}

/// The parts of a row of eight fields: seconds, nanoseconds, processor, action, process, rwbs, first sector, sectors.
fn row_layout<'a>(row: &[&'a [u8]]) -> Result<Layout<&'a [u8]>, LineReason>
    ensures { result_map_both laid (λ e. e) result ≡ row_layout (word_texts row.now) }
{
    if row.len() != ROW_WIDTH {
        return Err(LineReason::Fields);
    }
    Ok(Layout {
        device: None,
        seconds: word_at(row, 0),
        fraction: word_at(row, 1),
        cpu: word_at(row, 2),
        action: Action::of_letters(word_at(row, 3)),
        pid: word_at(row, 4),
        rwbs: word_at(row, 5),
        span: Span::Sectors(word_at(row, 6), word_at(row, 7)),
    })
}

/// What stands between brackets, if a word is so: of a processor, `[001]`.
fn inside(word: &[u8]) -> &[u8]
    ensures { result.now ≡ inside word.now }
{
    match word {
        [b'[', inner @ .., b']'] => inner,
        _ => &[],
    }
}

/// Whether a word is a processor in brackets.
fn is_cpu(word: &[u8]) -> bool
    ensures { result ≡ is_cpu word.now }
{
    number(inside(word)).is_some()
}

/// The place of the first processor in brackets.
fn place_of_cpu(words: &[&[u8]]) -> Option<usize>
    ensures value { result ≡ place_from is_cpu 0 (word_texts words.now) }
    ensures inside { IfSome result (λ k. k < length words.now) }
{
    for place in 0..words.len() {
        if is_cpu(word_at(words, place)) {
            return Some(place);
        }
    }
    None
}

/// Whether a word ends with a byte.
fn ends_with(word: &[u8], byte: u8) -> bool
    ensures { result ≡ ends_with_byte byte word.now }
{
    match word {
        [.., last] => *last == byte,
        [] => false,
    }
}

/// The line of a task, `TASK-PID [CPU] FLAGS TIME: ..`, whose processor is the word at a place: a step where a device follows the time, else
/// an event of another kind.
fn task_line<'a>(words: &[&'a [u8]], cpu: usize) -> Result<Line<&'a [u8]>, LineReason>
    requires { cpu < length words.now }
    ensures { result_map_both lined (λ e. e) result ≡ task_line (word_texts words.now) cpu }
{
    if ends_with(word_at(words, cpu + 1), b':') {
        timed_line(words, cpu, cpu + 1)
    } else {
        timed_line(words, cpu, cpu + 2)
    }
}

/// The same by the place of its time too.
fn timed_line<'a>(words: &[&'a [u8]], cpu: usize, time: usize) -> Result<Line<&'a [u8]>, LineReason>
    requires room { time + 6 < 2 ^ 64 }
    requires cpu { cpu < length words.now }
    ensures { result_map_both lined (λ e. e) result ≡ timed_line (word_texts words.now) cpu time }
{
    if cpu == 0 || words.len() <= time + 1 {
        return Err(LineReason::Fields);
    }
    let device = word_at(words, time + 1);
    if Device::of_text(device).is_none() {
        return Ok(Line::Remark);
    }
    let action = Action::of_letters(word_at(words, time + 2));
    let span = match span_from(action, words, time + 4) {
        Ok(span) => span,
        Err(why) => return Err(why),
    };
    Ok(Line::Step(task_layout(words, cpu, time, span)))
}

/// The parts of it.
fn task_layout<'a>(
    words: &[&'a [u8]],
    cpu: usize,
    time: usize,
    span: Span<&'a [u8]>,
) -> Layout<&'a [u8]>
    requires room { time + 6 < 2 ^ 64 }
    requires some { 0 < cpu }
    ensures { laid result ≡ task_layout (word_texts words.now) cpu time (spanned span.entry) }
{
    let (seconds, fraction) = parted(before(word_at(words, time), b':'), b'.');
    Layout {
        device: Some(word_at(words, time + 1)),
        seconds,
        fraction,
        cpu: inside(word_at(words, cpu)),
        action: Action::of_letters(word_at(words, time + 2)),
        pid: behind_last(word_at(words, cpu - 1), b'-'),
        rwbs: word_at(words, time + 3),
        span,
    }
}

/// A step of ftrace's blk tracer, in either layout.
fn ftrace_line<'a>(words: &[&'a [u8]]) -> Result<Line<&'a [u8]>, LineReason>
    ensures { result_map_both lined (λ e. e) result ≡ ftrace_line (word_texts words.now) }
{
    let first = word_at(words, 0);
    if begins_with(first, b'#') {
        return Ok(remark(words));
    }
    if Device::of_text(first).is_some() {
        return as_step(placed(words, CLASSIC));
    }
    match place_of_cpu(words) {
        Some(cpu) => task_line(words, cpu),
        None => {
            if tells_loss(words) {
                Ok(Line::Loss)
            } else {
                Err(LineReason::Fields)
            }
        }
    }
}

/// The line of a step.
fn as_step<'a>(layout: Result<Layout<&'a [u8]>, LineReason>) -> Result<Line<&'a [u8]>, LineReason>
    ensures { result_map_both lined (λ e. e) result ≡ as_step (result_map_both laid (λ e. e) layout.entry) }
{
    match layout {
        Ok(layout) => Ok(Line::Step(layout)),
        Err(why) => Err(why),
    }
}

/// The action of a tracepoint of `block`, as perf names it.
fn action_of_event(word: &[u8]) -> Option<Action>
    ensures { result ≡ event_of word.now }
{
    if word == b"block:block_bio_queue:".as_slice() {
        Some(Action::Queue)
    } else if word == b"block:block_getrq:".as_slice() {
        Some(Action::Get)
    } else if word == b"block:block_bio_backmerge:".as_slice() {
        Some(Action::BackMerge)
    } else if word == b"block:block_bio_frontmerge:".as_slice() {
        Some(Action::FrontMerge)
    } else if word == b"block:block_split:".as_slice() {
        Some(Action::Split)
    } else if word == b"block:block_plug:".as_slice() {
        Some(Action::Plug)
    } else if word == b"block:block_unplug:".as_slice() {
        Some(Action::Unplug)
    } else {
        action_of_request_event(word)
    }
}

/// The same of the tracepoints of requests, which tell the bytes and the command before the range of sectors.
fn action_of_request_event(word: &[u8]) -> Option<Action>
    ensures { result ≡ request_event_of word.now }
{
    if word == b"block:block_rq_insert:".as_slice() {
        Some(Action::Insert)
    } else if word == b"block:block_rq_issue:".as_slice() {
        Some(Action::Issue)
    } else if word == b"block:block_rq_complete:".as_slice() {
        Some(Action::Complete)
    } else if word == b"block:block_rq_requeue:".as_slice() {
        Some(Action::Requeue)
    } else if word == b"block:block_rq_merge:".as_slice() {
        Some(Action::BackMerge)
    } else {
        None
    }
}

/// The place of the first word from a place on that ends with a parenthesis.
fn place_of_command(words: &[&[u8]], from: usize) -> Option<usize>
    ensures value { result ≡ place_from (ends_with_byte 41) from (drop from (word_texts words.now)) }
    ensures inside { IfSome result (λ k. k < length words.now) }
{
    for place in from..words.len() {
        if ends_with(word_at(words, place), b')') {
            return Some(place);
        }
    }
    None
}

/// The place of the first tracepoint of `block`.
fn place_of_event(words: &[&[u8]]) -> Option<usize>
    ensures value { result ≡ place_from is_event 0 (word_texts words.now) }
    ensures inside { IfSome result (λ k. k < length words.now) }
{
    for place in 0..words.len() {
        if is_event(word_at(words, place)) {
            return Some(place);
        }
    }
    None
}

/// Whether a word is the name of a tracepoint of `block`.
fn is_event(word: &[u8]) -> bool
    ensures { result ≡ is_event word.now }
{
    action_of_event(word).is_some()
}

/// The place of the range of sectors behind an event of perf: two words after it, or of a request behind its command, `()`.
fn place_of_range(words: &[&[u8]], event: usize) -> Option<usize>
    requires { event < length words.now }
    ensures value { result ≡ place_of_range (word_texts words.now) event }
    ensures near { IfSome result (λ k. k ≤ length words.now + 3) }
{
    if action_of_request_event(word_at(words, event)).is_none() {
        return Some(event + 3);
    }
    match place_of_command(words, event + 3) {
        Some(command) => Some(command + 1),
        None => None,
    }
}

/// The parts of a line of perf, whose event is the word at a place: `.. PID [CPU] TIME: EVENT: DEVICE RWBS ..`.
fn perf_layout<'a>(
    words: &[&'a [u8]],
    event: usize,
    action: Action,
) -> Result<Layout<&'a [u8]>, LineReason>
    requires { event < length words.now }
    ensures { result_map_both laid (λ e. e) result ≡ perf_layout (word_texts words.now) event action }
{
    let Some(place) = place_of_range(words, event) else {
        return Err(LineReason::Fields);
    };
    if event < 3 {
        return Err(LineReason::Fields);
    }
    let span = match span_from(action, words, place) {
        Ok(span) => span,
        Err(why) => return Err(why),
    };
    let (seconds, fraction) = parted(before(word_at(words, event - 1), b':'), b'.');
    let device = word_at(words, event + 1);
    Ok(Layout {
        device: if is_passed(action) {
            None
        } else {
            Some(device)
        },
        seconds,
        fraction,
        cpu: inside(word_at(words, event - 2)),
        action,
        pid: word_at(words, event - 3),
        rwbs: word_at(words, event + 2),
        span,
    })
}

/// A line of perf: a step where it has the name of a tracepoint of `block` of which something is known.
fn perf_line<'a>(words: &[&'a [u8]]) -> Result<Line<&'a [u8]>, LineReason>
    ensures { result_map_both lined (λ e. e) result ≡ perf_line (word_texts words.now) }
{
    match place_of_event(words) {
        Some(event) => match action_of_event(word_at(words, event)) {
            Some(action) => as_step(perf_layout(words, event, action)),
            None => Ok(remark(words)),
        },
        None => Ok(remark(words)),
    }
}

/// A line of blkparse: a step where it begins with a digit, in a row of its own or in the default layout.
fn blkparse_line<'a>(
    words: &[&'a [u8]],
    fields: &mut Vec<&'a [u8]>,
) -> Result<Line<&'a [u8]>, LineReason>
    ensures ok { IfOk result (λ l. blkparse_line (word_texts words.now) ≡ Ok (lined l)) }
    ensures err { IfErr result (λ w. (w ≡ LineReason.Memory) ⊎ (blkparse_line (word_texts words.now) ≡ Err w)) }
{
    let first = word_at(words, 0);
    if !begins_with_digit(first) {
        return Ok(remark(words));
    }
    if words.len() != 1 {
        return as_step(placed(words, BLKPARSE));
    }
    row_line(first, fields)
}

/// A row by itself, whose fields are put in a list.
fn row_line<'a>(row: &'a [u8], fields: &mut Vec<&'a [u8]>) -> Result<Line<&'a [u8]>, LineReason>
    ensures ok { IfOk result (λ l. row_step row.now ≡ Ok (lined l)) }
    ensures err { IfErr result (λ w. (w ≡ LineReason.Memory) ⊎ (row_step row.now ≡ Err w)) }
{
    match cut_fields(row, fields) {
        Ok(()) => as_step(row_layout(fields.as_slice())),
        Err(_) => Err(LineReason::Memory),
    }
}

/// A line of bpftrace: a row where it begins with a digit.
fn bpftrace_line<'a>(
    words: &[&'a [u8]],
    fields: &mut Vec<&'a [u8]>,
) -> Result<Line<&'a [u8]>, LineReason>
    ensures ok { IfOk result (λ l. bpftrace_line (word_texts words.now) ≡ Ok (lined l)) }
    ensures err { IfErr result (λ w. (w ≡ LineReason.Memory) ⊎ (bpftrace_line (word_texts words.now) ≡ Err w)) }
{
    let first = word_at(words, 0);
    if !begins_with_digit(first) {
        return Ok(remark(words));
    }
    if words.len() != 1 {
        return Err(LineReason::Fields);
    }
    row_line(first, fields)
}

/// What a line of a recorder is, by its words, or the first thing that is wrong with it. If it is a row, its fields are put in a list.
pub(crate) fn line_of<'a>(
    recorder: Recorder,
    words: &[&'a [u8]],
    fields: &mut Vec<&'a [u8]>,
) -> Result<Line<&'a [u8]>, LineReason>
    ensures ok { IfOk result (λ l. printed_line_of recorder (word_texts words.now) ≡ Ok (lined l)) }
    ensures err { IfErr result (λ w. (w ≡ LineReason.Memory) ⊎ (printed_line_of recorder (word_texts words.now) ≡ Err w)) }
{
    match recorder {
        Recorder::Blkparse => blkparse_line(words, fields),
        Recorder::Ftrace => ftrace_line(words),
        Recorder::Perf => perf_line(words),
        Recorder::Bpftrace => bpftrace_line(words, fields),
    }
}
