//! Where the parts of a step stand in a line, and the step that they tell.

ghost use Rattle.std.specs.Prelude.{◌≡◌, ◌+◌, ◌<◌, ◌^◌, is_some, length, option_map};
ghost use Rattle.blk_capture.specs.Passing.{passed_action};
ghost use Rattle.std.specs.Result.{result_map_both};
ghost use Rattle.blk_recorders.specs.Words.{word_texts};
ghost use Rattle.blk_recorders.specs.Layouts.{laid, spanned, is_remark, span_from, span_numbers, device_named, step_told, placed};

use crate::device::Device;
use crate::fault::LineReason;
use crate::words::{begins_with, nanoseconds, number, parted, word_at};
use blk_capture::{Action, Op, Record};

/// Whole seconds lie below this number: with nanoseconds they fit 64 bits, some 544 years.
const MAX_SECONDS: u64 = 1 << 34;

/// What begins a number of nanoseconds: in a second there are so many.
const SECOND: u64 = 1_000_000_000;

/// The words of a range of sectors.
#[derive(Clone, Copy, Debug)]
pub(crate) enum Span<W> {
    /// None: the step is of no sectors.
    Nothing,
    /// The first sector, and how many.
    Sectors(W, W),
    /// The first sector, and the one after the last.
    Until(W, W),
}

/// The words of a step, by what they say.
#[derive(Clone, Copy, Debug)]
pub(crate) struct Layout<W> {
    /// The device, where the form names it.
    pub(crate) device: Option<W>,
    pub(crate) seconds: W,
    pub(crate) fraction: W,
    pub(crate) cpu: W,
    pub(crate) action: Action,
    pub(crate) pid: W,
    pub(crate) rwbs: W,
    pub(crate) span: Span<W>,
}

/// A step, and the device that it is of, where that is known.
#[derive(Clone, Copy, Debug)]
pub(crate) struct Step {
    pub(crate) device: Option<Device>,
    pub(crate) told: Record,
}

/// By place, which words of a line say what; its range of sectors stands last.
#[derive(Clone, Copy, Debug)]
pub(crate) struct Places {
    pub(crate) device: usize,
    pub(crate) cpu: usize,
    pub(crate) time: usize,
    pub(crate) pid: usize,
    pub(crate) action: usize,
    pub(crate) rwbs: usize,
    pub(crate) span: usize,
}

/// Whether an action says nothing of sectors that is used: those of plugs, and those without a rule.
pub(crate) fn is_passed(action: Action) -> bool
    ensures { result ≡ is_some (passed_action action) }
{
    match action {
        Action::Plug | Action::Unplug | Action::Other => true,
        Action::Queue
        | Action::Get
        | Action::BackMerge
        | Action::FrontMerge
        | Action::Insert
        | Action::Issue
        | Action::Complete
        | Action::Requeue
        | Action::Split => false,
    }
}

/// Whether a word begins a remark and no number: the name of a process in brackets, or what is in parentheses.
fn is_remark(word: &[u8]) -> bool
    ensures { result ≡ is_remark word.now }
{
    begins_with(word, b'[') || begins_with(word, b'(')
}

/// The words of a range of sectors from a place on, if the action has one: `FIRST + COUNT`, or `FIRST / END` of a cut. A step
/// without sectors has a remark there, or one number and then a remark.
pub(crate) fn span_from<'a>(
    action: Action,
    words: &[&'a [u8]],
    place: usize,
) -> Result<Span<&'a [u8]>, LineReason>
    requires { place + 2 < 2 ^ 64 }
    ensures { result_map_both spanned (λ e. e) result ≡ span_from action (word_texts words.now) place }
{
    let first = word_at(words, place);
    let sign = word_at(words, place + 1);
    let second = word_at(words, place + 2);
    if is_passed(action) || is_remark(first) {
        Ok(Span::Nothing)
    } else if first.is_empty() {
        Err(LineReason::Fields)
    } else if is_remark(sign) {
        Ok(Span::Nothing)
    } else if second.is_empty() {
        Err(LineReason::Fields)
    } else if sign == b"+".as_slice() {
        Ok(Span::Sectors(first, second))
    } else if sign == b"/".as_slice() {
        Ok(Span::Until(first, second))
    } else {
        Err(LineReason::Fields)
    }
}

/// The parts of a line whose words stand at fixed places.
pub(crate) fn placed<'a>(words: &[&'a [u8]], places: Places) -> Result<Layout<&'a [u8]>, LineReason>
    requires { places.span + 2 < 2 ^ 64 }
    ensures { result_map_both laid (λ e. e) result ≡ placed (word_texts words.now) places }
{
    if words.len() < places.span {
        return Err(LineReason::Fields);
    }
    let action = Action::of_letters(word_at(words, places.action));
    let span = match span_from(action, words, places.span) {
        Ok(span) => span,
        Err(why) => return Err(why),
    };
    let (seconds, fraction) = parted(word_at(words, places.time), b'.');
    Ok(Layout {
        device: Some(word_at(words, places.device)),
        seconds,
        fraction,
        cpu: word_at(words, places.cpu),
        action,
        pid: word_at(words, places.pid),
        rwbs: word_at(words, places.rwbs),
        span,
    })
}

/// The first sector and the number of sectors, if the words write them: both 0 where there is no range.
fn span_numbers(span: Span<&[u8]>) -> Option<(u64, u64)>
    ensures { result ≡ span_numbers (spanned span.entry) }
{
    match span {
        Span::Nothing => Some((0, 0)),
        Span::Sectors(first, count) => Some((number(first)?, number(count)?)),
        Span::Until(first, end) => {
            let first = number(first)?;
            Some((first, number(end)?.saturating_sub(first)))
        }
    }
}

/// The device that a word names, if it does: none where there is no word.
fn device_named(word: Option<&[u8]>) -> Option<Option<Device>>
    ensures { result ≡ device_named (option_map (λ w. w.now) word.entry) }
{
    match word {
        None => Some(None),
        Some(word) => match Device::of_text(word) {
            Some(device) => Some(Some(device)),
            None => None,
        },
    }
}

/// The step that the parts of a line tell: [`LineReason::Number`] where one that is to be a number isn't, and [`LineReason::Range`] for a time
/// of 2^34 seconds or more.
pub(crate) fn step_told(layout: &Layout<&[u8]>) -> Result<Step, LineReason>
    ensures { result ≡ step_told (laid layout.now) }
{
    let Some(seconds) = number(layout.seconds) else {
        return Err(LineReason::Number);
    };
    let Some(nanos) = nanoseconds(layout.fraction) else {
        return Err(LineReason::Number);
    };
    let Some(cpu) = number(layout.cpu) else {
        return Err(LineReason::Number);
    };
    let Some(pid) = number(layout.pid) else {
        return Err(LineReason::Number);
    };
    let Some(device) = device_named(layout.device) else {
        return Err(LineReason::Number);
    };
    let Some((first, sectors)) = span_numbers(layout.span) else {
        return Err(LineReason::Number);
    };
    if seconds >= MAX_SECONDS {
        return Err(LineReason::Range);
    }
    Ok(Step {
        device,
        told: Record {
            time: seconds * SECOND + nanos,
            cpu,
            action: layout.action,
            pid,
            op: Op::of_letters(layout.rwbs),
            first,
            sectors,
        },
    })
}
