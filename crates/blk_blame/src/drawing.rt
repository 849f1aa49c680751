//! The picture of what the late requests of a capture are blamed on.

ghost use Rattle.std.specs.Prelude.{◌≡◌, ◌≤◌, ◌∷◌, [], IfOk, length};
ghost use Rattle.answer.specs.Lines.{answer_lines};
ghost use Rattle.edd_commands.specs.declared.TheConstants.{MAX_COMMANDS};
ghost use Rattle.blk_capture.specs.Requests.{AreTimed};
ghost use Rattle.blk_blame.specs.Answers.{behind};
ghost use Rattle.blk_blame.specs.Drawing.{way_by, mark_of_cause, request_bar, request_bars, stall_span, crowd_span, all_spans, heading_part, IsBlamePicture};

use crate::account::{Account, account_of};
use crate::answers::{time_after, time_of_dispatch};
use answer::{Answer, Cell, Layout, Line, Part, Value, Word, lines};
use blk_bio::Dir;
use blk_capture::CapturedRequest;
use blk_lanes::{Bar, Mark, Span, Unit, Way, drawn};
use edd_blame::{Cause, Reasons, StallTime};
use edd_commands::Command;
use edd_figures::{Counts, Crowd};
use std::alloc::{AllocError, Global};

/// Which way a request goes.
fn way_of(dir: Dir) -> Way
    ensures { result ≡ way_by dir }
{
    match dir {
        Dir::Read => Way::Read,
        Dir::Write => Way::Write,
    }
}

/// How a request of a cause is marked.
fn mark_of(cause: Option<Cause>) -> Mark
    ensures { result ≡ mark_of_cause cause }
{
    match cause {
        None => Mark::OnTime,
        Some(Cause::Arrival) => Mark::Arrival,
        Some(Cause::Stall) => Mark::Stall,
        Some(Cause::Spare) => Mark::Spare,
        Some(Cause::Full(_)) => Mark::Full,
    }
}

/// A request as it is drawn.
fn bar_of(begin: u64, command: Command, request: &CapturedRequest, cause: Option<Cause>) -> Bar
    ensures { result ≡ request_bar begin ((command, request.now), cause) }
{
    Bar {
        id: command.id,
        way: way_of(request.dir),
        from: request.entry.saturating_sub(begin),
        due: request.deadline.saturating_sub(begin),
        to: request.dispatched.saturating_sub(begin),
        mark: mark_of(cause),
    }
}

/// All of them.
fn bars_of(
    alloc: Global,
    begin: u64,
    commands: &[Command],
    requests: &[CapturedRequest],
    causes: &[Option<Cause>],
) -> Result<Vec<Bar>, AllocError>
    ensures { IfOk result (λ v. v.items ≡ request_bars begin commands.now requests.now causes.now) }
{
    commands
        .iter()
        .zip(requests)
        .zip(causes)
        .map(|((command, request), cause)| bar_of(begin, *command, request, *cause))
        .collect(alloc)
}

/// A stall as it is drawn: from the dispatch before it to the next one.
fn stall_of(begin: u64, requests: &[CapturedRequest], stall: StallTime) -> Span
    ensures { result ≡ stall_span begin requests.now stall }
{
    Span {
        from: time_of_dispatch(begin, requests, stall.after).unwrap_or(0),
        to: time_after(begin, requests, stall.after).unwrap_or(0),
        requests: stall.requests,
        carries: 0,
        stall: true,
    }
}

/// A window as it is drawn: from its first dispatch to its last.
fn window_of(begin: u64, requests: &[CapturedRequest], crowd: Crowd) -> Span
    ensures { result ≡ crowd_span begin requests.now crowd }
{
    Span {
        from: time_of_dispatch(begin, requests, crowd.window.from).unwrap_or(0),
        to: time_of_dispatch(begin, requests, crowd.window.due).unwrap_or(0),
        requests: crowd.commands,
        carries: crowd.carries,
        stall: false,
    }
}

/// All stalls and windows.
fn spans_of(
    alloc: Global,
    begin: u64,
    requests: &[CapturedRequest],
    stalls: &[StallTime],
    windows: &[Crowd],
) -> Result<Vec<Span>, AllocError>
    ensures { IfOk result (λ v. v.items ≡ all_spans begin requests.now stalls.now windows.now) }
{
    let mut spans = Vec::new(alloc);
    for stall in stalls {
        spans.push(stall_of(begin, requests, *stall))?;
    }
    for crowd in windows {
        spans.push(window_of(begin, requests, *crowd))?;
    }
    Ok(spans)
}

/// A number behind words.
fn behind(words: &'static str, count: u64) -> Cell
    ensures { result ≡ behind words.now [] (Value.Count count) }
{
    Cell::new(Layout::Words(Word::new(words)), "", Value::Count(count))
}

/// What the heading says: how many were late, how many had to be, by what, and how many need not have been.
fn heading_part(alloc: Global, counts: Counts, reasons: Reasons) -> Result<Part, AllocError>
    ensures { IfOk result (λ part. part ≡ heading_part counts reasons) }
{
    let cells = Vec::from_array(
        alloc,
        [
            behind("requests ", counts.commands),
            behind(", late ", counts.late),
            behind("; had to be ", counts.unavoidable),
            behind(": by stall ", reasons.stalled),
            behind(", by crowding ", reasons.crowded),
            behind(", by arrival ", reasons.arrivals),
            behind("; the scheduler's ", counts.avoidable),
        ],
    )?;
    Ok(Part::Line(Line::new(cells, "")))
}

/// A part as text.
fn text_of(alloc: Global, part: Part) -> Result<Vec<u8>, AllocError>
    ensures { IfOk result (λ text. text.items ≡ answer_lines (part ∷ [])) }
{
    let mut answer = Answer::new(alloc);
    answer.add(part)?;
    lines(alloc, &answer)
}

/// The heading.
fn heading_of(alloc: Global, counts: Counts, reasons: Reasons) -> Result<Vec<u8>, AllocError>
    ensures { IfOk result (λ v. v.items ≡ answer_lines (heading_part counts reasons ∷ [])) }
{
    text_of(alloc, heading_part(alloc, counts, reasons)?)
}

/// The picture of what the late ones of these requests are blamed on, as SVG, with times from `begin` on: each request from its entry to its
/// dispatch, which were late and why, when the device stalled, and the windows that were crowded. Of long captures it has the ten intervals in
/// which the most late requests wait. The requests are as [`blk_capture::match_records`] gives them, at most [`edd_commands::MAX_COMMANDS`] of
/// them. Fails only when out of memory.
pub fn blame_picture(
    alloc: Global,
    begin: u64,
    requests: &[CapturedRequest],
) -> Result<Vec<u8>, AllocError>
    requires timed { AreTimed requests.now }
    requires few { length requests.now ≤ MAX_COMMANDS }
    ensures { IfOk result (λ v. IsBlamePicture begin requests.now v.items) }
{
    let account = account_of(alloc, requests)?;
    let commands = account.counted.commands.as_slice();
    let bars = bars_of(alloc, begin, commands, requests, account.causes.as_slice())?;
    let blame = &account.blame;
    let windows = blame.misses.windows.as_slice();
    let spans = spans_of(alloc, begin, requests, blame.stalls.as_slice(), windows)?;
    let heading = heading_of(alloc, blame.misses.counts, blame.reasons)?;
    let text = drawn(
        alloc,
        Unit::Nanoseconds,
        heading.as_slice(),
        bars.as_slice(),
        spans.as_slice(),
    )?;
    Ok(text)
}
