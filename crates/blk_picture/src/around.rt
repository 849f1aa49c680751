//! What stands around the boxes of a picture, as text: its heading, its axis and its windows.

ghost use Rattle.std.specs.Prelude.{◌<◌, ◌≤◌, length};
ghost use Rattle.blk_picture.specs.declared.scale.TheConstants.{MAX_WIDE};

use crate::scale::{LEFT, MAX_AXIS_STEPS, MAX_WIDE, Scale, TOP, place, step_of};
use crate::template::push_template;
use crate::words::{AFTER_NAME, BRACKET, BREAK, LABEL, LEGEND, NUMBERS, TICK};
use blk_report::{Report, Tally, report_lines};
use edd_figures::{Crowd, Figures};
use std::alloc::{AllocError, Global};
use text_output::Draft;

/// How many windows of misses are drawn at most.
const MAX_CROWDS: usize = 400;

/// How many windows of misses there are at most where each has its numbers below it.
const MAX_LABELLED: usize = 12;

/// Adds what was late, and what a column stands for.
fn push_numbers(draft: &mut Draft, scale: &Scale, tally: &Tally) -> Result<(), AllocError> {
    let per = u64::from(scale.per);
    push_template(
        draft,
        NUMBERS.as_bytes(),
        &[
            tally.late,
            tally.unavoidable,
            tally.avoidable,
            tally.spare,
            per,
        ],
    )
}

/// Adds the colours and what they mean.
fn push_legend(draft: &mut Draft) -> Result<(), AllocError> {
    draft.text(LEGEND.as_bytes())
}

/// Adds the heading: the name, the report, what was late, and what a column stands for.
pub(crate) fn push_heading(
    draft: &mut Draft,
    alloc: Global,
    scale: &Scale,
    name: &[u8],
    report: &Report,
    tally: &Tally,
) -> Result<(), AllocError> {
    let lines = report_lines(alloc, report)?;
    draft.text(b"<text class='t' x='24' y='28'>")?;
    draft.text(name)?;
    draft.text(AFTER_NAME.as_bytes())?;
    draft.text(lines.as_slice())?;
    push_numbers(draft, scale, tally)?;
    push_legend(draft)?;
    Ok(())
}

/// The column of a round, or the last one.
fn column_of(scale: &Scale, round: u64) -> u32
    requires { 0 < scale.now.per }
{
    let last = u64::from(scale.rounds.saturating_sub(1));
    (round.min(last) as u32) / scale.per
}

/// Where the column of a round begins, or the last one.
fn column_at(scale: &Scale, round: u64) -> u32
    requires { 0 < scale.now.per }
{
    scale.place_of(column_of(scale, round))
}

/// How far behind that it ends, where it is drawn.
fn beyond(scale: &Scale, round: u64) -> u32
    requires { 0 < scale.now.per }
    ensures small { result ≤ MAX_WIDE }
{
    if scale.shows(u64::from(column_of(scale, round))) {
        scale.wide.min(MAX_WIDE)
    } else {
        0
    }
}

/// Adds a number of the axis.
fn put_tick(draft: &mut Draft, scale: &Scale, round: u64) -> Result<(), AllocError>
    requires { 0 < scale.now.per }
{
    let x = place(column_at(scale, round), scale.wide, LEFT);
    push_template(draft, TICK.as_bytes(), &[x, x, round])
}

/// Adds the axis of all rounds: by 1, 2 or 5 times a power of ten.
fn put_whole_axis(draft: &mut Draft, scale: &Scale) -> Result<(), AllocError>
    requires { 0 < scale.now.per }
{
    let step = step_of(scale.rounds);
    for number in 0..MAX_AXIS_STEPS + 1 {
        let round = place(number, step, 0);
        if round < u64::from(scale.rounds) {
            put_tick(draft, scale, round)?;
        }
    }
    Ok(())
}

/// Adds where columns are cut before the one that is drawn at a place, if some are, and says whether.
fn put_break(draft: &mut Draft, scale: &Scale, number: u32) -> Result<bool, AllocError> {
    let column = scale.shown_at(u64::from(number));
    let next = if number == 0 {
        0
    } else {
        scale.shown_at(u64::from(number - 1)).saturating_add(1)
    };
    if column <= next {
        return Ok(false);
    }
    let x = place(number, scale.wide, LEFT);
    let high = place(scale.deep, scale.tall, TOP - 105);
    let per = u64::from(scale.per);
    let first = next.saturating_mul(per);
    let last = column.saturating_mul(per).saturating_sub(1);
    push_template(draft, BREAK.as_bytes(), &[x, high, first, last])?;
    Ok(true)
}

/// Adds the axis of those columns that are drawn: where some are cut, and by which round a column begins, where there is room for that.
fn put_cut_axis(draft: &mut Draft, scale: &Scale) -> Result<(), AllocError>
    requires { 0 < scale.now.per }
{
    let mut free: u64 = 0;
    for number in 0..scale.drawn {
        let broken = put_break(draft, scale, number)?;
        let x = place(number, scale.wide, LEFT);
        if free <= x && (broken || free.saturating_add(60) <= x) {
            let round = scale
                .shown_at(u64::from(number))
                .saturating_mul(u64::from(scale.per));
            put_tick(draft, scale, round)?;
            free = x.saturating_add(56);
        }
    }
    Ok(())
}

/// The axis.
pub(crate) fn axis(alloc: Global, scale: &Scale) -> Result<Vec<u8>, AllocError>
    requires { 0 < scale.now.per }
{
    let mut draft = Draft::new(alloc);
    if scale.cut {
        put_cut_axis(&mut draft, scale)?;
    } else {
        put_whole_axis(&mut draft, scale)?;
    }
    draft.text(b"<text class='s e' x='44' y='17'>round</text>\n")?;
    draft.finish()
}

/// Adds the bracket of a window in a row, with its two numbers in its title.
fn push_line(draft: &mut Draft, scale: &Scale, row: u32, crowd: Crowd) -> Result<(), AllocError>
    requires { 0 < scale.now.per }
{
    let first = column_at(scale, crowd.window.from);
    let last = column_at(scale, crowd.window.due);
    let from = place(first, scale.wide, LEFT);
    let to = place(last, scale.wide, LEFT + beyond(scale, crowd.window.due));
    let top = place(row, 28, 28);
    push_template(
        draft,
        BRACKET.as_bytes(),
        &[
            from,
            top,
            to,
            crowd.window.from,
            crowd.window.due,
            crowd.commands,
            crowd.carries,
        ],
    )
}

/// Adds the two numbers of a window below its bracket, where they are wanted.
fn push_named(
    draft: &mut Draft,
    scale: &Scale,
    row: u32,
    crowd: Crowd,
    labelled: bool,
) -> Result<(), AllocError>
    requires { 0 < scale.now.per }
{
    if !labelled {
        return Ok(());
    }
    let first = column_at(scale, crowd.window.from);
    let from = place(first, scale.wide, LEFT);
    let top = place(row, 28, 46);
    push_template(
        draft,
        LABEL.as_bytes(),
        &[from, top, crowd.commands, crowd.carries],
    )
}

/// Adds the bracket of a window in a row, with its two numbers where it is to be labelled.
fn push_bracket(
    draft: &mut Draft,
    scale: &Scale,
    row: u32,
    crowd: Crowd,
    labelled: bool,
) -> Result<(), AllocError>
    requires { 0 < scale.now.per }
{
    push_line(draft, scale, row, crowd)?;
    push_named(draft, scale, row, crowd, labelled)?;
    Ok(())
}

/// Adds the crowded window of a report, if it has one, with what its rounds carry.
fn push_crowded(
    draft: &mut Draft,
    scale: &Scale,
    figures: Option<Figures>,
    carries: u64,
) -> Result<(), AllocError>
    requires { 0 < scale.now.per }
{
    let Some(figures) = figures else {
        return Ok(());
    };
    let crowd = Crowd {
        window: figures.window,
        commands: figures.load,
        carries,
    };
    draft.text(b"<path class='q'")?;
    push_bracket(draft, scale, 0, crowd, true)
}

/// Adds a window of misses.
fn push_crowd(
    draft: &mut Draft,
    scale: &Scale,
    crowds: &[Crowd],
    number: usize,
) -> Result<(), AllocError>
    requires some { 0 < scale.now.per }
    requires within { number < length crowds.now }
{
    let labelled = crowds.len() <= MAX_LABELLED;
    let row = (number % 4 + 1) as u32;
    let crowd = crowds[number];
    draft.text(b"<path class='k'")?;
    push_bracket(draft, scale, row, crowd, labelled)?;
    Ok(())
}

/// Adds the windows of misses, the first [`MAX_CROWDS`], in four rows, with their numbers where they are few.
fn push_crowds(draft: &mut Draft, scale: &Scale, crowds: &[Crowd]) -> Result<(), AllocError>
    requires { 0 < scale.now.per }
{
    let count = crowds.len().min(MAX_CROWDS);
    for number in 0..count {
        push_crowd(draft, scale, crowds, number)?;
    }
    Ok(())
}

/// Adds how what stands below the frame begins.
fn push_foot(draft: &mut Draft, scale: &Scale) -> Result<(), AllocError> {
    let foot = place(scale.deep, scale.tall, TOP);
    push_template(draft, b"<g transform='translate(0,$)'>\n", &[foot])
}

/// Adds what stands below the frame: the axis and the windows.
pub(crate) fn push_windows(
    draft: &mut Draft,
    scale: &Scale,
    axis: &[u8],
    report: &Report,
    carries: u64,
    crowds: &[Crowd],
) -> Result<(), AllocError>
    requires { 0 < scale.now.per }
{
    push_foot(draft, scale)?;
    draft.text(axis)?;
    push_crowded(draft, scale, report.figures, carries)?;
    push_crowds(draft, scale, crowds)?;
    draft.text(b"</g>\n")?;
    Ok(())
}
