//! What is said of a request and of a time that is drawn.

ghost use Rattle.std.specs.Prelude.{◌≡◌, ◌∷◌, [], IfOk};
ghost use Rattle.answer.specs.Lines.{answer_lines};
ghost use Rattle.blk_lanes.specs.Facts.{cell_behind, time_value, way_words, mark_words, bar_apart, apart_words, span_words, bar_part, span_part, bar_fact, span_fact};

use crate::bars::{Bar, Mark, Span, Unit, Way};
use answer::names::{ARRIVAL, FULL, GAP, SPARE, STALL};
use answer::{Answer, Cell, Layout, Line, Part, Value, Word, lines};
use std::alloc::{AllocError, Global};

/// A time, as it is told.
fn time_value(unit: Unit, time: u64) -> Value
    ensures { result ≡ time_value unit time }
{
    match unit {
        Unit::Rounds => Value::Count(time),
        Unit::Nanoseconds => Value::Time(time),
    }
}

/// What stands before the number of a request.
fn way_words(way: Way) -> &'static str
    ensures { result.now ≡ way_words way }
{
    match way {
        Way::Read => "read ",
        Way::Write => "write ",
        Way::Unknown => "command ",
    }
}

/// The word of a mark.
fn mark_words(mark: Mark) -> &'static str
    ensures { result.now ≡ mark_words mark }
{
    match mark {
        Mark::OnTime => "on time",
        Mark::Spare => SPARE,
        Mark::Full => FULL,
        Mark::Stall => STALL,
        Mark::Arrival => ARRIVAL,
        Mark::Gap => GAP,
    }
}

/// How far apart its deadline and its dispatch are.
fn apart(bar: Bar) -> u64
    ensures { result ≡ bar_apart bar }
{
    if bar.due < bar.to {
        bar.to - bar.due
    } else {
        bar.due - bar.to
    }
}

/// What stands before that.
fn apart_words(bar: Bar) -> &'static str
    ensures { result.now ≡ apart_words bar }
{
    if bar.due < bar.to {
        ", late by "
    } else {
        ", early by "
    }
}

/// What stands before the ends of a time.
fn span_words(span: Span) -> &'static str
    ensures { result.now ≡ span_words span }
{
    if span.stall {
        "stall from "
    } else {
        "crowded window from "
    }
}

/// A value behind words.
fn behind(words: &'static str, value: Value) -> Cell
    ensures { result ≡ cell_behind words.now value }
{
    Cell::new(Layout::Words(Word::new(words)), "", value)
}

/// What is said of a request.
fn bar_part(alloc: Global, unit: Unit, bar: Bar) -> Result<Part, AllocError>
    ensures { IfOk result (λ part. part ≡ bar_part unit bar) }
{
    let cells = Vec::from_array(
        alloc,
        [
            behind(way_words(bar.way), Value::Count(bar.id)),
            behind(": in ", time_value(unit, bar.from)),
            behind(", due ", time_value(unit, bar.due)),
            behind(", out ", time_value(unit, bar.to)),
            behind(apart_words(bar), time_value(unit, apart(bar))),
            behind(": ", Value::Text(Word::new(mark_words(bar.mark)))),
        ],
    )?;
    Ok(Part::Line(Line::new(cells, "")))
}

/// What is said of a time in which more was wanted than could be had.
fn span_part(alloc: Global, unit: Unit, span: Span) -> Result<Part, AllocError>
    ensures { IfOk result (λ part. part ≡ span_part unit span) }
{
    let cells = Vec::from_array(
        alloc,
        [
            behind(span_words(span), time_value(unit, span.from)),
            behind(" to ", time_value(unit, span.to)),
            behind(": requests ", Value::Count(span.requests)),
            behind(", carries ", Value::Count(span.carries)),
        ],
    )?;
    Ok(Part::Line(Line::new(cells, "")))
}

/// A part as text.
fn text_of(alloc: Global, part: Part) -> Result<Vec<u8>, AllocError>
    ensures { IfOk result (λ text. text.items ≡ answer_lines (part ∷ [])) }
{
    let mut answer = Answer::new(alloc);
    answer.add(part)?;
    lines(alloc, &answer)
}

/// What is said of a request, as text.
#[tactic(auto, unfolding(crate::specs::Facts::bar_fact))]
pub(crate) fn bar_fact(alloc: Global, unit: Unit, bar: Bar) -> Result<Vec<u8>, AllocError>
    ensures { IfOk result (λ text. text.items ≡ bar_fact unit bar) }
{
    text_of(alloc, bar_part(alloc, unit, bar)?)
}

/// What is said of a time in which more was wanted than could be had, as text.
#[tactic(auto, unfolding(crate::specs::Facts::span_fact))]
pub(crate) fn span_fact(alloc: Global, unit: Unit, span: Span) -> Result<Vec<u8>, AllocError>
    ensures { IfOk result (λ text. text.items ≡ span_fact unit span) }
{
    text_of(alloc, span_part(alloc, unit, span)?)
}
