//! A capture in numbers.

ghost use Rattle.std.specs.Prelude.{◌≡◌, [], IfOk, count_by};
ghost use Rattle.blk_capture.specs.Fates.{is_unmatched, is_passed, is_of_kind};
ghost use Rattle.blk_capture_text.specs.SummaryText.{counts_of, one_counted, counts_with, phase_part, summary_parts, notice_line};

use answer::names::{
    ACTIONS, BIOS, D_TO_C, DISCARDS, EMPTY, ERASES, FLUSHES, I_TO_D, LEFT_OUT, MAX, MERGES, OTHERS,
    P50, P99, PAST_END, PLUGS, Q_TO_G, RECORDS, REQUESTS, SUMMARY_IN_FLIGHT, SUMMARY_LATE_READS,
    SUMMARY_LATE_WRITES, UNMATCHED, UNPLUGS,
};
use answer::{Answer, Cell, Layout, Line, Part, Value, Word, count_or_none, member};
use blk_capture::{Fate, PassReason, Percentiles, Summary, count_passed};
use std::alloc::{AllocError, Global};
use text_output::Draft;

/// How many records of a capture were not matched, and how many passed over, by the reason.
#[derive(Clone, Copy, Debug, PartialEq, Eq)]
pub struct UnusedCounts {
    /// What they speak of isn't known.
    pub unmatched: u64,
    /// Passed over, for whatever reason.
    pub passed: u64,
    /// Of these, of a plug's beginning.
    pub plugs: u64,
    /// Of a plug that was flushed.
    pub unplugs: u64,
    /// Of an action that says nothing of a request.
    pub actions: u64,
    /// Of a discard.
    pub discards: u64,
    /// Of an erase.
    pub erases: u64,
    /// Of a flush without data.
    pub flushes: u64,
    /// Of something else that moves no data.
    pub others: u64,
    /// Without sectors.
    pub empty: u64,
    /// With sectors past the last one.
    pub past_end: u64,
}

/// One more where something holds, of a count that stays at the greatest number.
fn one_counted(count: u64, holds: bool) -> u64
    ensures { result ≡ one_counted count holds }
{
    if holds {
        count.saturating_add(1)
    } else {
        count
    }
}

/// Whether a record was passed over for a reason.
fn is_of_kind(fate: Fate, kind: PassReason) -> bool
    ensures { result ≡ is_of_kind kind fate }
{
    match fate {
        Fate::PassedOver(found) => found.place() == kind.place(),
        Fate::Taken(_) | Fate::LeftOut | Fate::Unmatched => false,
    }
}

impl UnusedCounts {
    /// Of no records.
    pub fn none() -> UnusedCounts
        ensures { result ≡ counts_of [] }
    {
        UnusedCounts {
            unmatched: 0,
            passed: 0,
            plugs: 0,
            unplugs: 0,
            actions: 0,
            discards: 0,
            erases: 0,
            flushes: 0,
            others: 0,
            empty: 0,
            past_end: 0,
        }
    }

    /// Counts one record more, of which this is known: of what is of a request, as most are, nothing.
    pub fn count(&mut self, fate: Fate)
        ensures { self.new ≡ counts_with self.old fate }
    {
        match fate {
            Fate::Taken(_) | Fate::LeftOut => {}
            Fate::Unmatched | Fate::PassedOver(_) => *self = self.with_unused(fate),
        }
    }

    /// With one record more, of no known request.
    fn with_unused(self, fate: Fate) -> UnusedCounts
        ensures { result ≡ counts_with self fate }
    {
        UnusedCounts {
            unmatched: one_counted(self.unmatched, is_unmatched(fate)),
            passed: one_counted(self.passed, is_passed(fate)),
            plugs: one_counted(self.plugs, is_of_kind(fate, PassReason::Plug)),
            unplugs: one_counted(self.unplugs, is_of_kind(fate, PassReason::Unplug)),
            actions: one_counted(self.actions, is_of_kind(fate, PassReason::Action)),
            discards: one_counted(self.discards, is_of_kind(fate, PassReason::Discard)),
            erases: one_counted(self.erases, is_of_kind(fate, PassReason::Erase)),
            flushes: one_counted(self.flushes, is_of_kind(fate, PassReason::Flush)),
            others: one_counted(self.others, is_of_kind(fate, PassReason::Nothing)),
            empty: one_counted(self.empty, is_of_kind(fate, PassReason::Empty)),
            past_end: one_counted(self.past_end, is_of_kind(fate, PassReason::PastEnd)),
        }
    }
}

/// Whether a record was not matched.
fn is_unmatched(fate: Fate) -> bool
    ensures { result ≡ is_unmatched fate }
{
    match fate {
        Fate::Unmatched => true,
        Fate::Taken(_) | Fate::LeftOut | Fate::PassedOver(_) => false,
    }
}

/// How many records were not matched.
fn count_unmatched(fates: &[Fate]) -> u64
    ensures { result ≡ count_by is_unmatched fates.now }
{
    let mut count = 0;
    for fate in fates {
        if is_unmatched(*fate) {
            count += 1;
        }
    }
    count
}

/// Whether a record was passed over.
fn is_passed(fate: Fate) -> bool
    ensures { result ≡ is_passed fate }
{
    match fate {
        Fate::PassedOver(_) => true,
        Fate::Taken(_) | Fate::LeftOut | Fate::Unmatched => false,
    }
}

/// How many records were passed over, for whatever reason.
fn count_all_passed(fates: &[Fate]) -> u64
    ensures { result ≡ count_by is_passed fates.now }
{
    let mut count = 0;
    for fate in fates {
        if is_passed(*fate) {
            count += 1;
        }
    }
    count
}

/// What became of the records of no known request.
pub fn count_fates(fates: &[Fate]) -> UnusedCounts
    ensures { result ≡ counts_of fates.now }
{
    UnusedCounts {
        unmatched: count_unmatched(fates),
        passed: count_all_passed(fates),
        plugs: count_passed(fates, PassReason::Plug),
        unplugs: count_passed(fates, PassReason::Unplug),
        actions: count_passed(fates, PassReason::Action),
        discards: count_passed(fates, PassReason::Discard),
        erases: count_passed(fates, PassReason::Erase),
        flushes: count_passed(fates, PassReason::Flush),
        others: count_passed(fates, PassReason::Nothing),
        empty: count_passed(fates, PassReason::Empty),
        past_end: count_passed(fates, PassReason::PastEnd),
    }
}

/// The times of a phase in nanoseconds: the median, the 99th of a hundred and the greatest, or three times `none`.
fn phase_part(
    alloc: Global,
    name: &'static str,
    percentiles: &Percentiles,
) -> Result<Part, AllocError>
    ensures { IfOk result (λ part. part ≡ phase_part name.now percentiles.now) }
{
    let cells = Vec::from_array(
        alloc,
        [
            Cell::new(
                Layout::OtherName(Word::new(name)),
                P50,
                count_or_none(percentiles.p50),
            ),
            Cell::new(Layout::Space, P99, count_or_none(percentiles.p99)),
            Cell::new(Layout::Space, MAX, count_or_none(percentiles.max)),
        ],
    )?;
    Ok(Part::Object(Word::new(name), Line::new(cells, "\n")))
}

/// A summary: how much there is, how long the phases of requests took, how many requests were opened and are not taken, and what became of the
/// records that are of none. Fails only when out of memory.
pub fn summary_answer(
    alloc: Global,
    summary: &Summary,
    left_out: u64,
    counts: &UnusedCounts,
) -> Result<Answer, AllocError>
    ensures { IfOk result (λ answer. answer ≡ summary_parts summary.now left_out counts.now) }
{
    let mut answer = Answer::new(alloc);
    answer.add(member(RECORDS, Value::Count(summary.records)))?;
    answer.add(member(BIOS, Value::Count(summary.bios)))?;
    answer.add(member(REQUESTS, Value::Count(summary.requests)))?;
    answer.add(member(MERGES, Value::Count(summary.merges)))?;
    answer.add(member(SUMMARY_LATE_READS, Value::Count(summary.late_reads)))?;
    answer.add(member(SUMMARY_LATE_WRITES, Value::Count(summary.late_writes)))?;
    answer.add(phase_part(alloc, Q_TO_G, &summary.tag)?)?;
    answer.add(phase_part(alloc, I_TO_D, &summary.scheduler)?)?;
    answer.add(phase_part(alloc, D_TO_C, &summary.device)?)?;
    answer.add(member(SUMMARY_IN_FLIGHT, Value::Count(summary.in_flight)))?;
    answer.add(member(LEFT_OUT, Value::Count(left_out)))?;
    answer.add(member(UNMATCHED, Value::Count(counts.unmatched)))?;
    answer.add(member(PLUGS, Value::Count(counts.plugs)))?;
    answer.add(member(UNPLUGS, Value::Count(counts.unplugs)))?;
    answer.add(member(ACTIONS, Value::Count(counts.actions)))?;
    answer.add(member(DISCARDS, Value::Count(counts.discards)))?;
    answer.add(member(ERASES, Value::Count(counts.erases)))?;
    answer.add(member(FLUSHES, Value::Count(counts.flushes)))?;
    answer.add(member(OTHERS, Value::Count(counts.others)))?;
    answer.add(member(EMPTY, Value::Count(counts.empty)))?;
    answer.add(member(PAST_END, Value::Count(counts.past_end)))?;
    Ok(answer)
}

/// The line that says how many records were passed over and how many not matched.
pub fn notice_text(alloc: Global, counts: &UnusedCounts) -> Result<Vec<u8>, AllocError>
    ensures { IfOk result (λ v. v.items ≡ notice_line counts.now) }
{
    let mut draft = Draft::new(alloc);
    draft.text(b"blk: passed over ")?;
    draft.number(counts.passed)?;
    draft.text(b", unmatched ")?;
    draft.number(counts.unmatched)?;
    draft.text(b"\n")?;
    draft.finish()
}
