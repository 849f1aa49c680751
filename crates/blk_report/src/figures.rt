//! What a report says.

ghost use Rattle.std.specs.Prelude.{◌≡◌, IfOk};
ghost use Rattle.edd_figures.specs.Figures.{greatest_in, least_in, shortfall_in};
ghost use Rattle.blk_report.specs.Lines.{report_text};
ghost use Rattle.blk_report.specs.Shortfall.{report_parts};

use answer::names::{COMMANDS, DEPTH, WAITING};
use answer::{Answer, Value, lines, member};
use edd_figures::Figures;
use edd_figures::answers::add_figures;
use std::alloc::{AllocError, Global};

/// What a trace says of its scheduler.
#[derive(Clone, Copy, Debug, PartialEq, Eq)]
pub struct Report {
    /// How many commands were served.
    pub commands: u64,
    /// How many bios wait.
    pub waiting: u64,
    /// The setup's depth: how many tags there are.
    pub depth: u64,
    /// How late the latest command was and had to be; there is nothing to tell exactly where there are no commands.
    pub figures: Option<Figures>,
}

impl Report {
    /// How late the latest command was, in rounds; below 0 where each was served before its due round.
    pub fn greatest(&self) -> Option<i64>
        ensures { result ≡ greatest_in self.now.figures }
    {
        Some(self.figures?.greatest)
    }

    /// How late some command had to be, whatever the schedule, in rounds.
    pub fn least(&self) -> Option<i64>
        ensures { result ≡ least_in self.now.figures }
    {
        Some(self.figures?.least)
    }

    /// The greatest lateness less the least one, in rounds: what the scheduler lost. It is never below 0.
    pub fn shortfall(&self) -> Option<i64>
        ensures { result ≡ shortfall_in self.now.figures }
    {
        Some(self.figures?.shortfall)
    }
}

/// What a report says: the members `commands`, `waiting` (bios), `depth`, `greatest`, `least`, `shortfall`, `window` (two rounds) and `load`, of
/// which the last five are `none` without commands. Fails only when out of memory.
pub fn report_answer(alloc: Global, report: &Report) -> Result<Answer, AllocError>
    ensures { IfOk result (λ answer. answer ≡ report_parts report.now) }
{
    let mut answer = Answer::new(alloc);
    answer.add(member(COMMANDS, Value::Count(report.commands)))?;
    answer.add(member(WAITING, Value::Count(report.waiting)))?;
    answer.add(member(DEPTH, Value::Count(report.depth)))?;
    add_figures(&mut answer, report.figures)?;
    Ok(answer)
}

/// A report in lines. Fails only when out of memory.
pub fn report_lines(alloc: Global, report: &Report) -> Result<Vec<u8>, AllocError>
    ensures { IfOk result (λ text. text.items ≡ report_text report.now) }
{
    let answer = report_answer(alloc, report)?;
    lines(alloc, &answer)
}
