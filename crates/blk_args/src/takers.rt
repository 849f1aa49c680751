//! Which subcommands take a kind of text, by the table, as they are named to somebody who has such a text.

ghost use Rattle.std.specs.Prelude.{◌≡◌, ◌++◌, IfOk, OnOk, length, map, option_map};
ghost use Rattle.blk_args.specs.CommandLine.{command_table};
ghost use Rattle.blk_args.specs.Inside.Tables.{subcommand_of, subcommands_of, called};
ghost use Rattle.blk_args.specs.Takers.{TakesWhatItReads, at_place, named_in_order, taker, taker_but, takers};
ghost use Rattle.blk_args.specs.declared.inputs.TextKind.{TextKind as Kind};
ghost use Rattle.blk_args.specs.declared.table.JobKind.{JobKind as Made};

use crate::command::{other_commands, run_commands};
use crate::inputs::TextKind;
use crate::option_names;
use crate::table::{COMMAND_COUNT, CommandRow, FiguresAsked, JobKind};
use std::alloc::{AllocError, Global};

/// A subcommand, as it takes a text.
#[derive(Clone, Copy)]
struct Taker {
    /// Its name.
    name: &'static str,
    /// The flag under which it takes the text, if it reads another without.
    flag: Option<&'static str>,
}

impl Taker {
    /// Adds its name, with the flag.
    fn push(self, names: &mut String) -> Result<(), AllocError> {
        names.push_str(self.name)?;
        if let Some(flag) = self.flag {
            names.push_str(" --")?;
            names.push_str(flag)?;
        }
        Ok(())
    }
}

/// The subcommand of a row as it takes a text of this kind, if it does.
fn taker_of(row: &CommandRow, kind: TextKind) -> Option<Taker>
    ensures { option_map called result ≡ taker kind (subcommand_of row.now) }
{
    let flag = match (row.makes, kind) {
        (JobKind::Sim | JobKind::Compare | JobKind::Tune, TextKind::Script)
        | (JobKind::Told(_) | JobKind::Formed(_) | JobKind::Picture, TextKind::Trace)
        | (JobKind::Oracle, TextKind::Commands)
        | (JobKind::Check, TextKind::Certificate)
        | (JobKind::Judge, TextKind::Schedule)
        | (JobKind::Import | JobKind::Blame | JobKind::Replay, TextKind::Capture) => None,
        (JobKind::Picture, TextKind::Script) => Some(option_names::SCRIPT),
        (JobKind::Picture, TextKind::Schedule) => Some(option_names::SCHEDULE),
        (JobKind::Oracle, TextKind::Trace) => Some(option_names::TRACE),
        _ => return None,
    };
    Some(Taker {
        name: row.name,
        flag,
    })
}

/// The same, of any subcommand but that of this name.
fn taker_but(row: &CommandRow, kind: TextKind, but: &str) -> Option<Taker>
    ensures { option_map called result ≡ taker_but kind but.now (subcommand_of row.now) }
{
    if row.name == but {
        None
    } else {
        taker_of(row, kind)
    }
}

/// Adds those of these rows that have this place.
fn push_rows(all: &mut Vec<CommandRow>, rows: &[CommandRow], place: usize) -> Result<(), AllocError>
    ensures { OnOk result (subcommands_of all.new.items ≡ subcommands_of all.old.items ++ at_place place (subcommands_of rows.now)) }
{
    for row in rows {
        if row.place == place {
            all.push(*row)?;
        }
    }
    Ok(())
}

/// Adds the rows of all subcommands that have this place.
fn push_place(all: &mut Vec<CommandRow>, place: usize) -> Result<(), AllocError>
    ensures { OnOk result (subcommands_of all.new.items ≡ subcommands_of all.old.items ++ at_place place command_table) }
{
    push_rows(all, run_commands(), place)?;
    push_rows(all, other_commands(), place)
}

/// The rows of all subcommands in the order of their places.
fn in_order(alloc: Global) -> Result<Vec<CommandRow>, AllocError>
    ensures { IfOk result (λ rows. subcommands_of rows.items ≡ named_in_order) }
{
    let mut ordered = Vec::new(alloc);
    for place in 0..COMMAND_COUNT {
        push_place(&mut ordered, place)?;
    }
    Ok(ordered)
}

/// The subcommands that take a text of this kind, but that of this name, in the order of their places.
fn takers_of(alloc: Global, kind: TextKind, but: &str) -> Result<Vec<Taker>, AllocError>
    ensures { IfOk result (λ all. map called all.items ≡ takers kind but.now) }
{
    let rows = in_order(alloc)?;
    let mut all = Vec::new(alloc);
    for row in rows.as_slice() {
        if let Some(taker) = taker_but(row, kind, but) {
            all.push(taker)?;
        }
    }
    Ok(all)
}

/// Adds the names of these, each behind a comma and a space.
fn push_others(names: &mut String, others: &[Taker]) -> Result<(), AllocError> {
    for taker in others {
        names.push_str(", ")?;
        taker.push(names)?;
    }
    Ok(())
}

/// The names of the subcommands that take a text of this kind, with a comma and a space between, each with the flag that asks for it where
/// it reads another kind without; the subcommand of the name `but` is left out. They stand in the order of the places in their rows, by which
/// no other is left out. Fails only when out of memory.
pub fn takers_text(alloc: Global, kind: TextKind, but: &str) -> Result<String, AllocError>
    ensures { length named_in_order ≡ length command_table }
{
    let all = takers_of(alloc, kind, but)?;
    let mut names = String::new(alloc);
    if let Some((first, others)) = all.as_slice().split_first() {
        first.push(&mut names)?;
        push_others(&mut names, others)?;
    }
    Ok(names)
}

/// The name of the subcommand that these figures of a trace have by themselves, if there is one.
pub fn figures_name(asked: FiguresAsked) -> Option<&'static str> {
    for row in run_commands() {
        if let JobKind::Formed(figures) = row.makes {
            if figures == asked {
                return Some(row.name);
            }
        }
    }
    None
}

/// Each subcommand is named as taking the texts that its job reads, and no others.
pub fn takes_what_it_reads()
    ensures { (m : Made) → (i : Kind) → TakesWhatItReads m i }
{}
