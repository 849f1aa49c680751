//! The command line as clap has it, made of the table.

ghost use Rattle.std.specs.Prelude.{◌≡◌, false, fold, map, IfOk};
ghost use Rattle.clap.specs.Words.{app_of, rule_of};
ghost use Rattle.clap.specs.declared.builder.command.Command.TheViews.{out-Command as fields_of};
ghost use Rattle.blk_schedulers.specs.Options.{option_of, tried_names};
ghost use Rattle.blk_args.specs.CommandLine.{Names as AnyNames, AreNames, option_rule, with_option, app_for, with_one, run_table, other_table, blk_app};
ghost use Rattle.blk_args.specs.Inside.Tables.{options_in, subcommand_of};

use crate::table::{CommandRow, OTHER_COMMANDS, OptionGroup, RUN_COMMANDS};
use crate::words::version;
use blk_schedulers::options::{OptionRow, OptionValue, flag_options, list_options, tuning_options};
use blk_schedulers::plans::text_options;
use clap::builder::ValueParser;
use clap::{Arg, ArgAction, Command, value_parser};
use std::alloc::{AllocError, Global};

/// The names that options take.
#[derive(Clone, Copy)]
pub struct Names<'a> {
    /// Those of the schedulers.
    pub scheds: &'a [&'a str],
    /// Those of positions.
    pub positions: &'a [&'a str],
}

/// The names that the command line borrows.
#[derive(Clone, Copy)]
struct Borrowed<'a> {
    /// Those that options may take.
    all: Names<'a>,
    /// Those of the schedulers in the order of trials, with commas between.
    tried: &'a str,
}

/// The argument of an option.
fn option_arg<'a, 'b: 'a>(alloc: Global, row: OptionRow<'b>, names: Borrowed<'a>) -> Arg<'a>
    ensures rule { rule_of result ≡ option_rule names.entry.all (option_of row.entry) }
    ensures local { result.global ≡ false }
{
    let bare = Arg::new(alloc, row.name).long(row.name).help(row.help);
    match row.takes {
        OptionValue::Nothing => bare.action(ArgAction::SetTrue),
        OptionValue::Sched(default) => bare
            .action(ArgAction::Set)
            .value_parser(names.all.scheds)
            .default_value(default),
        OptionValue::Short(default) => bare
            .action(ArgAction::Set)
            .value_parser(value_parser!(u16))
            .default_value(default),
        OptionValue::Number(least, most, default) => bare
            .action(ArgAction::Set)
            .value_parser(ValueParser::unsigned(least, most))
            .default_value(default),
        OptionValue::Maybe(least, most) => bare
            .action(ArgAction::Set)
            .value_parser(ValueParser::unsigned(least, most)),
        OptionValue::Text(default) => bare
            .action(ArgAction::Set)
            .value_parser(ValueParser::String)
            .default_value(default),
        OptionValue::MaybeText => bare
            .action(ArgAction::Set)
            .value_parser(ValueParser::String),
        OptionValue::Positions(default) => bare
            .action(ArgAction::Set)
            .value_parser(names.all.positions)
            .default_value(default),
    }
}

/// A command with these options too.
fn with_options<'a, 'b: 'a>(
    alloc: Global,
    command: Command<'a>,
    rows: &[OptionRow<'b>],
    names: Borrowed<'a>,
) -> Result<Command<'a>, AllocError>
    requires { (fields_of command).has_globals ≡ false }
    ensures app { IfOk result (λ c. app_of c ≡ fold (with_option names.entry.all) (app_of command.entry) (map option_of rows.now)) }
    ensures local { IfOk result (λ c. (fields_of c).has_globals ≡ false) }
{
    let mut grown = command;
    for row in rows {
        grown = grown.arg(option_arg(alloc, *row, names))?;
    }
    Ok(grown)
}

/// A command with the options of a group too.
fn with_group<'a>(
    alloc: Global,
    command: Command<'a>,
    group: OptionGroup,
    names: Borrowed<'a>,
) -> Result<Command<'a>, AllocError>
    requires local { (fields_of command).has_globals ≡ false }
    requires tried { names.tried.now ≡ tried_names }
    ensures app { IfOk result (λ c. app_of c ≡ fold (with_option names.entry.all) (app_of command.entry) (options_in group)) }
    ensures local { IfOk result (λ c. (fields_of c).has_globals ≡ false) }
{
    match group {
        OptionGroup::Own(row) => with_options(alloc, command, &[row], names),
        OptionGroup::Flags => with_options(alloc, command, flag_options(alloc)?.as_slice(), names),
        OptionGroup::Settings => with_options(
            alloc,
            command,
            tuning_options(alloc)?.as_slice(),
            names,
        ),
        OptionGroup::Texts => {
            with_options(alloc, command, text_options(alloc)?.as_slice(), names)
        }
        OptionGroup::Lists => {
            let rows = list_options(alloc, names.tried)?;
            with_options(alloc, command, rows.as_slice(), names)
        }
    }
}

/// A subcommand with its options.
fn command_of<'a>(
    alloc: Global,
    row: &'a CommandRow,
    names: Borrowed<'a>,
) -> Result<Command<'a>, AllocError>
    requires { names.tried.now ≡ tried_names }
    ensures app { IfOk result (λ c. app_of c ≡ app_for names.entry.all (subcommand_of row.now)) }
    ensures local { IfOk result (λ c. (fields_of c).has_globals ≡ false) }
{
    let mut grown = Command::new(alloc, row.name).about(row.about);
    for group in row.options {
        grown = with_group(alloc, grown, *group, names)?;
    }
    Ok(grown)
}

/// A command with these subcommands too.
fn with_commands<'a>(
    alloc: Global,
    command: Command<'a>,
    rows: &'a [CommandRow],
    names: Borrowed<'a>,
) -> Result<Command<'a>, AllocError>
    requires { names.tried.now ≡ tried_names }
    ensures { IfOk result (λ c. app_of c ≡ fold (with_one names.entry.all) (app_of command.entry) (map subcommand_of rows.now)) }
{
    let mut grown = command;
    for row in rows {
        grown = grown.subcommand(command_of(alloc, row, names)?)?;
    }
    Ok(grown)
}

/// The rows of the subcommands over scripts and over traces.
pub fn run_commands() -> &'static [CommandRow]
    ensures { map subcommand_of result.now ≡ run_table }
{
    RUN_COMMANDS.as_slice()
}

/// Those of the others.
pub fn other_commands() -> &'static [CommandRow]
    ensures { map subcommand_of result.now ≡ other_table }
{
    OTHER_COMMANDS.as_slice()
}

/// The command line of the program, which borrows the names that options take, and those of the schedulers in the order of trials, with commas
/// between.
pub fn blk_command<'a>(
    alloc: Global,
    names: Names<'a>,
    tried: &'a str,
) -> Result<Command<'a>, AllocError>
    requires names { AreNames names }
    requires tried { tried.now ≡ tried_names }
    ensures { IfOk result (λ c. (names : AnyNames) × AreNames names × (app_of c ≡ blk_app names)) }
{
    let blk = Command::new(alloc, "blk")
        .version(version())
        .about("A multiqueue block layer, and how far its schedules fall short of the best")
        .subcommand_required(true);
    let borrowed = Borrowed { all: names, tried };
    let runs = with_commands(alloc, blk, run_commands(), borrowed)?;
    let all = with_commands(alloc, runs, other_commands(), borrowed)?;
    Ok(all)
}
