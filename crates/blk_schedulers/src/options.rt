//! The options of the schedulers: their names, what they take, and what help says of them. Those of settings are made of the table's rows.

ghost use Rattle.std.specs.Prelude.{◌≡◌, ◌++◌, map, IfOk, OnOk, option_map, string_bytes};
ghost use Rattle.blk_schedulers.specs.Row.{setting_row_of};
ghost use Rattle.blk_schedulers.specs.Options.{option_of, sched_names, position_names, tried_names, flags, tuning, listing, setting_option, options_of, list_option, lists_of};

use crate::positions::positions_name;
use crate::rows::{SettingRange, SettingRow, rows, tried_kinds};
use blk_deadline::Positions;
use std::alloc::{AllocError, Global};

/// The option that says which scheduler, or which ones are tried. Its name is a constant of its own, since no constant can be made of
/// another's field.
pub(crate) const SCHED_NAME: &str = "sched";

/// What an option takes.
#[derive(Clone, Copy)]
pub enum OptionValue<'a> {
    /// Nothing: it is a flag.
    Nothing,
    /// The name of a scheduler, with a default.
    Sched(&'a str),
    /// A number of 16 bits, with a default.
    Short(&'a str),
    /// A number from the least to the most, with a default.
    Number(u64, u64, &'a str),
    /// A number from the least to the most, or none.
    Maybe(u64, u64),
    /// A text, with a default: which ones it may be is looked at where it is read.
    Text(&'a str),
    /// A text, or none.
    MaybeText,
    /// The name of positions, with a default.
    Positions(&'a str),
}

/// An option. Its texts are those of the rows, but for the default of the one that lists schedulers, which is made of their names.
#[derive(Clone, Copy)]
pub struct OptionRow<'a> {
    /// Its name, behind two dashes.
    pub name: &'a str,
    /// What it takes.
    pub takes: OptionValue<'a>,
    /// What help says of it.
    pub help: &'a str,
}

/// The option that names the scheduler.
pub const SCHED: OptionRow<'static> = OptionRow {
    name: SCHED_NAME,
    takes: OptionValue::Sched("none"),
    help: "The scheduler",
};

impl SettingRow {
    /// The option that sets it.
    fn setting_option(&self) -> OptionRow<'static>
        ensures { option_of result ≡ setting_option (setting_row_of self.now) }
    {
        let takes = match self.range {
            SettingRange::Short(default, _) => OptionValue::Short(default),
            SettingRange::UpTo(most, default, _) => OptionValue::Number(0, most, default),
            SettingRange::Switch(_) => OptionValue::Nothing,
            SettingRange::Positions(default, _) => OptionValue::Positions(default),
        };
        OptionRow {
            name: self.option,
            takes,
            help: self.help,
        }
    }

    /// The option that lists the values of it that are tried, if it is no switch.
    fn list_option(&self) -> Option<OptionRow<'static>>
        ensures { option_map option_of result ≡ list_option (setting_row_of self.now) }
    {
        let list = match self.range {
            SettingRange::Short(_, list) => list,
            SettingRange::UpTo(_, _, list) => list,
            SettingRange::Positions(_, list) => list,
            SettingRange::Switch(_) => return None,
        };
        Some(OptionRow {
            name: self.option,
            takes: OptionValue::Text(list.default),
            help: list.help,
        })
    }
}

/// Adds the options that set these.
fn push_options(
    all: &mut Vec<OptionRow<'static>>,
    settings: &[SettingRow],
) -> Result<(), AllocError>
    ensures { OnOk result (map option_of all.new.items ≡ map option_of all.old.items ++ options_of (map setting_row_of settings.now)) }
{
    for setting in settings {
        all.push(setting.setting_option())?;
    }
    Ok(())
}

/// Adds the options that list the values of these.
fn push_lists<'a>(all: &mut Vec<OptionRow<'a>>, settings: &[SettingRow]) -> Result<(), AllocError>
    ensures { OnOk result (map option_of all.new.items ≡ map option_of all.old.items ++ lists_of (map setting_row_of settings.now)) }
{
    for setting in settings {
        if let Some(list) = setting.list_option() {
            all.push(list)?;
        }
    }
    Ok(())
}

/// The names of positions, in the order of their values.
pub fn position_names(alloc: Global) -> Result<Vec<&'static str>, AllocError>
    ensures { IfOk result (λ names. map (λ name. name.now) names.items ≡ position_names) }
{
    let mut names = Vec::new(alloc);
    names.push(positions_name(Positions::One))?;
    names.push(positions_name(Positions::Each))?;
    Ok(names)
}

/// The names of the schedulers, in the order of their rows.
pub fn scheduler_names(alloc: Global) -> Result<Vec<&'static str>, AllocError>
    ensures { IfOk result (λ names. map (λ name. name.now) names.items ≡ sched_names) }
{
    let mut names = Vec::new(alloc);
    for row in rows() {
        names.push(row.name)?;
    }
    Ok(names)
}

/// The names of the schedulers in the order of trials, with commas between.
pub fn tried_names(alloc: Global) -> Result<String, AllocError>
    ensures { IfOk result (λ names. string_bytes names ≡ tried_names) }
{
    let kinds = tried_kinds(alloc)?;
    let mut names = String::new(alloc);
    for i in 0..kinds.len() {
        if i > 0 {
            names.push_str(",")?;
        }
        names.push_str(kinds[i].row().name)?;
    }
    Ok(names)
}

/// The flags that add schedulers to those that are compared.
pub fn flag_options(alloc: Global) -> Result<Vec<OptionRow<'static>>, AllocError>
    ensures { IfOk result (λ all. map option_of all.items ≡ flags) }
{
    let mut all = Vec::new(alloc);
    for row in rows() {
        if let Some(flag) = row.flag {
            all.push(OptionRow {
                name: flag.name,
                takes: OptionValue::Nothing,
                help: flag.help,
            })?;
        }
    }
    Ok(all)
}

/// The options that set the schedulers.
pub fn tuning_options(alloc: Global) -> Result<Vec<OptionRow<'static>>, AllocError>
    ensures { IfOk result (λ all. map option_of all.items ≡ tuning) }
{
    let mut all = Vec::new(alloc);
    for row in rows() {
        push_options(&mut all, row.settings)?;
    }
    Ok(all)
}

/// The options that list which schedulers are tried, by default those of [`tried_names`], and under which settings.
pub fn list_options<'a>(alloc: Global, tried: &'a str) -> Result<Vec<OptionRow<'a>>, AllocError>
    requires { tried.now ≡ tried_names }
    ensures { IfOk result (λ all. map option_of all.items ≡ listing) }
{
    let scheds = OptionRow {
        name: SCHED_NAME,
        takes: OptionValue::Text(tried),
        help: "The schedulers to try: names with commas between",
    };
    let mut all = vec![in alloc; scheds]?;
    for row in rows() {
        push_lists(&mut all, row.settings)?;
    }
    Ok(all)
}
