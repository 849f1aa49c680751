//! Schedulers with their settings: what these are, and what is wrong with them.

ghost use Rattle.std.specs.Prelude.{◌≡◌, ◌<◌, IfOk};
ghost use Rattle.blk_schedulers.specs.Row.{setting_row_of, short_at};
ghost use Rattle.blk_schedulers.specs.Scheds.{name_of, settings_of, as_setting, in_turn};
ghost use Rattle.blk_schedulers.specs.Names.{sched_told};

use crate::given::MAX_SHORT;
use crate::positions::positions_of;
use crate::rows::{SCHED_COUNT, SchedKind, SettingRange, SettingRow};
use crate::setting::{MAX_SETTINGS, Setting, Settings};
use blk_deadline::DeadlineFault;
use blk_kyber::KyberFault;
use edd_commands::{Fault, Told, told};
use std::alloc::{AllocError, Global};
use thiserror::Error;

/// Why a scheduler is not made.
#[derive(Clone, Copy, Debug, PartialEq, Eq, Error)]
#[error("{}", self.name())]
pub enum SchedFault {
    /// The settings of `deadline`, or memory ran out as it was made.
    Deadline(DeadlineFault),
    /// The settings of `kyber`, or memory ran out as it was made.
    Kyber(KyberFault),
    /// Memory ran out.
    Memory,
}

impl Fault for SchedFault {
    ghost told = { sched_told };

    fn told(&self) -> Told {
        told!(self: SchedFault {
            Deadline(fault) by fault,
            Kyber(fault) by fault,
            Memory => Memory,
        })
    }
}

/// A scheduler with its settings.
#[derive(Clone, Copy, Debug, PartialEq, Eq)]
pub struct Sched {
    /// Which scheduler it is.
    pub kind: SchedKind,
    /// The values of its row's settings, in their places: a number, for a switch 1 where it is on, and for positions 1 where each
    /// direction has its own. 0 in the places behind them.
    pub values: [u64; MAX_SETTINGS],
}

impl SettingRow {
    /// The setting of this value.
    fn as_setting(&self, value: u64) -> Setting
        ensures { result ≡ as_setting (setting_row_of self.now) value }
    {
        match self.range {
            SettingRange::Short(_, _) => Setting::number(self.name, value),
            SettingRange::UpTo(_, _, _) => Setting::number(self.name, value),
            SettingRange::Switch(_) => Setting::switch(self.name, value == 1),
            SettingRange::Positions(_, _) => Setting::positions(self.name, positions_of(value)),
        }
    }
}

impl Sched {
    /// Its name, on the command line and in tables.
    pub fn name(&self) -> &'static str
        ensures { result.now ≡ name_of self.now }
    {
        self.kind.row().name
    }

    /// Its settings, in the order in which they are written.
    pub fn settings(&self) -> Settings
        ensures { result.items ≡ settings_of self.now }
    {
        let rows = self.kind.row().settings;
        let mut all = Settings::new();
        for i in 0..rows.len() {
            all.push(rows[i].as_setting(self.values[i]));
        }
        all
    }

    /// The value of a setting of 16 bits. The greatest of these stands for any greater value, which no option gives.
    pub(crate) fn short_at(&self, place: usize) -> u16
        requires { place < MAX_SETTINGS }
        ensures { result ≡ short_at place self.now.values }
    {
        self.values[place].min(MAX_SHORT) as u16
    }
}

/// The schedulers that are compared, each with its settings, in the places of their rows: those that are always compared, and those whose flags
/// are set.
#[derive(Clone, Copy, Debug, PartialEq, Eq)]
pub struct ComparedScheds {
    /// The scheduler of each row, where it is compared.
    pub scheds: [Option<Sched>; SCHED_COUNT],
}

impl ComparedScheds {
    /// The schedulers in the order in which they run.
    pub fn in_turn(&self, alloc: Global) -> Result<Vec<Sched>, AllocError>
        ensures { IfOk result (λ all. all.items ≡ in_turn self.now) }
    {
        let mut all = Vec::new(alloc);
        for sched in &self.scheds {
            if let Some(sched) = sched {
                all.push(*sched)?;
            }
        }
        Ok(all)
    }
}
