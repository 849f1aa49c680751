//! A setting of a scheduler, by the name that the command line has for it, and the settings of one.

ghost use Rattle.std.specs.Prelude.{◌≡◌};
ghost use Rattle.blk_schedulers.specs.Settings.{number_setting, switch_setting, positions_setting};

use arrayvec::ArrayVec;
use blk_deadline::Positions;
use std::marker::Model;

/// What a setting is set to.
#[derive(Clone, Copy, Debug, PartialEq, Eq)]
pub enum SettingValue {
    /// A number.
    Number(u64),
    /// On or off.
    Switch(bool),
    /// One position or each direction's own.
    Positions(Positions),
}

/// A setting: its name, and what it is set to.
#[derive(Drop)]
pub struct Setting {
    name: &'static str,
    value: SettingValue,
}

impl Model for Setting {
    ghost use Rattle.blk_schedulers.specs.Settings.{NamedSetting};

    ghost Value = { NamedSetting };

    ghost view = { λ s. record { name = s.name.now; value = s.value } };
}

/// How many settings a scheduler has at most.
pub const MAX_SETTINGS: usize = 4;

/// The settings of a scheduler, up to [`MAX_SETTINGS`] of them.
pub type Settings = ArrayVec<Setting, MAX_SETTINGS>;

/// What stands in an unused place of a list of settings.
impl Default for Setting {
    fn default() -> Setting {
        Setting {
            name: "",
            value: SettingValue::Switch(false),
        }
    }
}

impl Setting {
    /// One that is a number.
    pub fn number(name: &'static str, number: u64) -> Setting
        ensures { result ≡ number_setting name.now number }
    {
        Setting {
            name,
            value: SettingValue::Number(number),
        }
    }

    /// One that is on or off.
    pub fn switch(name: &'static str, is_on: bool) -> Setting
        ensures { result ≡ switch_setting name.now is_on }
    {
        Setting {
            name,
            value: SettingValue::Switch(is_on),
        }
    }

    /// One that is one position or each direction's own.
    pub fn positions(name: &'static str, positions: Positions) -> Setting
        ensures { result ≡ positions_setting name.now positions }
    {
        Setting {
            name,
            value: SettingValue::Positions(positions),
        }
    }

    /// Its name, on the command line and in tables.
    pub fn name(&self) -> &'static str
        ensures { result.now ≡ self.now.name }
    {
        self.name
    }

    /// What it is set to.
    pub fn value(&self) -> SettingValue
        ensures { result ≡ self.now.value }
    {
        self.value
    }
}
