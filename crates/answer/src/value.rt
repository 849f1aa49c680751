//! What a member or a cell says.

ghost use Rattle.std.specs.Prelude.{◌≡◌};
ghost use Rattle.answer.specs.Parts.{counted, signed, clocked, windowed};

use crate::names::NONE;
use crate::word::Word;
use std::marker::Model;

/// What a member or a cell says.
#[derive(Drop)]
pub enum Value {
    /// A number.
    Count(u64),
    /// A number of either sign.
    Signed(i64),
    /// A word of a list.
    Text(Word),
    /// There is nothing to say: the lines have these words, JSON has `null`.
    Nothing(Word),
    /// What is remarked: in the lines after a space and in brackets, in JSON the words alone.
    Remark(Word),
    /// The first round of a window, and the one in which it is due: in the lines with a space between, in JSON an object of `from` and `due`.
    Window(u64, u64),
    /// A time in nanoseconds: in the lines in milliseconds with three digits behind the point, what is less cut off; in JSON the nanoseconds.
    Time(u64),
    /// A share in thousandths: in the lines in hundredths with one digit behind the point; in JSON the thousandths.
    Share(u64),
    /// Settings: in the lines `NAME=VALUE` each, with spaces between, or `-` where there are none; in JSON an object.
    Settings(Settings),
}

/// What a setting is set to.
#[derive(Drop)]
pub enum Set {
    /// A number.
    Number(u64),
    /// On or off.
    Switch(bool),
    /// A word of a list.
    Word(Word),
}

/// A setting.
#[derive(Drop)]
pub struct Setting {
    /// Its name.
    pub name: Word,
    /// What it is set to.
    pub set: Set,
}

/// Settings, in their order.
#[derive(Drop)]
pub struct Settings {
    all: Vec<Setting>,
}

impl Model for Settings {
    ghost use Rattle.std.specs.Prelude.{List};
    ghost use Rattle.answer.specs.declared.value.Setting.{Setting as ASetting};

    ghost Value = { List ASetting };

    ghost view = { λ s. s.all.items };
}

impl Settings {
    /// These settings.
    pub fn new(all: Vec<Setting>) -> Settings
        ensures { result ≡ all.items }
    {
        Settings { all }
    }

    /// All of them.
    pub(crate) fn all(&self) -> &[Setting]
        ensures { result.now ≡ self.now }
    {
        self.all.as_slice()
    }
}

/// A count, or `none` where there is none.
pub fn count_or_none(count: Option<u64>) -> Value
    ensures { result ≡ counted count }
{
    match count {
        Some(count) => Value::Count(count),
        None => Value::Nothing(Word::new(NONE)),
    }
}

/// A time, or `none` where there is none.
pub fn time_or_none(time: Option<u64>) -> Value
    ensures { result ≡ clocked time }
{
    match time {
        Some(time) => Value::Time(time),
        None => Value::Nothing(Word::new(NONE)),
    }
}

/// A number of either sign, or `none` where there is none.
pub fn signed_or_none(number: Option<i64>) -> Value
    ensures { result ≡ signed number }
{
    match number {
        Some(number) => Value::Signed(number),
        None => Value::Nothing(Word::new(NONE)),
    }
}

/// A window by its first round and the one in which it is due, or `none` where there is none.
pub fn window_or_none(window: Option<(u64, u64)>) -> Value
    ensures { result ≡ windowed window }
{
    match window {
        Some((from, due)) => Value::Window(from, due),
        None => Value::Nothing(Word::new(NONE)),
    }
}
