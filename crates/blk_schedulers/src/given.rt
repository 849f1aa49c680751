//! Schedulers, as the options of a command line give them.

ghost use Rattle.std.specs.Prelude.{◌≡◌, ◌≤◌, All, IfSome, map, option_map};
ghost use Rattle.blk_schedulers.specs.Row.{setting_row_of, sched_row_of};
ghost use Rattle.blk_schedulers.specs.Given.{GivenOptions, value_given, given_at, sched_by, row_named, sched_given, is_compared, compared_by, lineup_given};

use crate::options::SCHED_NAME;
use crate::positions::position_named;
use crate::rows::{SCHED_COUNT, SchedRow, SettingRange, SettingRow, rows};
use crate::sched::{ComparedScheds, Sched};
use arrayvec::ArrayVec;

/// How many numbers a list has at most.
pub const MAX_LISTED: usize = 64;

/// The greatest number of 16 bits.
pub const MAX_SHORT: u64 = 65_535;

/// The numbers of a list.
pub type Numbers = ArrayVec<u64, MAX_LISTED>;

/// The values of the options of a command line, each by its name. An option that isn't there has none.
pub trait Given {
    /// What they are given.
    ghost given: { Self → GivenOptions };

    /// The text that an option is given.
    fn text(&self, option: &str) -> Option<&str>
        ensures { option_map (λ t. t.now) result ≡ (given self.now).text option.now };

    /// The number of 16 bits.
    fn short(&self, option: &str) -> Option<u16>
        ensures { result ≡ (given self.now).short option.now };

    /// The number of 64 bits.
    fn number(&self, option: &str) -> Option<u64>
        ensures { result ≡ (given self.now).number option.now };

    /// The list of 1 to [`MAX_LISTED`] numbers up to the most, each once, with commas between.
    fn list(&self, option: &str, most: u64) -> Option<Numbers>
        ensures numbers { option_map (λ n. n.items) result ≡ (given self.now).list most option.now }
        ensures range { IfSome result (λ n. All (λ x. x ≤ most) n.items) };

    /// Whether a flag is set.
    fn is_set(&self, option: &str) -> bool
        ensures { result ≡ (given self.now).is_set option.now };
}

impl SettingRow {
    /// The value that its option gives.
    fn given<G: Given>(&self, options: &G) -> Option<u64>
        ensures { result ≡ value_given (G.given options.now) (setting_row_of self.now) }
    {
        match self.range {
            SettingRange::Short(_, _) => match options.short(self.option) {
                Some(number) => Some(number as u64),
                None => None,
            },
            SettingRange::UpTo(_, _, _) => options.number(self.option),
            SettingRange::Switch(turned) => {
                let is_on = options.is_set(self.option) == turned;
                Some(is_on as u64)
            }
            SettingRange::Positions(_, _) => position_named(options.text(self.option)?),
        }
    }
}

/// The value of the setting in this place, 0 where there is none.
fn given_at<G: Given>(options: &G, settings: &[SettingRow], place: usize) -> Option<u64>
    ensures { result ≡ given_at (G.given options.now) (map setting_row_of settings.now) place }
{
    if place < settings.len() {
        settings[place].given(options)
    } else {
        Some(0)
    }
}

/// The scheduler of this row, with the settings that the options give.
pub(crate) fn sched_by<G: Given>(options: &G, row: &SchedRow) -> Option<Sched>
    ensures { result ≡ sched_by (G.given options.now) (sched_row_of row.now) }
{
    let values = [
        given_at(options, row.settings, 0)?,
        given_at(options, row.settings, 1)?,
        given_at(options, row.settings, 2)?,
        given_at(options, row.settings, 3)?,
    ];
    Some(Sched {
        kind: row.kind,
        values,
    })
}

/// The row of this name.
pub(crate) fn row_named(name: &str) -> Option<&'static SchedRow>
    ensures { option_map (λ r. sched_row_of r.now) result ≡ row_named name.now }
{
    let rows = rows();
    for i in 0..rows.len() {
        if name == rows[i].name {
            return Some(&rows[i]);
        }
    }
    None
}

/// Whether the scheduler of this row is compared.
fn is_compared<G: Given>(options: &G, row: &SchedRow) -> bool
    ensures { result ≡ is_compared (G.given options.now) (sched_row_of row.now) }
{
    match row.flag {
        Some(flag) => options.is_set(flag.name),
        None => true,
    }
}

/// It with its settings, where it is compared. None where a setting is missing.
fn compared_by<G: Given>(options: &G, row: &SchedRow) -> Option<Option<Sched>>
    ensures { result ≡ compared_by (G.given options.now) (sched_row_of row.now) }
{
    let sched = sched_by(options, row)?;
    if is_compared(options, row) {
        Some(Some(sched))
    } else {
        Some(None)
    }
}

impl Sched {
    /// The scheduler that the options name, with the settings that they give. None where one of these is missing, which
    /// [`crate::options::SCHED`] and [`crate::options::tuning_options`] never are, since they have defaults; or where none has the name.
    pub fn given<G: Given>(options: &G) -> Option<Sched>
        ensures { result ≡ sched_given (G.given options.now) }
    {
        let name = options.text(SCHED_NAME)?;
        let row = row_named(name)?;
        sched_by(options, row)
    }
}

impl ComparedScheds {
    /// The schedulers that run a script in turn, with the settings that the options give. None where a setting is missing.
    pub fn given<G: Given>(options: &G) -> Option<ComparedScheds>
        ensures { result ≡ lineup_given (G.given options.now) }
    {
        let rows = rows();
        let mut scheds = [None; SCHED_COUNT];
        for i in 0..rows.len() {
            scheds[i] = compared_by(options, &rows[i])?;
        }
        Some(ComparedScheds { scheds })
    }
}
