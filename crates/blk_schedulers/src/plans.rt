//! How a capture is replayed: under which schedulers, and by what these go.

ghost use Rattle.std.specs.Prelude.{◌≡◌, ◌++◌, ◌<◌, IfOk, OnOk, map, option_map};
ghost use Rattle.blk_schedulers.specs.Grids.{with_value};
ghost use Rattle.blk_schedulers.specs.Options.{option_of};
ghost use Rattle.blk_schedulers.specs.Plans.{kind_given, plan_of, plans_of, plans_given, has_fifo_lists, fifo_of, fifos_of, fifos_tried, plans_tried, text_option, texts_of, text_options, setting_in, text_tried, tried_among, replay_default};
ghost use Rattle.blk_schedulers.specs.Row.{setting_row_of};

use crate::given::{Given, sched_by};
use crate::options::{OptionRow, OptionValue, SCHED_NAME};
use crate::rows::{SchedKind, SettingRange, SettingRow, rows};
use crate::sched::Sched;
use crate::setting::MAX_SETTINGS;
use std::alloc::{AllocError, Global};

/// What the rows of replays are ordered by first.
#[derive(Clone, Copy, Debug, PartialEq, Eq)]
pub enum ReplayBy {
    /// By how many requests were late.
    Late,
    /// By how late the latest was.
    Lateness,
    /// By the wait that 99 of 100 reads don't pass.
    ReadP99,
}

/// How soon a scheduler's own FIFO lists let requests go first, in nanoseconds after they came in.
#[derive(Clone, Copy, Debug, PartialEq, Eq)]
pub struct FifoExpire {
    /// Reads.
    pub read: u64,
    /// Writes.
    pub write: u64,
}

/// How requests are replayed.
#[derive(Clone, Copy, Debug, PartialEq, Eq)]
pub struct Plan {
    /// Under which scheduler.
    pub sched: Sched,
    /// By which expiries it goes, where it has FIFO lists.
    pub fifo: FifoExpire,
}

/// How many schedulers a capture is replayed under where none is named.
pub const PLAN_COUNT: usize = 6;

/// A scheduler with this value of the setting in a place.
fn with_value(sched: Sched, place: usize, value: u64) -> Sched
    requires { place < MAX_SETTINGS }
    ensures { result ≡ with_value place sched value }
{
    let mut values = sched.values;
    values[place] = value;
    Sched {
        kind: sched.kind,
        values,
    }
}

/// A scheduler with the settings that the options give.
fn kind_given<G: Given>(options: &G, kind: SchedKind) -> Option<Sched>
    ensures { result ≡ kind_given (G.given options.now) kind }
{
    sched_by(options, kind.row())
}

/// A replay with these values of the settings that are tried both ways.
fn plan_of(sched: Sched, fifo: FifoExpire) -> Plan
    ensures { result ≡ plan_of fifo sched }
{
    Plan { sched, fifo }
}

/// The replays under each scheduler: under deadline with one position and with one of each direction, and under earliest as it is and late last.
fn plans_of(
    none: Sched,
    deadline: Sched,
    kyber: Sched,
    earliest: Sched,
    fifo: FifoExpire,
) -> [Plan; PLAN_COUNT]
    ensures { result ≡ plans_of fifo none deadline kyber earliest }
{
    [
        plan_of(none, fifo),
        plan_of(with_value(deadline, 3, 0), fifo),
        plan_of(with_value(deadline, 3, 1), fifo),
        plan_of(kyber, fifo),
        plan_of(with_value(earliest, 0, 0), fifo),
        plan_of(with_value(earliest, 0, 1), fifo),
    ]
}

/// The replays under each scheduler, with the settings that the options give. None where a setting is missing.
pub fn plans_given<G: Given>(options: &G, fifo: FifoExpire) -> Option<[Plan; PLAN_COUNT]>
    ensures { result ≡ plans_given (G.given options.now) fifo }
{
    let none = kind_given(options, SchedKind::None)?;
    let deadline = kind_given(options, SchedKind::Deadline)?;
    let kyber = kind_given(options, SchedKind::Kyber)?;
    let earliest = kind_given(options, SchedKind::Earliest)?;
    Some(plans_of(none, deadline, kyber, earliest, fifo))
}

impl SchedKind {
    /// Whether a scheduler of this kind has FIFO lists, by whose expiries it goes.
    pub fn has_fifo_lists(self) -> bool
        ensures { result ≡ has_fifo_lists self }
    {
        match self {
            SchedKind::Deadline => true,
            SchedKind::None | SchedKind::Kyber | SchedKind::Earliest => false,
        }
    }
}

/// Adds the expiries of this one of reads, with each of these of writes.
fn push_fifos(all: &mut Vec<FifoExpire>, read: u64, writes: &[u64]) -> Result<(), AllocError>
    ensures { OnOk result (all.new.items ≡ all.old.items ++ map (fifo_of read) writes.now) }
{
    for write in writes {
        all.push(FifoExpire {
            read,
            write: *write,
        })?;
    }
    Ok(())
}

/// Each choice of these expiries of reads and of writes, those of writes changing first.
fn fifos_of(alloc: Global, reads: &[u64], writes: &[u64]) -> Result<Vec<FifoExpire>, AllocError>
    ensures { IfOk result (λ all. all.items ≡ fifos_of reads.now writes.now) }
{
    let mut all = Vec::new(alloc);
    for read in reads {
        push_fifos(&mut all, *read, writes)?;
    }
    Ok(all)
}

/// The expiries that are tried under a scheduler of a kind: one without FIFO lists has the first alone.
fn fifos_tried(kind: SchedKind, fifos: &[FifoExpire]) -> &[FifoExpire]
    ensures { result.now ≡ fifos_tried kind fifos.now }
{
    if kind.has_fifo_lists() || fifos.is_empty() {
        fifos
    } else {
        &fifos[..1]
    }
}

/// Adds replays under a scheduler by each of these expiries.
fn push_plans(all: &mut Vec<Plan>, sched: Sched, fifos: &[FifoExpire]) -> Result<(), AllocError>
    ensures { OnOk result (all.new.items ≡ all.old.items ++ map (λ f. plan_of f sched) fifos.now) }
{
    for fifo in fifos {
        all.push(plan_of(sched, *fifo))?;
    }
    Ok(())
}

/// A replay under each of these schedulers, and where it has FIFO lists by each choice of these expiries, those of writes changing first.
pub fn plans_tried(
    alloc: Global,
    scheds: &[Sched],
    reads: &[u64],
    writes: &[u64],
) -> Result<Vec<Plan>, AllocError>
    ensures { IfOk result (λ all. all.items ≡ plans_tried scheds.now reads.now writes.now) }
{
    let fifos = fifos_of(alloc, reads, writes)?;
    let mut all = Vec::new(alloc);
    for sched in scheds {
        push_plans(&mut all, *sched, fifos_tried(sched.kind, fifos.as_slice()))?;
    }
    Ok(all)
}

impl SettingRow {
    /// The option that sets it in a replay, or lists the values of it that are tried: which texts it may have is looked at where it is read.
    fn text_option(&self) -> OptionRow<'static>
        ensures { option_of result ≡ text_option (setting_row_of self.now) }
    {
        let takes = match self.range {
            SettingRange::Switch(_) => OptionValue::Nothing,
            _ => OptionValue::MaybeText,
        };
        OptionRow {
            name: self.option,
            takes,
            help: self.help,
        }
    }

    /// What stands for its option in a replay where that isn't given: its default, or in a grid the values of it that are tried. Each direction has a
    /// position of its own, as in Linux.
    fn text_tried(&self, is_grid: bool) -> Option<&'static str>
        ensures { option_map (λ t. t.now) result ≡ text_tried is_grid (setting_row_of self.now) }
    {
        match self.range {
            SettingRange::Short(default, list) | SettingRange::UpTo(_, default, list) => {
                if is_grid {
                    Some(list.default)
                } else {
                    Some(default)
                }
            }
            SettingRange::Switch(_) => None,
            SettingRange::Positions(_, _) => Some("each"),
        }
    }
}

/// Adds the options of settings in a replay.
fn push_texts(all: &mut Vec<OptionRow<'static>>, settings: &[SettingRow]) -> Result<(), AllocError>
    ensures { OnOk result (map option_of all.new.items ≡ map option_of all.old.items ++ texts_of (map setting_row_of settings.now)) }
{
    for setting in settings {
        all.push(setting.text_option())?;
    }
    Ok(())
}

/// The options that set the schedulers of replays.
pub fn text_options(alloc: Global) -> Result<Vec<OptionRow<'static>>, AllocError>
    ensures { IfOk result (λ all. map option_of all.items ≡ text_options) }
{
    let mut all = Vec::new(alloc);
    for row in rows() {
        push_texts(&mut all, row.settings)?;
    }
    Ok(all)
}

/// The setting that an option sets.
fn setting_in(settings: &'static [SettingRow], option: &str) -> Option<&'static SettingRow>
    ensures { option_map (λ s. setting_row_of s.now) result ≡ setting_in (map setting_row_of settings.now) option.now }
{
    for i in 0..settings.len() {
        if option == settings[i].option {
            return Some(&settings[i]);
        }
    }
    None
}

/// What stands for the option of one of these settings where it isn't given.
fn tried_among(settings: &'static [SettingRow], option: &str, is_grid: bool) -> Option<&'static str>
    ensures { option_map (λ t. t.now) result ≡ tried_among is_grid (map setting_row_of settings.now) option.now }
{
    let setting = setting_in(settings, option)?;
    setting.text_tried(is_grid)
}

/// The schedulers in the order of trials, as [`crate::options::tried_names`] has them.
const ALL_TRIED: &str = "none,earliest,deadline,kyber";

/// What stands for an option of a replay where it isn't given: of the scheduler none, or in a grid each; else the default of its setting, or in a grid
/// the values of it that are tried.
pub fn replay_default(option: &str, is_grid: bool) -> Option<&'static str>
    ensures { option_map (λ t. t.now) result ≡ replay_default is_grid option.now }
{
    if option == SCHED_NAME {
        return Some(if is_grid { ALL_TRIED } else { "none" });
    }
    match tried_among(SchedKind::Deadline.row().settings, option, is_grid) {
        Some(text) => Some(text),
        None => tried_among(SchedKind::Kyber.row().settings, option, is_grid),
    }
}
