//! The lists of a trial: which schedulers are tried, and under which settings.

ghost use Rattle.std.specs.Prelude.{◌≡◌, map, option_map};
ghost use Rattle.blk_schedulers.specs.Row.{setting_row_of, sched_row_of};
ghost use Rattle.blk_schedulers.specs.Lists.{with_name, tried_of, tried_given, numbers_tried, numbers_at, unlisted_in, list_fault};

use crate::given::{Given, MAX_SHORT, Numbers, row_named};
use crate::options::SCHED_NAME;
use crate::positions::positions_listed;
use crate::rows::{SCHED_COUNT, SchedKind, SchedRow, SettingRange, SettingRow, rows};
use thiserror::Error;

/// Which option of a trial has a value that is no list.
#[derive(Clone, Copy, Debug, PartialEq, Eq, Error)]
#[error("{:?}", self)]
pub enum ListFault {
    /// `--sched` is no list of schedulers' names, each once.
    Scheds,
    /// The option of the setting in this place of a scheduler's row is no list of its values, each once: 1 to
    /// [`MAX_LISTED`](crate::given::MAX_LISTED) numbers in its range, or names of positions.
    #[error("Numbers")]
    Numbers(SchedKind, usize),
}

/// What the program says of words that can't be done.
#[derive(Clone, Copy)]
pub enum Complaint {
    /// This text.
    Text(&'static str),
    /// That the option of this name takes 1 to [`MAX_LISTED`](crate::given::MAX_LISTED) numbers, each of 0 to this one.
    Numbers(&'static str, u64),
}

impl SettingRow {
    /// What the program says of a text that is no list of its values.
    fn list_fault(&self) -> Complaint {
        match self.range {
            SettingRange::Short(_, _) => Complaint::Numbers(self.option, MAX_SHORT),
            SettingRange::UpTo(most, _, _) => Complaint::Numbers(self.option, most),
            SettingRange::Switch(_) => Complaint::Text(""),
            SettingRange::Positions(_, _) => Complaint::Text(
                "--positions takes one, each or both with a comma between",
            ),
        }
    }

    /// The values of it that are tried: those that its option lists, or both of a switch, on and off.
    fn tried<G: Given>(&self, options: &G) -> Option<Numbers>
        ensures { option_map (λ n. n.items) result ≡ numbers_tried (G.given options.now) (setting_row_of self.now) }
    {
        match self.range {
            SettingRange::Short(_, _) => options.list(self.option, MAX_SHORT),
            SettingRange::UpTo(most, _, _) => options.list(self.option, most),
            SettingRange::Switch(_) => {
                let mut both = Numbers::new();
                both.push(1);
                both.push(0);
                Some(both)
            }
            SettingRange::Positions(_, _) => positions_listed(options.text(self.option)?),
        }
    }
}

impl ListFault {
    /// What the option takes, as the program says it.
    pub fn text(self) -> Complaint {
        match self {
            ListFault::Scheds => Complaint::Text(
                "--sched takes names of schedulers with commas between, each once",
            ),
            ListFault::Numbers(kind, place) => {
                let settings = kind.row().settings;
                if place < settings.len() {
                    settings[place].list_fault()
                } else {
                    Complaint::Text("")
                }
            }
        }
    }

    /// The first option whose value is no list: `--sched`, and then those of the settings.
    pub fn first<G: Given>(options: &G) -> Option<ListFault>
        ensures { result ≡ list_fault (G.given options.now) }
    {
        if tried_given(options).is_none() {
            return Some(ListFault::Scheds);
        }
        let rows = rows();
        for i in 0..rows.len() {
            if let Some(fault) = unlisted_in(options, &rows[i]) {
                return Some(fault);
            }
        }
        None
    }
}

/// The schedulers of a list, each in its place in the table, by whether it is in the list.
pub(crate) type Tried = [bool; SCHED_COUNT];

/// With the scheduler of this name too. None where there is none of that name, or it is there already.
fn with_name(tried: Tried, name: &str) -> Option<Tried>
    ensures { result ≡ with_name tried name.now }
{
    let place = row_named(name)?.kind.place();
    if tried[place] {
        return None;
    }
    let mut more = tried;
    more[place] = true;
    Some(more)
}

/// The schedulers of a list of names, each once. None where the text is no such list.
fn tried_of(text: &str) -> Option<Tried>
    ensures { result ≡ tried_of text.now }
{
    let mut tried = [false; SCHED_COUNT];
    for name in text.split(',') {
        tried = with_name(tried, name)?;
    }
    Some(tried)
}

/// The schedulers that the options list.
pub(crate) fn tried_given<G: Given>(options: &G) -> Option<Tried>
    ensures { result ≡ tried_given (G.given options.now) }
{
    match options.text(SCHED_NAME) {
        Some(text) => tried_of(text),
        None => None,
    }
}

/// The values that are tried of the setting in this place: 0 alone where there is none, and no value where its option is given none.
pub(crate) fn numbers_at<G: Given>(options: &G, settings: &[SettingRow], place: usize) -> Numbers
    ensures { result.items ≡ numbers_at (G.given options.now) (map setting_row_of settings.now) place }
{
    if place < settings.len() {
        match settings[place].tried(options) {
            Some(numbers) => numbers,
            None => Numbers::new(),
        }
    } else {
        let mut zero = Numbers::new();
        zero.push(0);
        zero
    }
}

/// The first of the settings of a row whose option is given no list.
fn unlisted_in<G: Given>(options: &G, row: &SchedRow) -> Option<ListFault>
    ensures { result ≡ unlisted_in (G.given options.now) (sched_row_of row.now) }
{
    let settings = row.settings;
    for i in 0..settings.len() {
        if settings[i].tried(options).is_none() {
            return Some(ListFault::Numbers(row.kind, i));
        }
    }
    None
}
