//! The arguments of `replay`.

ghost use Rattle.std.specs.Prelude.{ℕ, ◌≡◌, ◌≤◌, All, IfSome, option_map};
ghost use Rattle.blk_args.specs.Asked.{is_flagged, replay_by_named, replay_by_given, replay_text, replay_list, only_one, replay_number, replay_options, times_given, one_fifo, is_given, asks_rows, grid_replays, replays_of, shown_replay, one_replay_of, single_replays, replaying_in, replaying_of, replay_job};
ghost use Rattle.blk_args.specs.Options.{grid_option};
ghost use Rattle.blk_args.specs.Inside.Options.{given};

use crate::lists::{numbers_of, times_of};
use crate::option_names;
use crate::words::{Job, Kept, Refusal, Written, form_asked, import_with, is_flagged, number_of};
use blk_schedulers::given::{MAX_SHORT, Numbers};
use blk_schedulers::plans::{PLAN_COUNT, plans_given, replay_default};
use blk_schedulers::{FifoExpire, Form, Given, ListFault, Plan, ReplayBy, Sched};
use clap::ArgMatches;

/// What is written of one replay.
#[derive(Clone, Copy, Debug, PartialEq, Eq)]
pub enum ShownReplay {
    /// Its schedule.
    Schedule,
    /// A record for each request, with its times.
    Table,
}

/// How requests are replayed, and how that is written.
#[derive(Clone, Copy, Debug, PartialEq, Eq)]
pub struct Replaying {
    /// The replays.
    pub plans: [Plan; PLAN_COUNT],
    /// What their rows are ordered by first.
    pub by: ReplayBy,
    /// How many rows of replays are written at most, the best ones, 1 to [`crate::MAX_TOP`]; without it all are.
    pub top: Option<u64>,
    /// In which form.
    pub form: Form,
}

/// How replays under each setting of a grid are written, which the arguments ask for ([`crate::plans_asked`]).
#[derive(Clone, Copy, Debug, PartialEq, Eq)]
pub struct GridReplaying {
    /// What their rows are ordered by first.
    pub by: ReplayBy,
    /// How many rows are written at most, the best ones, 1 to [`crate::MAX_TOP`]; without it all are.
    pub top: Option<u64>,
    /// How many replays go side by side at most, 1 to [`crate::MAX_THREADS`]; without it, as many as there are processors, 16 at most.
    pub threads: Option<u64>,
    /// In which form.
    pub form: Form,
}

/// What the rows of replays are ordered by, from the text of `--by`.
fn replay_by_named(text: &str) -> Option<ReplayBy>
    ensures { result ≡ replay_by_named text.now }
{
    if text == "late" {
        Some(ReplayBy::Late)
    } else if text == "lateness" {
        Some(ReplayBy::Lateness)
    } else if text == "read_p99" {
        Some(ReplayBy::ReadP99)
    } else {
        None
    }
}

/// The same by the options of `replay`, late requests where none says so.
fn replay_by_given(options: &ArgMatches<'_>) -> Option<ReplayBy>
    ensures { result ≡ replay_by_given (given options.now) }
{
    match options.get_str(option_names::BY) {
        Some(text) => replay_by_named(text),
        None => Some(ReplayBy::Late),
    }
}

/// The options of a replay, or of a grid of them: what isn't given stands at its default, in a grid at the list of values that are tried.
#[derive(Clone, Copy)]
pub(crate) struct ReplayOptions<'a, 'b> {
    /// As clap found them.
    pub(crate) matches: &'a ArgMatches<'b>,
    /// Whether they are of a grid.
    pub(crate) is_grid: bool,
}

/// The text of an option of a replay.
fn replay_text<'a>(options: &'a ArgMatches<'_>, is_grid: bool, option: &str) -> Option<&'a str>
    ensures { option_map (λ t. t.now) result ≡ replay_text is_grid (given options.now) option.now }
{
    match options.get_str(option) {
        Some(text) => Some(text),
        None => replay_default(option, is_grid),
    }
}

/// The list of numbers of an option of a replay.
fn replay_list(options: &ArgMatches<'_>, is_grid: bool, option: &str, most: u64) -> Option<Numbers>
    ensures numbers { option_map (λ n. n.items) result ≡ replay_list is_grid most (given options.now) option.now }
    ensures range { IfSome result (λ n. All (λ x. x ≤ most) n.items) }
{
    match replay_text(options, is_grid, option) {
        Some(text) => numbers_of(text, most),
        None => None,
    }
}

/// The number of a list of one.
fn only_one(numbers: &[u64]) -> Option<u64>
    ensures value { result ≡ only_one numbers.now }
    ensures range { (most : ℕ) → All (λ x. x ≤ most) numbers.now → IfSome result (λ n. n ≤ most) }
{
    match numbers {
        [number] => Some(*number),
        _ => None,
    }
}

/// The number of an option of a replay.
fn replay_number(options: &ArgMatches<'_>, is_grid: bool, option: &str, most: u64) -> Option<u64>
    ensures number { result ≡ replay_number is_grid most (given options.now) option.now }
    ensures range { IfSome result (λ n. n ≤ most) }
{
    match replay_list(options, is_grid, option, most) {
        Some(numbers) => only_one(numbers.as_slice()),
        None => None,
    }
}

impl Given for ReplayOptions<'_, '_> {
    ghost given = { λ o. replay_options o.is_grid (given o.matches.now) };

    fn text(&self, option: &str) -> Option<&str> {
        replay_text(self.matches, self.is_grid, option)
    }

    fn short(&self, option: &str) -> Option<u16> {
        match replay_number(self.matches, self.is_grid, option, MAX_SHORT) {
            Some(number) => Some(number as u16),
            None => None,
        }
    }

    fn number(&self, option: &str) -> Option<u64> {
        replay_number(self.matches, self.is_grid, option, u64::MAX)
    }

    fn list(&self, option: &str, most: u64) -> Option<Numbers> {
        replay_list(self.matches, self.is_grid, option, most)
    }

    fn is_set(&self, option: &str) -> bool {
        is_flagged(self.matches, option)
    }
}

/// Whether an option is given.
pub(crate) fn is_given(options: &ArgMatches<'_>, id: &str) -> bool
    ensures { result ≡ is_given id.now (given options.now) }
{
    match options.get_str(id) {
        Some(_) => true,
        None => false,
    }
}

/// The times that an option lists.
pub(crate) fn times_given(options: &ArgMatches<'_>, id: &str) -> Option<Numbers>
    ensures { option_map (λ n. n.items) result ≡ times_given id.now (given options.now) }
{
    match options.get_str(id) {
        Some(text) => times_of(text),
        None => None,
    }
}

/// The expiries of FIFO lists that there are where each direction has one.
fn one_fifo(reads: &[u64], writes: &[u64]) -> Option<FifoExpire>
    ensures { result ≡ one_fifo reads.now writes.now }
{
    Some(FifoExpire {
        read: only_one(reads)?,
        write: only_one(writes)?,
    })
}

/// The replays of a grid.
fn grid_replays(options: &ArgMatches<'_>, by: ReplayBy) -> Result<Written, Refusal>
    ensures { result ≡ grid_replays (given options.now) by }
{
    if is_flagged(options, option_names::TABLE) {
        return Err(Refusal::GridTable);
    }
    Ok(Written::Kept(Kept::Grid(GridReplaying {
        by,
        top: number_of(options, option_names::TOP),
        threads: number_of(options, option_names::THREADS),
        form: form_asked(options),
    })))
}

/// Whether the options say how rows of replays are written.
fn asks_rows(options: &ArgMatches<'_>) -> bool
    ensures { result ≡ asks_rows (given options.now) }
{
    let by = is_given(options, option_names::BY);
    let top = is_given(options, option_names::TOP);
    let json = is_flagged(options, option_names::JSON);
    by || top || json
}

/// Replays under each scheduler.
fn replays_of(options: &ArgMatches<'_>, fifo: FifoExpire, by: ReplayBy) -> Result<Written, Refusal>
    ensures { result ≡ replays_of (given options.now) fifo by }
{
    if is_flagged(options, option_names::TABLE) {
        return Err(Refusal::TableAlone);
    }
    let single = ReplayOptions {
        matches: options,
        is_grid: false,
    };
    match plans_given(&single, fifo) {
        Some(plans) => Ok(Written::Kept(Kept::Replay(Replaying {
            plans,
            by,
            top: number_of(options, option_names::TOP),
            form: form_asked(options),
        }))),
        None => Err(Refusal::ListAlone),
    }
}

/// What is written of one replay.
fn shown_replay(table: bool) -> ShownReplay
    ensures { result ≡ shown_replay table }
{
    if table {
        ShownReplay::Table
    } else {
        ShownReplay::Schedule
    }
}

/// The replay under the scheduler that is named.
fn one_replay_of(options: &ArgMatches<'_>, fifo: FifoExpire) -> Result<Written, Refusal>
    ensures { result ≡ one_replay_of (given options.now) fifo }
{
    if asks_rows(options) {
        return Err(Refusal::OneReplay);
    }
    let shown = shown_replay(is_flagged(options, option_names::TABLE));
    let single = ReplayOptions {
        matches: options,
        is_grid: false,
    };
    match Sched::given(&single) {
        Some(sched) => Ok(Written::Kept(Kept::Replayed(Plan { sched, fifo }, shown))),
        None => Err(Refusal::ListAlone),
    }
}

/// What is replayed without a grid, and how that is written.
fn single_replays(
    options: &ArgMatches<'_>,
    fifo: Option<FifoExpire>,
    by: ReplayBy,
) -> Result<Written, Refusal>
    ensures { result ≡ single_replays (given options.now) fifo by }
{
    if number_of(options, option_names::THREADS).is_some() {
        return Err(Refusal::NoGridThreads);
    }
    let Some(fifo) = fifo else {
        return Err(Refusal::ListAlone);
    };
    if is_given(options, option_names::SCHED) {
        one_replay_of(options, fifo)
    } else {
        replays_of(options, fifo, by)
    }
}

/// What is replayed by the options of `replay`, and how that is written, where the expiries and the order are such.
fn replaying_in(
    options: &ArgMatches<'_>,
    fifo: Option<FifoExpire>,
    by: ReplayBy,
) -> Result<Written, Refusal>
    ensures { result ≡ replaying_in (given options.now) (is_flagged grid_option.name (given options.now)) fifo by }
{
    let is_grid = is_flagged(options, option_names::GRID);
    let asked = ReplayOptions {
        matches: options,
        is_grid,
    };
    if let Some(fault) = ListFault::first(&asked) {
        return Err(Refusal::Lists(fault));
    }
    if is_grid {
        grid_replays(options, by)
    } else {
        single_replays(options, fifo, by)
    }
}

/// What is replayed by the options of `replay`, and how that is written.
fn replaying_of(options: &ArgMatches<'_>) -> Result<Written, Refusal>
    ensures { result ≡ replaying_of (given options.now) }
{
    let Some(reads) = times_given(options, option_names::FIFO_READ_EXPIRE) else {
        return Err(Refusal::FifoReadExpire);
    };
    let Some(writes) = times_given(options, option_names::FIFO_WRITE_EXPIRE) else {
        return Err(Refusal::FifoWriteExpire);
    };
    let Some(by) = replay_by_given(options) else {
        return Err(Refusal::ReplayBy);
    };
    replaying_in(options, one_fifo(reads.as_slice(), writes.as_slice()), by)
}

/// The replays that the options of `replay` ask for.
pub(crate) fn replay_job(options: &ArgMatches<'_>) -> Job
    ensures { result ≡ replay_job (given options.now) }
{
    import_with(options, replaying_of(options))
}
