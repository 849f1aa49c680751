//! The arguments of the command line, as a job.

ghost use Rattle.std.specs.Prelude.{ℕ, ◌≡◌, ◌≤◌, not, map, All, IfOk, IfErr, IfSome, Some, None, option_map, option_and_then, string_bytes};
ghost use Rattle.std.specs.Option.{option_or};
ghost use Rattle.clap.specs.Facts.{explicit_source};
ghost use Rattle.clap.specs.Words.{subcommand_rows_of};
ghost use Rattle.blk_args.specs.CommandLine.{command_table, program_version};
ghost use Rattle.blk_args.specs.Inside.Tables.{subcommand_of, makes_among};
ghost use Rattle.blk_args.specs.Asked.{Asks, IsNoJob, list_given, by_named, by_given, tune_job, short_given, number_given, is_flagged, source_of, is_other_given, given_options, sched_asked, lineup_asked, compared, picture_given, amounts_of, shown_of, loaded, load_given, form_by, form_asked, time_given, entry_named, from_given, source_given, round_by, round_given, script_asked, unscripted, written_of, takes_all, import_of, import_job, oracle_given, job_made, job_of, import_with};
ghost use Rattle.blk_args.specs.Options.{script_option, times_option};
ghost use Rattle.blk_args.specs.Inside.Options.{given};

use crate::blaming::{Blaming, blame_job};
use crate::command::{Names, blk_command, other_commands, run_commands};
use crate::inputs::{Running, ShownLoad, Solving, TextJob, TraceOutput};
use crate::lists::numbers_of;
use crate::option_names;
use crate::replaying::{GridReplaying, Replaying, ShownReplay, replay_job};
use crate::source::source_given;
use crate::table::{CommandRow, FiguresAsked, JobKind};
use crate::times::time_of;
use blk_recorders::{CaptureForm, Device};
use blk_schedulers::given::{MAX_SHORT, Numbers};
use blk_schedulers::options::{position_names, scheduler_names, tried_names};
use blk_schedulers::{
    ComparedScheds, Complaint, Form, Given, ListFault, Load, Plan, RankBy, Sched,
};
use clap::ArgMatches;
use clap::error::ErrorKind;
use clap::parser::ValueSource;
use std::alloc::Global;
use thiserror::Error;

/// The version of the program.
pub fn version() -> &'static str
    ensures { result.now ≡ program_version }
{
    "1.0.0"
}

/// What the program is asked to do: a row for each kind of job.
#[derive(Clone, Copy, Debug, PartialEq, Eq)]
pub enum Job {
    /// Write the program's name and version.
    Version,
    /// Write what is asked of a text.
    OfText(TextJob),
    /// Run a script under each setting of the grid that the arguments ask for ([`crate::grid_asked`]), and write the table of how well each did.
    Tune(Tuning),
    /// Import a capture.
    Import(Import),
    /// Refuse the arguments, which are taken and can't be done.
    Refuse(Refusal),
    /// Tell what a text is, or what is wrong with it.
    Explain,
    /// Run a load on a layer under a scheduler, write what is asked of it, and say how long it took where that is asked.
    Load(Sched, Load, ShownLoad, bool),
}

/// How a trial of settings is written.
#[derive(Clone, Copy, Debug, PartialEq, Eq)]
pub struct Tuning {
    /// What its rows are ordered by first.
    pub by: RankBy,
    /// How many rows are written at most, the best ones, 1 to [`crate::MAX_TOP`]; without it all are.
    pub top: Option<u64>,
    /// How many runs go side by side at most, 1 to [`crate::MAX_THREADS`]; without it, as many as there are processors, 16 at most.
    pub threads: Option<u64>,
    /// In which form.
    pub form: Form,
}

/// Where a capture comes from.
#[derive(Clone, Copy, Debug, PartialEq, Eq)]
pub struct CaptureSource {
    /// Who printed it; without it, what its first lines tell.
    pub form: Option<CaptureForm>,
    /// Of which device its requests are taken; without it, of the only one that it names.
    pub device: Option<Device>,
    /// How many requests the device takes at once, 1 to [`crate::MAX_TAGS`], if it is known.
    pub tags: Option<u64>,
}

/// How a capture is imported. Times are in nanoseconds.
#[derive(Clone, Copy, Debug, PartialEq, Eq)]
pub struct Import {
    /// How long after it came in a read is due.
    pub read_expire: u64,
    /// How long after it came in a write is due.
    pub write_expire: u64,
    /// Whether a request came in when its first bio was queued, in place of when it was inserted.
    pub from_queue: bool,
    /// Where it comes from.
    pub source: CaptureSource,
    /// Requests that went out sooner than this after the first record are left out.
    pub skip: u64,
    /// How many of the others are taken, those that went out first; without it all are.
    pub first: Option<u64>,
    /// What is written of it.
    pub written: Written,
}

/// What is written of an import.
#[derive(Clone, Copy, Debug, PartialEq, Eq)]
pub enum Written {
    /// The capture in numbers, of whose records none is kept.
    Summary,
    /// What takes all records.
    Kept(Kept),
}

/// What is written of a capture whose records are kept.
#[derive(Clone, Copy, Debug, PartialEq, Eq)]
pub enum Kept {
    /// The schedule of its requests.
    Schedule,
    /// A record for each request, with its times.
    Table,
    /// Its arrivals as a script.
    Script {
        /// The length of a round, in nanoseconds.
        round: u64,
        /// How many commands a round carries, 1 to [`edd_commands::MAX_DEPTH`]; without it, the depth of the arrivals' own.
        depth: Option<u64>,
    },
    /// What its late requests are blamed on.
    Blame(Blaming),
    /// What comes of replays of its requests.
    Replay(Replaying),
    /// What comes of replays under each setting of the grid that the arguments ask for ([`crate::plans_asked`]).
    Grid(GridReplaying),
    /// A replay of its requests.
    Replayed(Plan, ShownReplay),
}

/// Why arguments that clap accepts are refused, in the order of the checks: a bad value of an option, or flags that exclude one another.
#[derive(Clone, Copy, Debug, PartialEq, Eq, Error)]
#[error("{:?}", self)]
pub enum Refusal {
    /// `--read-expire` is no time.
    ReadExpire,
    /// `--write-expire` is no time.
    WriteExpire,
    /// `--from` is neither `insert` nor `queue`.
    From,
    /// `--as` names none who prints captures.
    As,
    /// `--device` isn't two numbers with a comma between.
    Device,
    /// `--skip` is no time.
    Skip,
    /// `--round` is no time.
    Round,
    /// A table and a summary are asked for.
    TableAndSummary,
    /// A script is asked for, and a table or a summary.
    ScriptAlone,
    /// A script is asked for, and no round.
    NoRound,
    /// A round or a depth is given, and no script asked for.
    NoScript,
    /// A script is asked for, and that requests be left out or come in when they were queued.
    OfRequests,
    /// `oracle` is asked for JSON, and not for the report of a trace.
    JsonAlone,
    /// `load` is asked for its trace, and for JSON.
    TraceAndJson,
    /// `picture` is given an option of schedulers, and asked for no script.
    NoScriptDrawn,
    /// `picture` is asked for a script, and for a schedule.
    ScriptAndSchedule,
    /// An option of `tune` is given no list.
    #[error(transparent)]
    Lists(ListFault),
    /// `--by` of a trial is neither `misses` nor `lateness`.
    By,
    /// All are asked for, and only so many.
    AllAndTop,
    /// More than one of what `blame` can write in place of the whole is asked for.
    OneBlame,
    /// A certificate is asked for, and JSON.
    CertificateJson,
    /// `--tightest` is no share.
    Tightest,
    /// `--for` is neither `reads` nor `writes`.
    For,
    /// A direction is given, and no tightest deadline asked for.
    NoTightest,
    /// `--by` of a blame is neither `pid` nor `cpu` nor `none`.
    BlameBy,
    /// `blame` is asked for a picture, and for lines.
    PictureAlone,
    /// `--fifo-read-expire` is no list of times.
    FifoReadExpire,
    /// `--fifo-write-expire` is no list of times.
    FifoWriteExpire,
    /// `--by` of replays is neither `late` nor `lateness` nor `read_p99`.
    ReplayBy,
    /// A setting of replays, an expiry or the scheduler, is given several values, and no grid asked for.
    ListAlone,
    /// Replays are asked for a table, and under no scheduler.
    TableAlone,
    /// Replays of a grid are asked for, and a table.
    GridTable,
    /// A number of threads is given, and no grid asked for.
    NoGridThreads,
    /// One replay is asked for, and how rows are written.
    OneReplay,
}

impl Refusal {
    /// What the program says of it; the cases say in which words.
    pub fn text(self) -> Complaint {
        let text = match self {
            Refusal::ReadExpire => "--read-expire takes a number with ns, us, ms or s",
            Refusal::WriteExpire => "--write-expire takes a number with ns, us, ms or s",
            Refusal::From => "--from takes insert or queue",
            Refusal::As => "--as takes capture, blkparse, ftrace, perf or bpftrace",
            Refusal::Device => "--device takes two numbers with a comma, as lsblk shows them: 8,0",
            Refusal::Skip => "--skip takes a number with ns, us, ms or s",
            Refusal::Round => "--round takes a number with ns, us, ms or s",
            Refusal::TableAndSummary => "--table and --summary exclude one another",
            Refusal::ScriptAlone => "--script excludes --table and --summary",
            Refusal::NoRound => "--script needs --round",
            Refusal::NoScript => "--round and --depth need --script",
            Refusal::OfRequests => "--script takes no --from, --skip or --first",
            Refusal::JsonAlone => "--json needs --trace",
            Refusal::TraceAndJson => "--trace and --json exclude one another",
            Refusal::NoScriptDrawn => "options of schedulers need --script",
            Refusal::ScriptAndSchedule => "--script and --schedule exclude one another",
            Refusal::Lists(fault) => return fault.text(),
            Refusal::By => "--by takes misses or lateness",
            Refusal::AllAndTop => "--all and --top exclude one another",
            Refusal::OneBlame => "--each, --certificate and --tightest exclude one another",
            Refusal::CertificateJson => "--certificate takes no --json",
            Refusal::Tightest => "--tightest takes a share: 99%",
            Refusal::For => "--for takes reads or writes",
            Refusal::NoTightest => "--for needs --tightest",
            Refusal::BlameBy => "--by takes pid, cpu or none",
            Refusal::PictureAlone => {
                "--picture takes no --each, --certificate, --tightest, --for, --by, --top, --all or --json"
            }
            Refusal::FifoReadExpire => {
                "--fifo-read-expire takes a number with ns, us, ms or s; with --grid up to 64, with commas between, each once"
            }
            Refusal::FifoWriteExpire => {
                "--fifo-write-expire takes a number with ns, us, ms or s; with --grid up to 64, with commas between, each once"
            }
            Refusal::ReplayBy => "--by takes late, lateness or read_p99",
            Refusal::ListAlone => {
                "a replay takes one value of each setting, and --grid takes lists"
            }
            Refusal::TableAlone => "--table needs --sched",
            Refusal::GridTable => "--grid and --table exclude one another",
            Refusal::NoGridThreads => "--threads needs --grid",
            Refusal::OneReplay => "--sched takes no --by, --top or --json",
        };
        Complaint::Text(text)
    }
}

/// Why there is no job.
#[derive(Drop)]
pub enum NoJob {
    /// Memory ran out.
    Memory,
    /// The arguments are no command line of the program, or ask for its help: what clap says of them.
    Usage(String),
    /// They are taken and name no job: flags exclude one another, those of `oracle --trace --met`.
    Nothing,
}

/// The number of 16 bits that an option is given.
fn short_of(options: &ArgMatches<'_>, id: &str) -> Option<u16>
    ensures { result ≡ short_given id.now (given options.now) }
{
    options.get_one::<u16>(id)
}

/// The number that an option is given.
pub(crate) fn number_of(options: &ArgMatches<'_>, id: &str) -> Option<u64>
    ensures { result ≡ number_given id.now (given options.now) }
{
    options.get_one::<u64>(id)
}

/// Whether a flag is given.
pub(crate) fn is_flagged(options: &ArgMatches<'_>, id: &str) -> bool
    ensures { result ≡ is_flagged id.now (given options.now) }
{
    match options.get_str(id) {
        Some(text) => text == "true",
        None => false,
    }
}

/// The options of a subcommand.
#[derive(Clone, Copy)]
pub(crate) struct MatchedOptions<'a, 'b> {
    /// As clap found them.
    pub(crate) matches: &'a ArgMatches<'b>,
}

impl Given for MatchedOptions<'_, '_> {
    ghost given = { λ o. given_options (given o.matches.now) };

    fn text(&self, option: &str) -> Option<&str> {
        self.matches.get_str(option)
    }

    fn short(&self, option: &str) -> Option<u16> {
        short_of(self.matches, option)
    }

    fn number(&self, option: &str) -> Option<u64> {
        number_of(self.matches, option)
    }

    fn list(&self, option: &str, most: u64) -> Option<Numbers> {
        list_given(self.matches, option, most)
    }

    fn is_set(&self, option: &str) -> bool {
        is_flagged(self.matches, option)
    }
}

/// The time that an option is given, in nanoseconds.
pub(crate) fn time_given(options: &ArgMatches<'_>, id: &str) -> Option<u64>
    ensures { result ≡ time_given id.now (given options.now) }
{
    match options.get_str(id) {
        Some(text) => time_of(text),
        None => None,
    }
}

/// The form that is asked for by whether the flag of JSON is given.
fn form_by(json: bool) -> Form
    ensures { result ≡ form_by json }
{
    if json { Form::Json } else { Form::Lines }
}

/// The same by the options.
pub(crate) fn form_asked(options: &ArgMatches<'_>) -> Form
    ensures { result ≡ form_asked (given options.now) }
{
    form_by(is_flagged(options, option_names::JSON))
}

/// The comparison of the schedulers that run a script in turn, in the form that is asked for.
fn compare_of(options: &ArgMatches<'_>) -> Option<Job>
    ensures { result ≡ compared (form_asked (given options.now)) (lineup_asked (given options.now)) }
{
    let form = form_asked(options);
    let lineup = ComparedScheds::given(&MatchedOptions { matches: options })?;
    Some(Job::OfText(TextJob::OfScript(Running::Each(lineup, form))))
}

/// Whether what an option is given is none of the words, but its default.
fn is_default(options: &ArgMatches<'_>, id: &str) -> bool
    ensures { result ≡ not (explicit_source (source_of id.now (given options.now))) }
{
    match options.value_source(id) {
        Some(ValueSource::DefaultValue) => true,
        Some(ValueSource::CommandLine) => false,
        None => false,
    }
}

/// Whether the arguments give another option than this one: a default doesn't count.
fn is_other_given(options: &ArgMatches<'_>, but: &str) -> bool
    ensures { result ≡ is_other_given but.now (given options.now) }
{
    for id in options.ids() {
        if id != but && !is_default(options, id) {
            return true;
        }
    }
    false
}

/// The picture of a trace or, with the flag `--schedule`, of a schedule, without options; with `--script` those of a script under schedulers in turn.
fn picture_of(options: &ArgMatches<'_>) -> Option<Job>
    ensures { result ≡ picture_given (given options.now) }
{
    let scheduled = is_flagged(options, option_names::SCHEDULE);
    if is_flagged(options, option_names::SCRIPT) {
        if scheduled {
            return Some(Job::Refuse(Refusal::ScriptAndSchedule));
        }
        let lineup = ComparedScheds::given(&MatchedOptions { matches: options })?;
        Some(Job::OfText(TextJob::OfScript(Running::Drawn(lineup))))
    } else if is_other_given(options, option_names::SCHEDULE) {
        Some(Job::Refuse(Refusal::NoScriptDrawn))
    } else if scheduled {
        Some(Job::OfText(TextJob::Draw))
    } else {
        Some(Job::OfText(TextJob::OfTrace(TraceOutput::Picture)))
    }
}

/// How much load the options of `load` say there is.
fn amounts_of(options: &ArgMatches<'_>) -> Option<Load>
    ensures { result ≡ amounts_of (given options.now) }
{
    let submitters = number_of(options, option_names::SUBMITTERS)?;
    let workers = number_of(options, option_names::WORKERS)?;
    let bios = number_of(options, option_names::BIOS)?;
    let depth = number_of(options, option_names::DEPTH)?;
    let service = number_of(options, option_names::SERVICE)?;
    let busy = number_of(options, option_names::BUSY);
    Some(Load {
        submitters,
        workers,
        bios,
        depth,
        busy,
        service,
    })
}

/// What the flags of `load` ask to write.
fn shown_of(trace: bool, json: bool) -> ShownLoad
    ensures { result ≡ shown_of trace json }
{
    if trace {
        ShownLoad::Trace
    } else {
        ShownLoad::Account(form_by(json))
    }
}

/// The load that the options of `load` ask for, and what is to be written of it.
fn load_of(options: &ArgMatches<'_>, shown: ShownLoad) -> Option<Job>
    ensures { result ≡ loaded (is_flagged times_option.name (given options.now)) shown (sched_asked (given options.now)) (amounts_of (given options.now)) }
{
    let sched = Sched::given(&MatchedOptions { matches: options })?;
    let times = is_flagged(options, option_names::TIMES);
    Some(Job::Load(sched, amounts_of(options)?, shown, times))
}

/// The job of `load`, whose trace is no JSON.
fn load_job(options: &ArgMatches<'_>) -> Option<Job>
    ensures { result ≡ load_given (given options.now) }
{
    let trace = is_flagged(options, option_names::TRACE);
    let json = is_flagged(options, option_names::JSON);
    if trace && json {
        Some(Job::Refuse(Refusal::TraceAndJson))
    } else {
        load_of(options, shown_of(trace, json))
    }
}

/// Whether a request came in when its first bio was queued, by the text of `--from`.
fn entry_named(text: &str) -> Option<bool>
    ensures { result ≡ entry_named text.now }
{
    if text == "insert" {
        Some(false)
    } else if text == "queue" {
        Some(true)
    } else {
        None
    }
}

/// The same by the options of `import`.
fn from_given(options: &ArgMatches<'_>) -> Option<bool>
    ensures { result ≡ from_given (given options.now) }
{
    match options.get_str(option_names::FROM) {
        Some(text) => entry_named(text),
        None => None,
    }
}

/// The length of a round by the text of `--round`.
fn round_by(text: &str) -> Result<Option<u64>, Refusal>
    ensures { result ≡ round_by text.now }
{
    match time_of(text) {
        Some(round) => Ok(Some(round)),
        None => Err(Refusal::Round),
    }
}

/// The same by the options of `import`, where it is given.
fn round_given(options: &ArgMatches<'_>) -> Result<Option<u64>, Refusal>
    ensures { result ≡ round_given (given options.now) }
{
    match options.get_str(option_names::ROUND) {
        Some(text) => round_by(text),
        None => Ok(None),
    }
}

/// A script of these, which needs a round.
fn script_asked(round: Option<u64>, depth: Option<u64>) -> Result<Written, Refusal>
    ensures { result ≡ script_asked round depth }
{
    match round {
        Some(round) => Ok(Written::Kept(Kept::Script { round, depth })),
        None => Err(Refusal::NoRound),
    }
}

/// Something else, which has neither a round nor a depth.
fn unscripted(written: Written, round: Option<u64>, depth: Option<u64>) -> Result<Written, Refusal>
    ensures { result ≡ unscripted written round depth }
{
    match round {
        Some(_) => Err(Refusal::NoScript),
        None => match depth {
            Some(_) => Err(Refusal::NoScript),
            None => Ok(written),
        },
    }
}

/// What is written of an import by its flags, no two of which may stand together, and by the round and the depth of a script.
fn written_of(options: &ArgMatches<'_>) -> Result<Written, Refusal>
    ensures { result ≡ written_of (given options.now) }
{
    let round = match round_given(options) {
        Ok(round) => round,
        Err(refusal) => return Err(refusal),
    };
    let depth = number_of(options, option_names::DEPTH);
    let table = is_flagged(options, option_names::TABLE);
    let summary = is_flagged(options, option_names::SUMMARY);
    if is_flagged(options, option_names::SCRIPT) {
        if table && summary {
            Err(Refusal::TableAndSummary)
        } else if table || summary {
            Err(Refusal::ScriptAlone)
        } else {
            script_asked(round, depth)
        }
    } else if table && summary {
        Err(Refusal::TableAndSummary)
    } else if table {
        unscripted(Written::Kept(Kept::Table), round, depth)
    } else if summary {
        unscripted(Written::Summary, round, depth)
    } else {
        unscripted(Written::Kept(Kept::Schedule), round, depth)
    }
}

/// Whether all requests are taken, as they were inserted, so that nothing is asked for that has no bearing on a script.
fn takes_all(wanted: &Import) -> bool
    ensures { result ≡ takes_all wanted.now }
{
    match wanted.first {
        Some(_) => false,
        None => !wanted.from_queue && wanted.skip == 0,
    }
}

/// The import, if what is written of it may be had so.
fn import_of(wanted: Import) -> Job
    ensures { result ≡ import_of wanted }
{
    match wanted.written {
        Written::Kept(Kept::Script { .. }) => {
            if takes_all(&wanted) {
                Job::Import(wanted)
            } else {
                Job::Refuse(Refusal::OfRequests)
            }
        }
        _ => Job::Import(wanted),
    }
}

/// The import of what the options of a capture take, with this written of it, or the refusal of the first of them that can't be done.
pub(crate) fn import_with(options: &ArgMatches<'_>, written: Result<Written, Refusal>) -> Job
    ensures { result ≡ import_with written (given options.now) }
{
    let Some(read_expire) = time_given(options, option_names::READ_EXPIRE) else {
        return Job::Refuse(Refusal::ReadExpire);
    };
    let Some(write_expire) = time_given(options, option_names::WRITE_EXPIRE) else {
        return Job::Refuse(Refusal::WriteExpire);
    };
    let Some(from_queue) = from_given(options) else {
        return Job::Refuse(Refusal::From);
    };
    let source = match source_given(options) {
        Ok(source) => source,
        Err(refusal) => return Job::Refuse(refusal),
    };
    let Some(skip) = time_given(options, option_names::SKIP) else {
        return Job::Refuse(Refusal::Skip);
    };
    let first = number_of(options, option_names::FIRST);
    let written = match written {
        Ok(written) => written,
        Err(refusal) => return Job::Refuse(refusal),
    };
    import_of(Import {
        read_expire,
        write_expire,
        from_queue,
        source,
        skip,
        first,
        written,
    })
}

/// The import that the options of `import` ask for.
fn import_job(options: &ArgMatches<'_>) -> Job
    ensures { result ≡ import_job (given options.now) }
{
    import_with(options, written_of(options))
}

/// The numbers up to the most of the list that an option is given.
fn list_given(options: &ArgMatches<'_>, id: &str, most: u64) -> Option<Numbers>
    ensures numbers { option_map (λ n. n.items) result ≡ list_given most id.now (given options.now) }
    ensures range { IfSome result (λ n. All (λ x. x ≤ most) n.items) }
{
    match options.get_str(id) {
        Some(text) => numbers_of(text, most),
        None => None,
    }
}

/// What rows are ordered by, from the text of `--by`.
fn by_named(text: &str) -> Option<RankBy>
    ensures { result ≡ by_named text.now }
{
    if text == "misses" {
        Some(RankBy::Misses)
    } else if text == "lateness" {
        Some(RankBy::Lateness)
    } else {
        None
    }
}

/// The same by the options of `tune`.
fn by_given(options: &ArgMatches<'_>) -> Option<RankBy>
    ensures { result ≡ by_given (given options.now) }
{
    match options.get_str(option_names::BY) {
        Some(text) => by_named(text),
        None => None,
    }
}

/// The trial that the options of `tune` ask for, or the refusal of the first of them that can't be done.
fn tune_job(options: &ArgMatches<'_>) -> Job
    ensures { result ≡ tune_job (given options.now) }
{
    if let Some(fault) = ListFault::first(&MatchedOptions { matches: options }) {
        return Job::Refuse(Refusal::Lists(fault));
    }
    let Some(by) = by_given(options) else {
        return Job::Refuse(Refusal::By);
    };
    Job::Tune(Tuning {
        by,
        top: number_of(options, option_names::TOP),
        threads: number_of(options, option_names::THREADS),
        form: form_asked(options),
    })
}

/// The job of `oracle` by its flags, two of which may not stand together; certificates are no JSON.
fn oracle_job(options: &ArgMatches<'_>) -> Option<Job>
    ensures { result ≡ oracle_given (given options.now) }
{
    let trace = is_flagged(options, option_names::TRACE);
    let met = is_flagged(options, option_names::MET);
    let json = is_flagged(options, option_names::JSON);
    if trace && met {
        None
    } else if trace {
        Some(Job::OfText(TextJob::OfTrace(TraceOutput::Figures(
            FiguresAsked::Report,
            form_by(json),
        ))))
    } else if json {
        Some(Job::Refuse(Refusal::JsonAlone))
    } else if met {
        Some(Job::OfText(TextJob::OfList(Solving::Most)))
    } else {
        Some(Job::OfText(TextJob::OfList(Solving::Least)))
    }
}

/// The job that a subcommand makes of its options.
fn job_made(makes: JobKind, options: &ArgMatches<'_>) -> Option<Job>
    ensures { result ≡ job_made makes (given options.now) }
{
    match makes {
        JobKind::Told(telling) => Some(Job::OfText(TextJob::OfTrace(telling))),
        JobKind::Explain => Some(Job::Explain),
        JobKind::Formed(figures) => {
            let form = form_asked(options);
            Some(Job::OfText(TextJob::OfTrace(TraceOutput::Figures(figures, form))))
        }
        JobKind::Sim => {
            let sched = Sched::given(&MatchedOptions { matches: options })?;
            Some(Job::OfText(TextJob::OfScript(Running::One(sched))))
        }
        JobKind::Compare => compare_of(options),
        JobKind::Tune => Some(tune_job(options)),
        JobKind::Picture => picture_of(options),
        JobKind::Check => Some(Job::OfText(TextJob::Check(form_asked(options)))),
        JobKind::Oracle => oracle_job(options),
        JobKind::Import => Some(import_job(options)),
        JobKind::Blame => Some(blame_job(options)),
        JobKind::Replay => Some(replay_job(options)),
        JobKind::Judge => Some(Job::OfText(TextJob::Judge {
            each: is_flagged(options, option_names::EACH),
        })),
        JobKind::Load => load_job(options),
    }
}

/// What the subcommand of this name makes of its options.
fn makes_of(name: &str, rows: &[CommandRow]) -> Option<JobKind>
    ensures { result ≡ makes_among name.now (map subcommand_of rows.now) }
{
    for row in rows {
        if name == row.name {
            return Some(row.makes);
        }
    }
    None
}

/// The first of these that there is.
fn first_of(first: Option<JobKind>, second: Option<JobKind>) -> Option<JobKind>
    ensures { result ≡ option_or first second }
{
    first.or(second)
}

/// The same of all subcommands.
fn makes_named(name: &str) -> Option<JobKind>
    ensures { result ≡ makes_among name.now command_table }
{
    let first = makes_of(name, run_commands());
    let second = makes_of(name, other_commands());
    first_of(first, second)
}

/// The job of the subcommand that was read.
fn job_of(matches: &ArgMatches<'_>) -> Option<Job>
    ensures { result ≡ option_and_then job_of (subcommand_rows_of matches.now) }
{
    let (name, options) = matches.subcommand()?;
    let makes = makes_named(name)?;
    job_made(makes, options)
}

/// What the arguments ask for; the first of them is the program's name.
pub fn choose(alloc: Global, words: &[String]) -> Result<Job, NoJob>
    ensures asked { IfOk result (Asks (map string_bytes words.now)) }
    ensures refused { IfErr result (IsNoJob (map string_bytes words.now)) }
{
    let Ok(scheds) = scheduler_names(alloc) else {
        return Err(NoJob::Memory);
    };
    let Ok(positions) = position_names(alloc) else {
        return Err(NoJob::Memory);
    };
    let Ok(tried) = tried_names(alloc) else {
        return Err(NoJob::Memory);
    };
    let names = Names {
        scheds: scheds.as_slice(),
        positions: positions.as_slice(),
    };
    let Ok(command) = blk_command(alloc, names, tried.as_str()) else {
        return Err(NoJob::Memory);
    };
    match command.try_get_matches_from(words) {
        Ok(matches) => match job_of(&matches) {
            Some(job) => Ok(job),
            None => Err(NoJob::Nothing),
        },
        Err(error) => match error.kind() {
            ErrorKind::OutOfMemory => Err(NoJob::Memory),
            ErrorKind::DisplayVersion => Ok(Job::Version),
            _ => match format!(in alloc; "{error}") {
                Ok(text) => Err(NoJob::Usage(text)),
                Err(_) => Err(NoJob::Memory),
            },
        },
    }
}
