//! The command line, as a table: a row for each subcommand, with its options and what these make.

use crate::inputs::TraceOutput;
use crate::option_names;
use blk_schedulers::numbers::{
    MAX_LOAD_BIOS, MAX_LOAD_DEPTH, MAX_LOAD_SERVICE, MAX_LOAD_SUBMITTERS, MAX_LOAD_WORKERS,
};
use blk_schedulers::options::{OptionRow, OptionValue, SCHED};
use edd_commands::{MAX_COMMANDS, MAX_DEPTH};

/// The greatest number of `--busy`.
const MAX_BUSY: u64 = 1_000_000;

/// The greatest number of `--top`: no trial has more rows.
pub const MAX_TOP: u64 = 1_000_000;

/// The greatest number of `--threads`.
pub const MAX_THREADS: u64 = 256;

/// The greatest number of `--tags`.
pub const MAX_TAGS: u64 = 1_000_000;

/// Figures of a trace.
#[derive(Clone, Copy, Debug, PartialEq, Eq)]
pub enum FiguresAsked {
    /// Which of its commands were late, and what the rounds that they waited went to.
    Late,
    /// How many were late, and how many had to be.
    Misses,
    /// How long its commands waited and how late they were, by quantiles.
    Spread,
    /// How far it fell short.
    Report,
}

/// What job the options of a subcommand make.
#[derive(Clone, Copy)]
pub enum JobKind {
    /// A script's run under the scheduler that they name.
    Sim,
    /// These figures of a trace, in the form that is asked for: the flag of JSON is the one option.
    Formed(FiguresAsked),
    /// This of a trace; there are no options.
    Told(TraceOutput),
    /// What is wrong with a text; there are no options.
    Explain,
    /// The comparison of schedulers of their settings.
    Compare,
    /// The trial of the settings of their lists, if these are lists.
    Tune,
    /// The picture of a trace, of a script under schedulers of their settings, or of a schedule.
    Picture,
    /// What `oracle` is asked by its flags.
    Oracle,
    /// The check of a certificate, in the form that is asked for.
    Check,
    /// The import of a capture, if its times are times.
    Import,
    /// What the late requests of a capture are blamed on, if its times are times.
    Blame,
    /// Replays of a capture, if its times are times.
    Replay,
    /// The judgement of a schedule, or of each of its late commands.
    Judge,
    /// A load of their numbers under the scheduler that they name.
    Load,
}

/// A part of a subcommand's options.
#[derive(Clone, Copy)]
pub enum OptionGroup {
    /// An option of its own.
    Own(OptionRow<'static>),
    /// The flags of the schedulers that have one.
    Flags,
    /// The options that set the schedulers.
    Settings,
    /// The options that list which schedulers are tried, and under which settings.
    Lists,
    /// The options that set the schedulers of replays.
    Texts,
}

/// A subcommand.
#[derive(Clone, Copy)]
pub struct CommandRow {
    /// Its name.
    pub name: &'static str,
    /// What help says of it.
    pub about: &'static str,
    /// Its options, in the order in which help shows them.
    pub options: &'static [OptionGroup],
    /// What its options make.
    pub makes: JobKind,
    /// Its place, below [`COMMAND_COUNT`], in the order in which those that take a text are named.
    pub place: usize,
}

/// The option that asks for JSON.
const JSON: OptionRow<'static> = OptionRow {
    name: option_names::JSON,
    takes: OptionValue::Nothing,
    help: "Writes it as JSON",
};

/// The option that says when a read is due.
const READ_EXPIRE: OptionRow<'static> = OptionRow {
    name: option_names::READ_EXPIRE,
    takes: OptionValue::Text("500ms"),
    help: "How long after it came in a read is due: a number with ns, us, ms or s",
};

/// The option that says when a write is due.
const WRITE_EXPIRE: OptionRow<'static> = OptionRow {
    name: option_names::WRITE_EXPIRE,
    takes: OptionValue::Text("5s"),
    help: "How long after it came in a write is due",
};

/// The option that says when a request came in.
const FROM: OptionRow<'static> = OptionRow {
    name: option_names::FROM,
    takes: OptionValue::Text("insert"),
    help: "When a request came in: insert, when it was inserted into the scheduler; queue, when its first bio was queued",
};

/// The option that says who printed a capture.
const AS: OptionRow<'static> = OptionRow {
    name: option_names::AS,
    takes: OptionValue::MaybeText,
    help: "Who printed the capture: capture, blkparse, ftrace, perf or bpftrace; without it, what the first lines tell",
};

/// The option that says of which device requests are taken.
const DEVICE: OptionRow<'static> = OptionRow {
    name: option_names::DEVICE,
    takes: OptionValue::MaybeText,
    help: "Takes only requests of this device, MAJOR,MINOR",
};

/// The option that says how many requests the device takes at once.
const TAGS: OptionRow<'static> = OptionRow {
    name: option_names::TAGS,
    takes: OptionValue::Maybe(1, MAX_TAGS),
    help: "How many requests the device takes at once: more in flight are told; without it, more than 4096",
};

/// The option that says how much of the beginning is left out.
const SKIP: OptionRow<'static> = OptionRow {
    name: option_names::SKIP,
    takes: OptionValue::Text("0s"),
    help: "Leaves out what went out sooner than so long after the first record",
};

/// The option that says how many requests are taken.
const FIRST: OptionRow<'static> = OptionRow {
    name: option_names::FIRST,
    takes: OptionValue::Maybe(1, MAX_COMMANDS),
    help: "Takes only so many requests, those that went out first; without it, all",
};

/// How many subcommands there are over scripts and over traces.
const RUN_COUNT: usize = 9;

/// How many others there are.
const OTHER_COUNT: usize = 8;

/// How many there are.
pub const COMMAND_COUNT: usize = RUN_COUNT + OTHER_COUNT;

/// The subcommands over scripts and over traces.
pub static RUN_COMMANDS: [CommandRow; RUN_COUNT] = [
    CommandRow {
        name: "sim",
        about: "Runs a script and writes its trace",
        options: &[OptionGroup::Own(SCHED), OptionGroup::Settings],
        makes: JobKind::Sim,
        place: 0,
    },
    CommandRow {
        name: "compare",
        about: "Runs a script under each scheduler, and writes how late each was and had to be",
        options: &[
            OptionGroup::Flags,
            OptionGroup::Own(JSON),
            OptionGroup::Settings,
        ],
        makes: JobKind::Compare,
        place: 1,
    },
    CommandRow {
        name: "tune",
        about: "Runs a script under each of many settings, and writes a table of them, the best first",
        options: &[
            OptionGroup::Lists,
            OptionGroup::Own(OptionRow {
                name: option_names::BY,
                takes: OptionValue::Text("misses"),
                help: "What the best has least of: misses, late commands that could have been on time; lateness, how much later than it had to be the latest was",
            }),
            OptionGroup::Own(OptionRow {
                name: option_names::TOP,
                takes: OptionValue::Maybe(1, MAX_TOP),
                help: "Writes only so many rows, the best ones; without it, all",
            }),
            OptionGroup::Own(OptionRow {
                name: option_names::THREADS,
                takes: OptionValue::Maybe(1, MAX_THREADS),
                help: "How many runs go side by side; without it, as many as there are processors, 16 at most",
            }),
            OptionGroup::Own(JSON),
        ],
        makes: JobKind::Tune,
        place: 9,
    },
    CommandRow {
        name: "migrate",
        about: "Writes a trace in the latest version",
        options: &[],
        makes: JobKind::Told(TraceOutput::Whole),
        place: 7,
    },
    CommandRow {
        name: "commands",
        about: "Writes the command list of a trace",
        options: &[],
        makes: JobKind::Told(TraceOutput::Commands),
        place: 6,
    },
    CommandRow {
        name: "late",
        about: "Writes which commands of a trace were late, and what went before them",
        options: &[OptionGroup::Own(JSON)],
        makes: JobKind::Formed(FiguresAsked::Late),
        place: 4,
    },
    CommandRow {
        name: "misses",
        about: "Writes how many commands of a trace were late, and how many had to be",
        options: &[OptionGroup::Own(JSON)],
        makes: JobKind::Formed(FiguresAsked::Misses),
        place: 5,
    },
    CommandRow {
        name: "spread",
        about: "Writes how long the commands of a trace waited and how late they were, by quantiles",
        options: &[OptionGroup::Own(JSON)],
        makes: JobKind::Formed(FiguresAsked::Spread),
        place: 3,
    },
    CommandRow {
        name: "picture",
        about: "Draws a trace as an SVG picture: its commands by round and tag, what waited, and which were late",
        options: &[
            OptionGroup::Own(OptionRow {
                name: option_names::SCRIPT,
                takes: OptionValue::Nothing,
                help: "Reads a script instead, and draws its trace under each scheduler, one below the other",
            }),
            OptionGroup::Own(OptionRow {
                name: option_names::SCHEDULE,
                takes: OptionValue::Nothing,
                help: "Reads a schedule instead, as import and replay write it, and draws its commands from release to round",
            }),
            OptionGroup::Flags,
            OptionGroup::Settings,
        ],
        makes: JobKind::Picture,
        place: 8,
    },
];

/// The others: over command lists and certificates, over captures and schedules, over texts of any form, and over the running layer.
pub static OTHER_COMMANDS: [CommandRow; OTHER_COUNT] = [
    CommandRow {
        name: "oracle",
        about: "Writes a least schedule of a command list, with its certificate",
        options: &[
            OptionGroup::Own(OptionRow {
                name: option_names::TRACE,
                takes: OptionValue::Nothing,
                help: "Reads a trace instead, and writes how late it was and had to be",
            }),
            OptionGroup::Own(OptionRow {
                name: option_names::MET,
                takes: OptionValue::Nothing,
                help: "Writes how many commands can be met, with its certificate",
            }),
            OptionGroup::Own(OptionRow {
                name: option_names::JSON,
                takes: OptionValue::Nothing,
                help: "With --trace, writes it as JSON",
            }),
        ],
        makes: JobKind::Oracle,
        place: 2,
    },
    CommandRow {
        name: "check",
        about: "Checks a certificate",
        options: &[OptionGroup::Own(JSON)],
        makes: JobKind::Check,
        place: 10,
    },
    CommandRow {
        name: "import",
        about: "Reads a capture of a machine's requests, and writes their schedule",
        options: &[
            OptionGroup::Own(READ_EXPIRE),
            OptionGroup::Own(WRITE_EXPIRE),
            OptionGroup::Own(FROM),
            OptionGroup::Own(AS),
            OptionGroup::Own(DEVICE),
            OptionGroup::Own(TAGS),
            OptionGroup::Own(SKIP),
            OptionGroup::Own(FIRST),
            OptionGroup::Own(OptionRow {
                name: option_names::TABLE,
                takes: OptionValue::Nothing,
                help: "Writes a record for each request instead, with its times",
            }),
            OptionGroup::Own(OptionRow {
                name: option_names::SUMMARY,
                takes: OptionValue::Nothing,
                help: "Writes the capture in numbers instead",
            }),
            OptionGroup::Own(OptionRow {
                name: option_names::SCRIPT,
                takes: OptionValue::Nothing,
                help: "Writes the bios that came in as a script instead, to be run by sim and compare; needs --round",
            }),
            OptionGroup::Own(OptionRow {
                name: option_names::ROUND,
                takes: OptionValue::MaybeText,
                help: "How long a round of the script is",
            }),
            OptionGroup::Own(OptionRow {
                name: option_names::DEPTH,
                takes: OptionValue::Maybe(1, MAX_DEPTH),
                help: "How many commands a round of the script carries; without it, 64",
            }),
        ],
        makes: JobKind::Import,
        place: 12,
    },
    CommandRow {
        name: "judge",
        about: "Judges a schedule: how many commands were late, how late the latest was, and what had to be",
        options: &[OptionGroup::Own(OptionRow {
            name: option_names::EACH,
            takes: OptionValue::Nothing,
            help: "Writes each late command instead, and why it was late",
        })],
        makes: JobKind::Judge,
        place: 11,
    },
    CommandRow {
        name: "explain",
        about: "Tells what a text is, or which record breaks which rule, and what was expected there",
        options: &[],
        makes: JobKind::Explain,
        place: 13,
    },
    CommandRow {
        name: "load",
        about: "Runs a load of threads on a layer, and writes how many bios were accepted, served and left",
        options: &[
            OptionGroup::Own(SCHED),
            OptionGroup::Own(OptionRow {
                name: option_names::TRACE,
                takes: OptionValue::Nothing,
                help: "Writes the trace of what the layer did instead",
            }),
            OptionGroup::Own(JSON),
            OptionGroup::Own(OptionRow {
                name: option_names::TIMES,
                takes: OptionValue::Nothing,
                help: "Says on standard error how long serving took, and settling",
            }),
            OptionGroup::Own(OptionRow {
                name: option_names::SUBMITTERS,
                takes: OptionValue::Number(1, MAX_LOAD_SUBMITTERS, "2"),
                help: "How many threads submit",
            }),
            OptionGroup::Own(OptionRow {
                name: option_names::WORKERS,
                takes: OptionValue::Number(1, MAX_LOAD_WORKERS, "2"),
                help: "How many threads issue commands and run them",
            }),
            OptionGroup::Own(OptionRow {
                name: option_names::BIOS,
                takes: OptionValue::Number(1, MAX_LOAD_BIOS, "1000"),
                help: "How many bios each submitter has",
            }),
            OptionGroup::Own(OptionRow {
                name: option_names::DEPTH,
                takes: OptionValue::Number(1, MAX_LOAD_DEPTH, "8"),
                help: "How many tags there are",
            }),
            OptionGroup::Own(OptionRow {
                name: option_names::BUSY,
                takes: OptionValue::Maybe(2, MAX_BUSY),
                help: "Lets each worker's device hand every so many-th command back; without it, none",
            }),
            OptionGroup::Own(OptionRow {
                name: option_names::SERVICE,
                takes: OptionValue::Number(0, MAX_LOAD_SERVICE, "0"),
                help: "How many microseconds each device takes for a command",
            }),
            OptionGroup::Settings,
        ],
        makes: JobKind::Load,
        place: 14,
    },
    CommandRow {
        name: "blame",
        about: "Writes which requests of a capture were late, how many had to be, and what made them late",
        options: &[
            OptionGroup::Own(READ_EXPIRE),
            OptionGroup::Own(WRITE_EXPIRE),
            OptionGroup::Own(FROM),
            OptionGroup::Own(AS),
            OptionGroup::Own(DEVICE),
            OptionGroup::Own(TAGS),
            OptionGroup::Own(SKIP),
            OptionGroup::Own(FIRST),
            OptionGroup::Own(OptionRow {
                name: option_names::EACH,
                takes: OptionValue::Nothing,
                help: "Writes each late request instead, and why it was late",
            }),
            OptionGroup::Own(OptionRow {
                name: option_names::CERTIFICATE,
                takes: OptionValue::Nothing,
                help: "Writes a certificate of how many can be on time instead, for check",
            }),
            OptionGroup::Own(OptionRow {
                name: option_names::TIGHTEST,
                takes: OptionValue::MaybeText,
                help: "Writes instead the least deadline at which so many of 100 can be on time: 99%",
            }),
            OptionGroup::Own(OptionRow {
                name: option_names::FOR,
                takes: OptionValue::MaybeText,
                help: "With --tightest, whose deadline: reads or writes; without it, reads",
            }),
            OptionGroup::Own(OptionRow {
                name: option_names::PICTURE,
                takes: OptionValue::Nothing,
                help: "Draws the requests instead, as an SVG picture: when each waited, which were late and why, stalls and crowded windows",
            }),
            OptionGroup::Own(OptionRow {
                name: option_names::BY,
                takes: OptionValue::MaybeText,
                help: "Puts late requests together by pid, the process that opened them, or cpu, the processor on which it ran; none leaves that table out; without it, pid",
            }),
            OptionGroup::Own(OptionRow {
                name: option_names::TOP,
                takes: OptionValue::Maybe(1, MAX_TOP),
                help: "How many processes or processors, stalls and windows are written at most, the greatest ones; without it, 10",
            }),
            OptionGroup::Own(OptionRow {
                name: option_names::ALL,
                takes: OptionValue::Nothing,
                help: "Writes all of them",
            }),
            OptionGroup::Own(JSON),
        ],
        makes: JobKind::Blame,
        place: 15,
    },
    CommandRow {
        name: "replay",
        about: "Replays a capture's requests under each scheduler, and writes how many were late, would have been and had to be",
        options: &[
            OptionGroup::Own(READ_EXPIRE),
            OptionGroup::Own(WRITE_EXPIRE),
            OptionGroup::Own(FROM),
            OptionGroup::Own(AS),
            OptionGroup::Own(DEVICE),
            OptionGroup::Own(TAGS),
            OptionGroup::Own(SKIP),
            OptionGroup::Own(FIRST),
            OptionGroup::Own(OptionRow {
                name: option_names::FIFO_READ_EXPIRE,
                takes: OptionValue::Text("500ms"),
                help: "How long after it came in a scheduler with FIFO lists lets a read go first; with --grid, times with commas between",
            }),
            OptionGroup::Own(OptionRow {
                name: option_names::FIFO_WRITE_EXPIRE,
                takes: OptionValue::Text("5s"),
                help: "How long after it came in a scheduler with FIFO lists lets a write go first; with --grid, times with commas between",
            }),
            OptionGroup::Own(OptionRow {
                name: option_names::SCHED,
                takes: OptionValue::MaybeText,
                help: "Writes the schedule of the replay under this scheduler instead; with --grid, the schedulers to try: names with commas between",
            }),
            OptionGroup::Own(OptionRow {
                name: option_names::GRID,
                takes: OptionValue::Nothing,
                help: "Replays under each setting of a grid: options of settings take lists, with commas between, and stand at the lists of tune where they aren't given, positions at each",
            }),
            OptionGroup::Own(OptionRow {
                name: option_names::TABLE,
                takes: OptionValue::Nothing,
                help: "With --sched, writes a record for each request instead, with its times",
            }),
            OptionGroup::Own(OptionRow {
                name: option_names::BY,
                takes: OptionValue::MaybeText,
                help: "What the best has least of: late, late requests; lateness, by how much the latest was late; read_p99, the wait that 99 of 100 reads don't pass; without it, late",
            }),
            OptionGroup::Own(OptionRow {
                name: option_names::TOP,
                takes: OptionValue::Maybe(1, MAX_TOP),
                help: "Writes only so many replays, the best ones; without it, all",
            }),
            OptionGroup::Own(OptionRow {
                name: option_names::THREADS,
                takes: OptionValue::Maybe(1, MAX_THREADS),
                help: "With --grid, how many replays go side by side; without it, as many as there are processors, 16 at most",
            }),
            OptionGroup::Own(JSON),
            OptionGroup::Texts,
        ],
        makes: JobKind::Replay,
        place: 16,
    },
];
