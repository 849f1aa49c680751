//! The names of members and columns, and the words of answers: each once, and here alone. Code and meaning of all crates read them here.

ghost use Rattle.answer.specs.Names.{AreDocumentedNames};

/// How many commands there are.
pub const COMMANDS: &str = "commands";
/// How many of them are late; or the late ones.
pub const LATE: &str = "late";
/// How many had to be late.
pub const UNAVOIDABLE: &str = "unavoidable";
/// How many need not have been late.
pub const AVOIDABLE: &str = "avoidable";
/// How many of the late ones could each have been on time beside those that were; also why one was late.
pub const SPARE: &str = "spare";
/// How many bios wait.
pub const WAITING: &str = "waiting";
/// How many of these are overdue.
pub const OVERDUE: &str = "overdue";
/// How many tags there are.
pub const DEPTH: &str = "depth";
/// The greatest lateness, in rounds.
pub const GREATEST: &str = "greatest";
/// The least greatest lateness that a schedule has, in rounds; or the fewest late requests of a process, or of a processor, in any order.
pub const LEAST: &str = "least";
/// By how much the one exceeds the other, in rounds.
pub const SHORTFALL: &str = "shortfall";
/// A window of rounds.
pub const WINDOW: &str = "window";
/// Windows of rounds.
pub const WINDOWS: &str = "windows";
/// How many commands a window has.
pub const LOAD: &str = "load";
/// The first round of a window.
pub const FROM: &str = "from";
/// The last round of a window.
pub const UNTIL: &str = "until";
/// The round in which something is due.
pub const DUE: &str = "due";
/// How many commands the rounds of a window carry.
pub const CARRIES: &str = "carries";
/// The id of a command.
pub const ID: &str = "id";
/// Its direction.
pub const DIR: &str = "dir";
/// Its first sector.
pub const FIRST: &str = "first";
/// How many sectors it has.
pub const SECTORS: &str = "sectors";
/// The round in which it is released.
pub const RELEASE: &str = "release";
/// The round in which it was issued.
pub const ISSUE: &str = "issue";
/// The round in which it runs.
pub const ROUND: &str = "round";
/// By how many rounds something is late.
pub const LATENESS: &str = "lateness";
/// How many places before it went to commands that were due no later.
pub const SOONER: &str = "sooner";
/// How many went to commands that were due later.
pub const LATER: &str = "later";
/// How many went to none.
pub const IDLE: &str = "idle";
/// Why it was late.
pub const VERDICT: &str = "verdict";
/// It was released after it was due.
pub const ARRIVAL: &str = "arrival";
/// Its window is full.
pub const FULL: &str = "full";
/// The name of a scheduler.
pub const SCHED: &str = "sched";
/// Its settings.
pub const SETTINGS: &str = "settings";
/// Schedulers.
pub const SCHEDULERS: &str = "schedulers";
/// Rows.
pub const ROWS: &str = "rows";
/// The best of them.
pub const BEST: &str = "best";
/// What is proved of it.
pub const PROVED: &str = "proved";
/// The 99th percentile of the waits of reads, in rounds.
pub const WAIT_READ: &str = "wait_p99_read";
/// The 99th percentile of the waits of writes, in rounds.
pub const WAIT_WRITE: &str = "wait_p99_write";
/// How many bios were accepted.
pub const ACCEPTED: &str = "accepted";
/// How many were served.
pub const SERVED: &str = "served";
/// How many are left.
pub const LEFT: &str = "left";
/// How many commands are on time.
pub const MET: &str = "met";
/// Of how many.
pub const OF: &str = "of";
/// How many commands windows carry.
pub const CARRY: &str = "carry";
/// How many lie in none of them.
pub const OUTSIDE: &str = "outside";
/// How long commands waited, in rounds.
pub const WAIT: &str = "wait";
/// Reads.
pub const READS: &str = "R";
/// Writes.
pub const WRITES: &str = "W";
/// Both.
pub const ALL: &str = "all";
/// What is told of.
pub const WHAT: &str = "what";
/// How many there are.
pub const COUNT: &str = "count";
/// Half of them are no more.
pub const P50: &str = "p50";
/// Nine of ten are no more.
pub const P90: &str = "p90";
/// 99 of 100 are no more.
pub const P99: &str = "p99";
/// 999 of 1,000 are no more.
pub const P999: &str = "p999";
/// None is more.
pub const MAX: &str = "max";
/// There is none.
pub const NONE: &str = "none";
/// None has commands.
pub const NONE_SERVED: &str = "none-served";
/// How many requests there are.
pub const REQUESTS: &str = "requests";
/// How long it is from the first entry to the last dispatch.
pub const SPAN: &str = "span";
/// In which share of the time at least one request waited.
pub const WAITED: &str = "waited";
/// How many reads were late.
pub const LATE_READS: &str = "late_reads";
/// How many writes were.
pub const LATE_WRITES: &str = "late_writes";
/// How many requests stalled.
pub const STALLED: &str = "stalled";
/// How many requests the crowded windows have more than they carry.
pub const CROWDED: &str = "crowded";
/// How many requests came in after their deadlines.
pub const ARRIVALS: &str = "arrivals";
/// By how much late requests were late.
pub const OVERRUN: &str = "overrun";
/// When the device took nothing.
pub const STALLS: &str = "stalls";
/// How long something is.
pub const LENGTH: &str = "length";
/// How many requests were at the device.
pub const IN_FLIGHT: &str = "in_flight";
/// The number of the first dispatch of a window.
pub const FROM_ID: &str = "from_id";
/// The number of the last.
pub const UNTIL_ID: &str = "until_id";
/// Why a request was late.
pub const CAUSE: &str = "cause";
/// It came in by its deadline, and the device took nothing from then to the deadline.
pub const STALL: &str = "stall";
/// It was due in the round before its release.
pub const GAP: &str = "gap";
/// Processes.
pub const PROCESSES: &str = "processes";
/// Processors.
pub const PROCESSORS: &str = "processors";
/// The process that opened a request.
pub const PID: &str = "pid";
/// The processor on which a request was opened.
pub const CPU: &str = "cpu";
/// The most of the late requests of a process, or of a processor, that can be on time beside all that were.
pub const SAVABLE: &str = "savable";
/// The median wait.
pub const WAIT_P50: &str = "wait_p50";
/// The wait that 99 of 100 don't exceed.
pub const WAIT_P99: &str = "wait_p99";
/// How many requests may be late.
pub const ALLOWED: &str = "allowed";
/// After how long requests are due where as few of the others are late as can be.
pub const BESIDE: &str = "beside";
/// After how long they are whatever becomes of the others.
pub const ALONE: &str = "alone";
/// Stages.
pub const STAGES: &str = "stages";
/// A stage.
pub const STAGE: &str = "stage";
/// How many thousandths of the whole way it is.
pub const SHARE: &str = "share";
/// From the queueing of the first bio until it was opened.
pub const Q2G: &str = "Q2G";
/// Until it was inserted.
pub const G2I: &str = "G2I";
/// Until its last dispatch.
pub const I2D: &str = "I2D";
/// Until it was completed.
pub const D2C: &str = "D2C";
/// All of it.
pub const Q2C: &str = "Q2C";
/// What stands for a scheduler where the machine chose: the order of the capture.
pub const CAPTURED: &str = "captured";
/// After how long a read is due in a FIFO list.
pub const FIFO_READ_EXPIRE: &str = "fifo_read_expire";
/// After how long a write is.
pub const FIFO_WRITE_EXPIRE: &str = "fifo_write_expire";
/// The median wait of reads, in nanoseconds.
pub const READ_P50: &str = "read_p50";
/// The wait that 99 of 100 reads don't exceed.
pub const READ_P99: &str = "read_p99";
/// The longest wait of a read.
pub const READ_MAX: &str = "read_max";
/// The median wait of writes.
pub const WRITE_P50: &str = "write_p50";
/// The wait that 99 of 100 writes don't exceed.
pub const WRITE_P99: &str = "write_p99";
/// The longest wait of a write.
pub const WRITE_MAX: &str = "write_max";
/// How many bios there are, of a request or of a capture.
pub const BIOS: &str = "bios";
/// When the first bio of a request was queued.
pub const QUEUED: &str = "queued";
/// When the request was inserted.
pub const INSERTED: &str = "inserted";
/// When it was dispatched for the last time.
pub const DISPATCHED: &str = "dispatched";
/// When it was completed.
pub const COMPLETED: &str = "completed";
/// How many records a capture has.
pub const RECORDS: &str = "records";
/// How many of them are of a merge.
pub const MERGES: &str = "merges";
/// How many reads went out late, as a summary of a capture spells it.
pub const SUMMARY_LATE_READS: &str = "late-reads";
/// How many writes did.
pub const SUMMARY_LATE_WRITES: &str = "late-writes";
/// The times from queueing to opening.
pub const Q_TO_G: &str = "q-to-g";
/// From insertion to dispatch.
pub const I_TO_D: &str = "i-to-d";
/// From dispatch to completion.
pub const D_TO_C: &str = "d-to-c";
/// The most requests that were in flight, as a summary spells it.
pub const SUMMARY_IN_FLIGHT: &str = "in-flight";
/// How many requests are left out.
pub const LEFT_OUT: &str = "left-out";
/// How many records match nothing known.
pub const UNMATCHED: &str = "unmatched";
/// How many are of a plug's beginning.
pub const PLUGS: &str = "plugs";
/// Of a plug that was flushed.
pub const UNPLUGS: &str = "unplugs";
/// Of an action that says nothing of a request.
pub const ACTIONS: &str = "actions";
/// Of a discard.
pub const DISCARDS: &str = "discards";
/// Of an erase.
pub const ERASES: &str = "erases";
/// Of a flush without data.
pub const FLUSHES: &str = "flushes";
/// Of something else that moves no data.
pub const OTHERS: &str = "others";
/// Without sectors.
pub const EMPTY: &str = "empty";
/// With sectors past the last one.
pub const PAST_END: &str = "past-end";

/// The names are those of the pages.
///
/// A theorem: it does nothing at run time, and a caller has its clause.
pub fn law_of_names()
    ensures { AreDocumentedNames }
{}
