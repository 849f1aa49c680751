//! The names of the subcommands' own options, behind two dashes: the rows of [`crate::table`] and whoever reads what an option is given take
//! them from here. They are constants of their own, since no constant can be made of another's field.

/// Whether figures are written as JSON.
pub const JSON: &str = "json";

/// What the rows of a trial are ordered by.
pub const BY: &str = "by";

/// How many of them are written.
pub const TOP: &str = "top";

/// Whether all of them are.
pub const ALL: &str = "all";

/// How many runs go side by side.
pub const THREADS: &str = "threads";

/// Whether a script is read, or written.
pub const SCRIPT: &str = "script";

/// Whether a schedule is read.
pub const SCHEDULE: &str = "schedule";

/// Whether a picture is written.
pub const PICTURE: &str = "picture";

/// Whether a trace is read, or written.
pub const TRACE: &str = "trace";

/// Whether it is said how long a load took.
pub const TIMES: &str = "times";

/// Whether as many commands as can be are to be on time.
pub const MET: &str = "met";

/// How long after it came in a read is due.
pub const READ_EXPIRE: &str = "read-expire";

/// How long after it came in a write is due.
pub const WRITE_EXPIRE: &str = "write-expire";

/// When a request came in.
pub const FROM: &str = "from";

/// Who printed a capture.
pub const AS: &str = "as";

/// Of which device its requests are.
pub const DEVICE: &str = "device";

/// How many requests the device takes at once.
pub const TAGS: &str = "tags";

/// How much of the beginning of a capture is left out.
pub const SKIP: &str = "skip";

/// How many requests of it are taken.
pub const FIRST: &str = "first";

/// Under which scheduler requests are replayed.
pub const SCHED: &str = "sched";

/// How long after it came in a scheduler lets a read go first.
pub const FIFO_READ_EXPIRE: &str = "fifo-read-expire";

/// How long after it came in a scheduler lets a write go first.
pub const FIFO_WRITE_EXPIRE: &str = "fifo-write-expire";

/// Whether they are replayed under each setting of a grid.
pub const GRID: &str = "grid";

/// Whether its requests are written with their times.
pub const TABLE: &str = "table";

/// Whether it is written in numbers.
pub const SUMMARY: &str = "summary";

/// How long a round of its script is.
pub const ROUND: &str = "round";

/// How many commands a round carries: as many as there are tags.
pub const DEPTH: &str = "depth";

/// Whether each late command is judged.
pub const EACH: &str = "each";

/// Whether a certificate is written.
pub const CERTIFICATE: &str = "certificate";

/// How many requests of a direction are to be on time.
pub const TIGHTEST: &str = "tightest";

/// Of which direction.
pub const FOR: &str = "for";

/// How many threads submit.
pub const SUBMITTERS: &str = "submitters";

/// How many threads issue commands and run them.
pub const WORKERS: &str = "workers";

/// How many bios each submitter has.
pub const BIOS: &str = "bios";

/// Which runs of a device find it busy.
pub const BUSY: &str = "busy";

/// How long a device takes for a command.
pub const SERVICE: &str = "service";
