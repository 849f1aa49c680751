//! How much of a long input was read, as a line of a terminal.

ghost use Rattle.std.specs.Io.{ReadsAtMost};
ghost use Rattle.std.specs.Io.KnownBytes.{ReadConsumes};

use std::alloc::Global;
use std::io;
use std::io::{Read, Write};
use std::sync::Wait;
use std::sync::atomic::{AtomicU64, Ordering};
use std::thread::{JoinHandle, Parker, Scope, Threads};
use std::time::{Duration, Instant};
use turns::{Progress, ProgressLine};

/// For so many seconds nothing is shown.
const QUIET_SECONDS: u64 = 2;

/// Nor until more lines than these were read.
const FEW_LINES: u64 = 1_000_000;

/// A carriage return, and the escape sequence that clears the line from there.
const CLEAR: &str = "\r\x1b[K";

/// What the thread that reads and the one that shows share.
#[derive(Drop)]
pub(crate) struct ReadProgress {
    /// Whether somebody looks at the line: else no line is counted.
    is_watched: bool,
    /// How many lines were read.
    lines: AtomicU64,
    /// 1 once nothing is to be shown any more.
    over: AtomicU64,
    /// Ends the wait of the thread that shows.
    bell: Parker,
}

impl ReadProgress {
    /// Nothing read yet.
    pub(crate) fn new(is_watched: bool) -> ReadProgress {
        ReadProgress {
            is_watched,
            lines: AtomicU64::new(0),
            over: AtomicU64::new(0),
            bell: Parker::new(),
        }
    }

    /// Whether somebody looks at the line.
    pub(crate) fn is_watched(&self) -> bool {
        self.is_watched
    }

    /// Counts the lines that end in these bytes.
    fn count(&self, bytes: &[u8]) {
        if self.is_watched {
            let ends = bytes.iter().filter(|byte| **byte == b'\n').count();
            self.lines.fetch_add(ends as u64, Ordering::Relaxed);
        }
    }

    /// Says that nothing is to be shown any more.
    fn end(&self) {
        self.over.store(1, Ordering::SeqCst);
        self.bell.unpark();
    }
}

/// A reader whose lines are counted.
#[derive(Drop)]
pub(crate) struct Counted<'a, R> {
    inner: R,
    sofar: &'a ReadProgress,
}

impl<'a, R: Read> Counted<'a, R> {
    /// This reader, its lines counted there.
    pub(crate) fn new(inner: R, sofar: &'a ReadProgress) -> Counted<'a, R> {
        Counted { inner, sofar }
    }
}

impl<'a, R: Read> Read for Counted<'a, R> {
    ghost remaining = { λ c. R.remaining c.inner };

    fn read(&mut self, buf: &mut [u8]) -> io::Result<usize>
        ensures bound { ReadsAtMost result buf.new }
        ensures bytes { ReadConsumes (R.remaining self.old.inner) (R.remaining self.new.inner) result buf.new }
    {
        match self.inner.read(buf) {
            Ok(count) => {
                self.sofar.count(&buf[..count]);
                Ok(count)
            }
            Err(fault) => Err(fault),
        }
    }
}

/// Shows how many lines were read, each second once it took two and there are many, until nothing is to be shown any more.
fn show<R: Wait>(rt: &R, host: HostRuntime, alloc: Global, sofar: &ReadProgress) {
    let Ok(start) = Instant::now(&host) else {
        return;
    };
    let mut writer = host.stderr();
    let mut is_shown = false;
    for _ in rt.forever() {
        sofar.bell.park_timeout(rt, Duration::from_secs(1));
        if sofar.over.load(Ordering::SeqCst) == 1 {
            break;
        }
        is_shown = show_once(host, alloc, start, sofar, &mut writer) || is_shown;
    }
    if is_shown {
        let _ = writer.write_all(CLEAR.as_bytes());
    }
}

/// Shows it now, and says whether it did.
fn show_once<W: Write>(
    host: HostRuntime,
    alloc: Global,
    start: Instant,
    sofar: &ReadProgress,
    writer: &mut W,
) -> bool {
    let Ok(now) = Instant::now(&host) else {
        return false;
    };
    let seconds = now.duration_since(start).as_secs();
    let lines = sofar.lines.load(Ordering::Relaxed);
    if seconds < QUIET_SECONDS || lines <= FEW_LINES {
        return false;
    }
    let Ok(text) = format!(in alloc; "{CLEAR}{lines} lines read, {seconds} s") else {
        return false;
    };
    writer.write_all(text.as_bytes()).is_ok()
}

/// The lines of a run on a terminal: how much of its input was read, and how many runs of a trial are done.
#[derive(Drop)]
pub(crate) struct Watching<'a, R, W: Write + Drop> {
    rt: &'a R,
    sofar: &'a ReadProgress,
    runs: ProgressLine<HostRuntime, W>,
    /// The thread that shows how much was read, if one does.
    shower: Option<JoinHandle<()>>,
}

impl<'a, R: Threads + Wait + Sync, W: Write + Drop> Watching<'a, R, W> {
    /// Begins to show how much is read, where somebody looks; without a thread nothing is shown of it.
    pub(crate) fn new<E>(
        scope: &'a Scope<'a, E>,
        rt: &'a R,
        host: HostRuntime,
        alloc: Global,
        sofar: &'a ReadProgress,
        runs: ProgressLine<HostRuntime, W>,
    ) -> Watching<'a, R, W> {
        let shower = if sofar.is_watched {
            scope.spawn(move || show(rt, host, alloc, sofar)).ok()
        } else {
            None
        };
        Watching {
            rt,
            sofar,
            runs,
            shower,
        }
    }
}

impl<'a, R: Threads + Wait + Sync, W: Write + Drop> Progress for Watching<'a, R, W> {
    fn done(&mut self, runs: usize, all: usize) {
        self.runs.done(runs, all);
    }

    /// The line of what was read is gone after this, too.
    fn over(&mut self) {
        self.runs.over();
        self.sofar.end();
        if let Some(shower) = self.shower.take() {
            shower.join(self.rt);
        }
    }
}
