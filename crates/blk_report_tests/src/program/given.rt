//! What the tests are given: runs of the program over readers and writers that fail.

use blk_cli::run;
use blk_records::Records;
use blk_schedulers::{Load, Loaded, Loads, Sched, Unsettled};
use edd_commands::{Beside, Told};
use std::alloc::Global;
use std::io;
use std::io::{ErrorKind, Read, Write};
use std::process::Abort;
use std::sync::Wait;
use std::sync::atomic::{AtomicU64, Ordering};
use std::thread::Threads;
use text_output::Output;
use turns::Quiet;

/// A reader that gives its text byte by byte, and fails in this way after this number of reads.
#[derive(Drop)]
pub struct Failing<'a> {
    /// What it has left to give.
    pub text: &'a [u8],
    /// How many reads go well.
    pub reads_left: u64,
    /// How the one after them fails.
    pub kind: ErrorKind,
}

impl<'a> Read for Failing<'a> {
    fn read(&mut self, buf: &mut [u8]) -> io::Result<usize> {
        if self.reads_left == 0 {
            return Err(io::Error::from(self.kind));
        }
        self.reads_left -= 1;
        match self.text.split_first() {
            Some((first, rest)) => {
                if buf.is_empty() {
                    return Ok(0);
                }
                buf[0] = *first;
                self.text = rest;
                Ok(1)
            }
            None => Ok(0),
        }
    }
}

/// A writer that takes a byte at each write, and fails after this number of writes.
#[derive(Drop)]
pub struct Choking {
    /// How many writes go well.
    pub writes_left: u64,
}

impl Write for Choking {
    fn write(&mut self, buf: &[u8]) -> io::Result<usize> {
        if self.writes_left == 0 {
            return Err(io::Error::from(ErrorKind::Other));
        }
        self.writes_left -= 1;
        Ok(if buf.is_empty() { 0 } else { 1 })
    }

    fn flush(&mut self) -> io::Result<()> {
        Ok(())
    }
}

/// The words of a command line, the program's name before them.
fn words_of(rt: &impl Abort, alloc: Global, words: &[&str]) -> Vec<String> {
    let mut all = Vec::new(alloc);
    let name = String::from_str(alloc, "blk").expect(rt, "memory");
    assert!(rt; all.push(name).is_ok());
    for word in words {
        let word = String::from_str(alloc, *word).expect(rt, "memory");
        assert!(rt; all.push(word).is_ok());
    }
    all
}

/// Loads that find no memory.
pub struct NoMemory;

impl Loads for NoMemory {
    ghost use Rattle.std.specs.Prelude.{⊤};

    ghost ends_as = { λ sched load result. ⊤ };

    fn run<R: Threads + Wait + Sync>(
        &self,
        rt: &R,
        alloc: Global,
        sched: Sched,
        load: Load,
    ) -> Result<Loaded, Unsettled> {
        let _ = rt;
        let _ = (alloc, sched);
        if !load.is_in_range() {
            return Err(Unsettled::Range);
        }
        Err(Unsettled::Load(Told {
            name: "Memory",
            beside: Beside::Memory,
        }))
    }
}

/// The same, which note what they are asked for.
#[derive(Drop)]
pub struct Noting {
    /// How many loads were run.
    runs: AtomicU64,
    /// Of the last one: submitters, workers, bios, depth, after how many runs devices are busy, with 0 for never, and microseconds.
    numbers: [AtomicU64; 6],
}

impl Noting {
    /// None were run.
    pub fn new() -> Noting {
        Noting {
            runs: AtomicU64::new(0),
            numbers: [
                AtomicU64::new(0),
                AtomicU64::new(0),
                AtomicU64::new(0),
                AtomicU64::new(0),
                AtomicU64::new(0),
                AtomicU64::new(0),
            ],
        }
    }

    /// Whether one was run, of these numbers.
    pub fn is_one_of(&self, wanted: &[u64; 6]) -> bool {
        for place in 0..6usize {
            if self.numbers[place].load(Ordering::SeqCst) != wanted[place] {
                return false;
            }
        }
        self.runs.load(Ordering::SeqCst) == 1
    }
}

impl Loads for Noting {
    ghost use Rattle.std.specs.Prelude.{⊤};

    ghost ends_as = { λ sched load result. ⊤ };

    fn run<R: Threads + Wait + Sync>(
        &self,
        rt: &R,
        alloc: Global,
        sched: Sched,
        load: Load,
    ) -> Result<Loaded, Unsettled> {
        self.runs.fetch_add(1, Ordering::SeqCst);
        self.numbers[0].store(load.submitters, Ordering::SeqCst);
        self.numbers[1].store(load.workers, Ordering::SeqCst);
        self.numbers[2].store(load.bios, Ordering::SeqCst);
        self.numbers[3].store(load.depth, Ordering::SeqCst);
        self.numbers[4].store(load.busy.unwrap_or(0), Ordering::SeqCst);
        self.numbers[5].store(load.service, Ordering::SeqCst);
        NoMemory.run(rt, alloc, sched, load)
    }
}

/// Runs the program over loads that note what they are asked for, with words after its name, and gives its status.
pub fn status_over<T: Abort + Threads + Wait + Sync>(
    rt: &T,
    alloc: Global,
    loads: &Noting,
    words: &[&str],
) -> u8 {
    let words = words_of(rt, alloc, words);
    let mut out: Vec<u8> = Vec::new(alloc);
    let mut faults: Vec<u8> = Vec::new(alloc);
    run(
        loads,
        rt,
        alloc,
        words.as_slice(),
        &mut Records::new(alloc, "".as_bytes()),
        &mut Output::new(&mut out),
        &mut Output::new(&mut faults),
        &mut Quiet,
    )
    .status
}

/// Runs the program with words after its name, and gives its status.
pub fn status_of<T: Abort + Threads + Wait + Sync, R: Read + Drop, W: Write, F: Write>(
    rt: &T,
    alloc: Global,
    words: &[&str],
    reader: R,
    out: &mut W,
    faults: &mut F,
) -> u8 {
    let words = words_of(rt, alloc, words);
    run(
        &NoMemory,
        rt,
        alloc,
        words.as_slice(),
        &mut Records::new(alloc, reader),
        &mut Output::new(out),
        &mut Output::new(faults),
        &mut Quiet,
    )
    .status
}
