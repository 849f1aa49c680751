//! The program `blk`: the standard streams and the arguments of the command line, handed to `blk_cli::run`, and loads run on its threads.
#![tactic(auto)]

mod watching;

use crate::watching::{Counted, ReadProgress, Watching};
use blk_cli::{Ended, Failure};
use blk_load::OnThreads;
use blk_records::Records;
use std::alloc::Global;
use std::io::{ErrorKind, Write};
use std::os::unix::fs::{FileTypeExt, MetadataExt};
use std::process::ExitCode;
use std::sync::Wait;
use std::thread::{Scope, Threads, scope, scope_env};
use std::{env, fs, io};
use text_output::Output;
use turns::{Progress, ProgressLine};

/// Whether standard error is a terminal, by the major number of its device: Linux has 4 for consoles and serial lines, 5 for a process's
/// own terminal and 136 to 143 for what terminal emulators open.
fn says_to_a_terminal(rt: &HostRuntime) -> bool {
    match fs::metadata(rt, "/dev/stderr") {
        Ok(file) => {
            let major = (file.rdev() >> 8) & 0xfff;
            file.file_type().is_char_device() && matches!(major, 4 | 5 | 136..=143)
        }
        Err(_) => false,
    }
}

/// Runs the program on its arguments, beside a thread that shows how much of a long input was read where somebody looks.
fn run_beside<'s, E, R: Threads + Wait + Sync, F: Write>(
    threads: &'s Scope<'s, E>,
    rt: &'s R,
    host: HostRuntime,
    alloc: Global,
    words: &[String],
    sofar: &'s ReadProgress,
    faults: &mut Output<F>,
) -> Ended {
    let runs = ProgressLine::new(alloc, host, host.stderr(), sofar.is_watched());
    let mut watching = Watching::new(threads, rt, host, alloc, sofar, runs);
    let ended = blk_cli::run(
        &OnThreads { clock: host },
        rt,
        alloc,
        words,
        &mut Records::new(alloc, Counted::new(host.reader(), sofar)),
        &mut Output::new(io::writer(&host)),
        faults,
        &mut watching,
    );
    watching.over();
    ended
}

fn main(rt: HostRuntime) -> ExitCode {
    let alloc = rt.alloc();
    let mut faults = Output::new(rt.stderr());
    let args = match env::args(&rt) {
        Ok(args) => args,
        Err(error) => {
            if error.kind() == ErrorKind::OutOfMemory {
                return ExitCode::from(Failure::Memory.say(&mut faults).status);
            }
            // A word that isn't UTF-8.
            let _ = faults.put(b"blk: the command line could not be read\n");
            return ExitCode::from(blk_cli::COMMAND_LINE);
        }
    };
    let Ok(words) = args.collect::<Vec<String>>(alloc) else {
        return ExitCode::from(Failure::Memory.say(&mut faults).status);
    };
    let sofar = ReadProgress::new(says_to_a_terminal(&rt));
    let (waits, all, sofar, faults) = (&rt, words.as_slice(), &sofar, &mut faults);
    let ended = scope(
        scope_env(),
        waits,
        move |threads| run_beside(threads, waits, rt, alloc, all, sofar, faults),
    );
    ExitCode::from(ended.status)
}
