//! What is said of a script beside what is written of it: how many of its bios no flush takes out of their plugs.

ghost use Rattle.std.specs.Prelude.{◌≡◌, ◌+◌, ◌≤◌, ◌<◌, ◌^◌, IfOk, IfErr, length, is_some, option_map};
ghost use Rattle.blk_text.specs.Script.{IsScript, scripted};
ghost use Rattle.blk_cli.specs.Said.{said_of};
ghost use Rattle.blk_cli.specs.Unflushed.{plugged_after, plugged, left_in_plugs, leaves_some, TellsPlugs};

use crate::Answered;
use crate::failure::Failure;
use blk_text::{Line, Script};
use std::alloc::{AllocError, Global};

/// How many bios the plug of a submitter holds after one more line.
fn plugged_after(submitter: u64, held: u64, line: Line) -> u64
    requires { held + 1 < 2 ^ 64 }
    ensures { result ≡ plugged_after submitter held line }
{
    match line {
        Line::Bio(bio) => {
            if u64::from(bio.id().submitter) == submitter {
                held + 1
            } else {
                held
            }
        }
        Line::Flush(flushed) => {
            if u64::from(flushed) == submitter {
                0
            } else {
                held
            }
        }
        Line::Drain { .. }
        | Line::Issue { .. }
        | Line::Done(_)
        | Line::Back(_)
        | Line::Depth(_)
        | Line::Tick
        | Line::Run(_) => held,
    }
}

/// How many it holds after all of them.
fn plugged(lines: &[Line], submitter: u64) -> u64
    ensures value { result ≡ plugged lines.now submitter }
    ensures few { result ≤ length lines.now }
{
    let mut held = 0;
    for line in lines {
        held = plugged_after(submitter, held, *line);
    }
    held
}

/// How many bios of a script no flush takes out of their plugs.
fn left_in_plugs(script: &Script) -> u64
    requires { IsScript (scripted script.now) }
    ensures { result ≡ left_in_plugs script.now.lines.items script.now.submitters }
{
    let mut left = 0;
    for submitter in 0..script.submitters {
        left += plugged(script.lines.as_slice(), submitter);
    }
    left
}

/// The line on so many bios.
fn plugs_line(alloc: Global, left: u64) -> Result<Vec<u8>, AllocError> {
    match format!(in alloc; "blk: not flushed: {left} bios stay in their plugs\n") {
        Ok(line) => Ok(line.into_bytes()),
        Err(refused) => Err(refused),
    }
}

/// The line on bios that stay in their plugs, where there are any: nothing else tells of them.
fn plugs_note(alloc: Global, script: &Script) -> Result<Option<Vec<u8>>, AllocError>
    requires { IsScript (scripted script.now) }
    ensures { IfOk result (λ note. is_some (option_map (λ line. line.items) note) ≡ leaves_some (scripted script.now)) }
{
    let left = left_in_plugs(script);
    if left == 0 {
        return Ok(None);
    }
    match plugs_line(alloc, left) {
        Ok(line) => Ok(Some(line)),
        Err(refused) => Err(refused),
    }
}

/// A text that was made of a script, and beside it the line on bios that stay in their plugs.
pub fn with_plugs(alloc: Global, text: Vec<u8>, script: &Script) -> Result<Answered, Failure>
    requires { IsScript (scripted script.now) }
    ensures text { IfOk result (λ a. (said_of a).text ≡ text.items) }
    ensures beside { IfOk result (λ a. TellsPlugs (scripted script.now) (said_of a)) }
    ensures memory { IfErr result (λ f. f ≡ Failure.Memory) }
{
    match plugs_note(alloc, script) {
        Ok(note) => Ok(Answered {
            text,
            note,
            good: true,
        }),
        Err(_) => Err(Failure::Memory),
    }
}
