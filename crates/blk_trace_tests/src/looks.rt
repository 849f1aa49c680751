//! Traces as lists of plain values: what is done to one, and what has to be seen of it then.

use crate::given::{Happening, Heap, bio, event, is_event, is_pushed, standing};
use blk_bio::{Bio, Dir};
use blk_trace::{PushFault, Trace, TraceRule};
use edd_commands::Command;

/// What is done to a trace, or has to be seen of it.
#[derive(Drop)]
pub enum Look {
    /// An event is pushed that breaks no rule.
    Push(Happening),
    /// An event breaks this rule first: it comes back, and nothing is changed.
    Breaks(Happening, TraceRule),
    /// How many events there are, the round, and how many issues are not done.
    Stands(u64, u64, u64),
    /// At the place among the bios that entered is one of this direction, first sector and length.
    Entered(usize, Dir, u64, u64),
    /// This number of bios wait.
    Waiting(usize),
    /// At the place among them is one of this direction, first sector and length.
    Waits(usize, Dir, u64, u64),
    /// This number of commands went out.
    Commands(usize),
    /// At the place among them is this one, in this round.
    Ran(usize, Command, u64),
    /// The depth of the round.
    DepthNow(u64),
    /// Whether no depth was set.
    Fixed(bool),
    /// The round carries this number of commands.
    Carries(u64, u64),
    /// Whether a bio of this serial number stands in the trace.
    HasBio(u64, bool),
}

/// A command of an id, a release and a due round.
pub fn command(id: u64, release: u64, due: u64) -> Command {
    Command { id, release, due }
}

/// Goes through the looks, up to the first one at which something else is seen: its place, if there is one.
pub fn first_other<'a>(
    heap: Heap<'a>,
    trace: &mut Trace<Heap<'a>>,
    looks: &[Look],
) -> Option<usize> {
    for (place, look) in looks.iter().enumerate() {
        if !is_seen(heap, trace, look) {
            return Some(place);
        }
    }
    None
}

/// Whether that is seen.
fn is_seen<'a>(heap: Heap<'a>, trace: &mut Trace<Heap<'a>>, look: &Look) -> bool {
    match look {
        Look::Push(step) => is_pushed(heap, trace, step),
        Look::Breaks(step, rule) => breaks(heap, trace, step, *rule),
        Look::Stands(len, round, unfinished) => standing(trace) == (*len, *round, *unfinished),
        Look::Entered(place, dir, first, sectors) => entered(trace, *place, *dir, *first, *sectors),
        Look::Waiting(count) => are_waiting(trace, *count),
        Look::Waits(place, dir, first, sectors) => waits(trace, *place, *dir, *first, *sectors),
        Look::Commands(count) => are_commands(trace, *count),
        Look::Ran(place, command, round) => ran(trace, *place, *command, *round),
        Look::DepthNow(depth) => trace.depth_now() == *depth,
        Look::Fixed(fixed) => trace.is_fixed() == *fixed,
        Look::Carries(round, depth) => carries(trace, *round, *depth),
        Look::HasBio(serial, there) => has_bio(trace, *serial) == Some(*there),
    }
}

/// Pushes an event that breaks the rule.
fn breaks<'a>(
    heap: Heap<'a>,
    trace: &mut Trace<Heap<'a>>,
    step: &Happening,
    rule: TraceRule,
) -> bool {
    let Some(event) = event(heap, step) else {
        return false;
    };
    let before = standing(trace);
    match trace.push(event) {
        Ok(()) => false,
        Err((back, why)) => {
            why == PushFault::Rule(rule) && is_event(heap, &back, step) && standing(trace) == before
        }
    }
}

/// The bio that entered at a place, once memory is had.
fn entered(trace: &Trace<Heap<'_>>, place: usize, dir: Dir, first: u64, sectors: u64) -> bool {
    let all = match trace.entered() {
        Ok(found) => Some(found),
        Err(_) => trace.entered().ok(),
    };
    match all {
        Some(found) => {
            trace.bios_entered() == found.len() as u64
                && place < found.len()
                && Some(found[place]) == bio(dir, first, sectors)
        }
        None => false,
    }
}

/// The bios that wait. There are none where memory was refused twice.
fn waiting<'a>(trace: &Trace<Heap<'a>>) -> Option<Vec<Bio, Heap<'a>>> {
    match trace.waiting() {
        Ok(found) => Some(found),
        Err(_) => trace.waiting().ok(),
    }
}

/// Counts them.
fn are_waiting(trace: &Trace<Heap<'_>>, count: usize) -> bool {
    match waiting(trace) {
        Some(found) => found.len() == count && trace.bios_waiting() == count as u64,
        None => false,
    }
}

/// The one at a place.
fn waits(trace: &Trace<Heap<'_>>, place: usize, dir: Dir, first: u64, sectors: u64) -> bool {
    match waiting(trace) {
        Some(found) => place < found.len() && Some(found[place]) == bio(dir, first, sectors),
        None => false,
    }
}

/// The commands. There are none where memory was refused twice.
fn commands<'a>(trace: &Trace<Heap<'a>>) -> Option<Vec<Command, Heap<'a>>> {
    match trace.commands() {
        Ok(found) => Some(found),
        Err(_) => trace.commands().ok(),
    }
}

/// Their rounds.
fn rounds<'a>(trace: &Trace<Heap<'a>>) -> Option<Vec<u64, Heap<'a>>> {
    match trace.rounds() {
        Ok(found) => Some(found),
        Err(_) => trace.rounds().ok(),
    }
}

/// Counts both.
fn are_commands(trace: &Trace<Heap<'_>>, count: usize) -> bool {
    match (commands(trace), rounds(trace)) {
        (Some(found), Some(rounds)) => found.len() == count && rounds.len() == count,
        _ => false,
    }
}

/// The command at a place, and its round.
fn ran(trace: &Trace<Heap<'_>>, place: usize, command: Command, round: u64) -> bool {
    match (commands(trace), rounds(trace)) {
        (Some(found), Some(rounds)) => {
            place < found.len()
                && place < rounds.len()
                && found[place] == command
                && rounds[place] == round
        }
        _ => false,
    }
}

/// How many commands a round carries.
fn carries(trace: &Trace<Heap<'_>>, round: u64, depth: u64) -> bool {
    let capacity = match trace.capacity() {
        Ok(found) => Some(found),
        Err(_) => trace.capacity().ok(),
    };
    match capacity {
        Some(capacity) => capacity.at(round) == depth,
        None => false,
    }
}

/// Whether a bio of a serial number stands in the trace.
fn has_bio(trace: &Trace<Heap<'_>>, serial: u64) -> Option<bool> {
    Some(trace.has_bio(bio(Dir::Read, serial, 1)?.id()))
}
