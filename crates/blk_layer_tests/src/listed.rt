//! Calls of a layer as plain values, each with the answer that it has to give. A call that runs out of memory is made once
//! more.

ghost use Rattle.std.specs.Prelude.{true, ◌≡◌, ◌<◌, length};

use crate::given::bio;
use blk_core::{BackFault, CoreFault, DepthFault, IssueFault, NotIssued, TickFault};
use blk_layer::{
    Device, DrainFault, FlushFault, FlushReason, Flushed, Layer, LayerIssueFault, Named, Ran,
    Submitter, WorkFault, Worked, Worker,
};
use blk_queues::{Added, MAX_STAGED, Plug, PlugFault};
use blk_sched::Scheduler;
use edd_commands::Command;
use std::alloc::Allocator;
use std::process::Abort;
use std::sync::Wait;

/// A call of a layer of two submitters and two workers, and its answer. Submitters and workers go by their numbers, 0 and 1.
#[derive(Clone, Copy)]
pub enum LayerCall {
    /// A read of a serial number and a first sector becomes a request of its own in a submitter's plug.
    Add(u8, u64, u64),
    /// A number of reads from a serial number on, each a request of its own, go through a submitter's plug into its software queue.
    Fill(u8, u64, u64),
    /// A submitter flushes its plug.
    Flush(u8, Result<Flushed, FlushFault>),
    /// This number of a submitter's bios are accepted.
    Accepted(u8, usize),
    /// A worker drains.
    Drain(u8, Result<u64, DrainFault>),
    /// A worker is issued a command: its id, and its tag.
    Issue(u8, Result<Option<(u64, u16)>, LayerIssueFault>),
    /// A worker reports a tag done.
    Done(u8, u16, Result<(), NotIssued>),
    /// A worker requeues a tag's command: its id.
    Back(u8, u16, Result<u64, BackFault>),
    /// A worker works for at most this number of passes, with a device that is busy at one of its runs: how many passes it makes, how many
    /// commands it runs, and whether it is finished; and how often the device runs.
    Work(u8, u64, u64, Result<(u64, u64, bool), WorkFault>, u64),
    /// A worker is issued this number of commands by themselves, each in a round of its own, and reports them done.
    Serve(u8, u64),
    /// This number of commands are in a worker's account.
    Ran(u8, usize),
    /// Nothing more will be flushed.
    Finish,
    /// The depth of the rounds to come is set.
    Depth(u64, Result<(), DepthFault>),
    /// The round ends.
    Tick(Result<u64, TickFault>),
    /// This number of rounds end, the first of a layer.
    Ticks(u64),
}

/// What a flush of requests of one bio answers where all of them go.
pub fn flushed(requests: u64) -> Result<Flushed, FlushFault> {
    Ok(Flushed {
        requests,
        bios: requests,
    })
}

/// A device that is busy at one of its runs, and adds up the ids of the commands that it ran.
#[derive(Drop)]
struct Counting {
    runs: u64,
    busy_at: u64,
    ids: u64,
}

impl Device for Counting {
    fn run(&mut self, command: &Command) -> Ran {
        self.runs = self.runs.saturating_add(1);
        if self.runs == self.busy_at {
            return Ran::Busy;
        }
        self.ids = self.ids.wrapping_add(command.id);
        Ran::Done
    }
}

/// The ids of commands, added up.
fn ids_of(commands: &[Command]) -> u64 {
    commands
        .iter()
        .fold(0, |sum: u64, command| sum.wrapping_add(command.id))
}

/// Whether a read becomes a request of its own in a plug.
fn adds<A: Allocator + Clone>(
    rt: &impl Abort,
    plug: &mut Plug<A>,
    submitter: u8,
    serial: u64,
    first: u64,
) -> bool
    ensures { plug.new.limits ≡ plug.old.limits }
{
    match plug.add(bio(rt, submitter, serial, first)) {
        Err((bio, PlugFault::Memory)) => matches!(plug.add(bio), Ok(Added::New)),
        answer => matches!(answer, Ok(Added::New)),
    }
}

/// Whether this number of reads go through a plug into the software queue, as many at a time as the plug holds.
fn fills<R: Abort + Wait, S: Scheduler, L: Named>(
    rt: &R,
    layer: &Layer<S, L>,
    submitter: &mut Submitter<L, S::A>,
    plug: &mut Plug<S::A>,
    from: u64,
    count: u64,
) -> bool
    requires seat { submitter.old.number < length layer.now.map }
    requires limits { plug.old.limits ≡ L.setup.limits }
    ensures seat { submitter.new.number ≡ submitter.old.number }
    ensures limits { plug.new.limits ≡ plug.old.limits }
{
    for place in 0..count {
        let serial = from.saturating_add(place);
        let first = serial.saturating_mul(100) % 1_000_000;
        let added = adds(rt, plug, submitter.number(), serial, first);
        let full = plug.len() == MAX_STAGED || place.saturating_add(1) == count;
        if !added || (full && flush(rt, layer, submitter, plug).is_err()) {
            return false;
        }
    }
    true
}

/// What a submitter's flush answers, once more where memory was refused.
fn flush<R: Wait, S: Scheduler, L: Named>(
    rt: &R,
    layer: &Layer<S, L>,
    submitter: &mut Submitter<L, S::A>,
    plug: &mut Plug<S::A>,
) -> Result<Flushed, FlushFault>
    requires seat { submitter.old.number < length layer.now.map }
    requires limits { plug.old.limits ≡ L.setup.limits }
    ensures seat { submitter.new.number ≡ submitter.old.number }
    ensures limits { plug.new.limits ≡ plug.old.limits }
{
    match layer.flush(rt, submitter, plug) {
        Err(
            FlushFault {
                why: FlushReason::Memory,
                ..
            },
        ) => layer.flush(rt, submitter, plug),
        answer => answer,
    }
}

/// Whether a submitter's call has the wanted answer.
fn by_submitter<R: Abort + Wait, S: Scheduler, L: Named>(
    rt: &R,
    layer: &Layer<S, L>,
    submitter: &mut Submitter<L, S::A>,
    plug: &mut Plug<S::A>,
    call: LayerCall,
) -> bool
    requires seat { submitter.old.number < length layer.now.map }
    requires limits { plug.old.limits ≡ L.setup.limits }
    ensures seat { submitter.new.number ≡ submitter.old.number }
    ensures limits { plug.new.limits ≡ plug.old.limits }
{
    match call {
        LayerCall::Add(_, serial, first) => adds(rt, plug, submitter.number(), serial, first),
        LayerCall::Fill(_, from, count) => fills(rt, layer, submitter, plug, from, count),
        LayerCall::Flush(_, answer) => flush(rt, layer, submitter, plug) == answer,
        LayerCall::Accepted(_, count) => submitter.accepted().len() == count,
        _ => false,
    }
}

/// What a worker's drain answers, and the rest of it where memory was refused.
fn drain<R: Wait, S: Scheduler, L: Named>(
    rt: &R,
    layer: &Layer<S, L>,
    worker: &mut Worker<L, S::A>,
) -> Result<u64, DrainFault>
    ensures { worker.new.tag_set ≡ worker.old.tag_set }
{
    match layer.drain(rt, worker) {
        Err(
            DrainFault {
                moved,
                why: CoreFault::Memory,
            },
        ) => match layer.drain(rt, worker) {
            Ok(more) => Ok(moved.saturating_add(more)),
            Err(fault) => Err(fault),
        },
        answer => answer,
    }
}

/// What a worker is issued, its id and its tag, once more where memory was refused.
fn issued<R: Wait, S: Scheduler, L: Named>(
    rt: &R,
    layer: &Layer<S, L>,
    worker: &mut Worker<L, S::A>,
) -> Result<Option<(u64, u16)>, LayerIssueFault>
    requires { worker.old.tag_set ≡ layer.now.tag_set }
    ensures { worker.new.tag_set ≡ worker.old.tag_set }
{
    let found = match layer.issue(rt, worker) {
        Err(LayerIssueFault::Issue(IssueFault::Memory)) => layer.issue(rt, worker),
        answer => answer,
    };
    match found {
        Ok(Some(issued)) => Ok(Some((issued.command.id, issued.tag))),
        Ok(None) => Ok(None),
        Err(why) => Err(why),
    }
}

/// What a worker's requeue answers, once more where memory was refused.
fn back<R: Wait, S: Scheduler, L: Named>(
    rt: &R,
    layer: &Layer<S, L>,
    worker: &mut Worker<L, S::A>,
    tag: u16,
) -> Result<u64, BackFault>
    requires { worker.old.tag_set ≡ layer.now.tag_set }
    ensures { worker.new.tag_set ≡ worker.old.tag_set }
{
    match layer.back(rt, worker, tag) {
        Err(BackFault::Memory) => layer.back(rt, worker, tag),
        answer => answer,
    }
}

/// Whether a worker does what is wanted in at most as many passes, and its device too, which runs just the commands that come into its account.
fn works<R: Wait, S: Scheduler, L: Named>(
    rt: &R,
    layer: &Layer<S, L>,
    worker: &mut Worker<L, S::A>,
    most: u64,
    busy_at: u64,
    wanted: Result<(u64, u64, bool), WorkFault>,
    runs: u64,
) -> bool
    requires { worker.old.tag_set ≡ layer.now.tag_set }
    ensures { worker.new.tag_set ≡ worker.old.tag_set }
{
    let before = ids_of(worker.ran());
    let mut device = Counting {
        runs: 0,
        busy_at,
        ids: 0,
    };
    let did = match layer.work(rt, worker, &mut device, most) {
        Ok(
            Worked {
                passes,
                ran,
                finished,
            },
        ) => Ok((passes, ran, finished)),
        Err(why) => Err(why),
    };
    let ids = ids_of(worker.ran()).wrapping_sub(before);
    did == wanted && device.runs == runs && device.ids == ids
}

/// Whether a worker is issued this number of commands, each in a round of its own, and reports them done.
fn serves<R: Wait, S: Scheduler, L: Named>(
    rt: &R,
    layer: &Layer<S, L>,
    worker: &mut Worker<L, S::A>,
    count: u64,
) -> bool
    requires tags { worker.old.tag_set ≡ layer.now.tag_set }
    requires hand { L.by_hand ≡ true }
    ensures { worker.new.tag_set ≡ worker.old.tag_set }
{
    for _ in 0..count {
        let Ok(Some((_, tag))) = issued(rt, layer, worker) else {
            return false;
        };
        if layer.done(rt, worker, tag).is_err() || tick(rt, layer).is_err() {
            return false;
        }
    }
    true
}

/// Whether a worker's call has the wanted answer.
fn by_worker<R: Wait, S: Scheduler, L: Named>(
    rt: &R,
    layer: &Layer<S, L>,
    worker: &mut Worker<L, S::A>,
    call: LayerCall,
) -> bool
    requires tags { worker.old.tag_set ≡ layer.now.tag_set }
    requires hand { L.by_hand ≡ true }
    ensures { worker.new.tag_set ≡ worker.old.tag_set }
{
    match call {
        LayerCall::Drain(_, answer) => drain(rt, layer, worker) == answer,
        LayerCall::Issue(_, answer) => issued(rt, layer, worker) == answer,
        LayerCall::Done(_, tag, answer) => layer.done(rt, worker, tag) == answer,
        LayerCall::Back(_, tag, answer) => back(rt, layer, worker, tag) == answer,
        LayerCall::Work(_, most, busy_at, answer, runs) => {
            works(rt, layer, worker, most, busy_at, answer, runs)
        }
        LayerCall::Serve(_, count) => serves(rt, layer, worker, count),
        LayerCall::Ran(_, count) => worker.ran().len() == count,
        _ => false,
    }
}

/// Whether this number of rounds end, the first of a layer.
fn end_all<R: Wait, S: Scheduler, L: Named>(rt: &R, layer: &Layer<S, L>, count: u64) -> bool
    requires hand { L.by_hand ≡ true }
{
    for round in 0..count {
        if layer.tick(rt) != Ok(round + 1) {
            return false;
        }
    }
    true
}

/// What a tick answers, once more where memory was refused.
fn tick<R: Wait, S: Scheduler, L: Named>(rt: &R, layer: &Layer<S, L>) -> Result<u64, TickFault>
    requires hand { L.by_hand ≡ true }
{
    match layer.tick(rt) {
        Err(TickFault::Memory) => layer.tick(rt),
        answer => answer,
    }
}

/// What a new depth is answered, once more where memory was refused.
fn set_depth<R: Wait, S: Scheduler, L: Named>(
    rt: &R,
    layer: &Layer<S, L>,
    depth: u64,
) -> Result<(), DepthFault> {
    match layer.set_depth(rt, depth) {
        Err(DepthFault::Memory) => layer.set_depth(rt, depth),
        answer => answer,
    }
}

/// Whether a call of the layer itself has the wanted answer.
fn by_layer<R: Wait, S: Scheduler, L: Named>(rt: &R, layer: &Layer<S, L>, call: LayerCall) -> bool
    requires hand { L.by_hand ≡ true }
{
    match call {
        LayerCall::Finish => {
            layer.finish();
            true
        }
        LayerCall::Depth(depth, answer) => set_depth(rt, layer, depth) == answer,
        LayerCall::Tick(answer) => tick(rt, layer) == answer,
        LayerCall::Ticks(count) => end_all(rt, layer, count),
        _ => false,
    }
}

/// Makes a call, and says whether its answer is the wanted one.
fn is_answered<R: Abort + Wait, S: Scheduler, L: Named>(
    rt: &R,
    layer: &Layer<S, L>,
    first: &mut Submitter<L, S::A>,
    second: &mut Submitter<L, S::A>,
    plug_first: &mut Plug<S::A>,
    plug_second: &mut Plug<S::A>,
    zero: &mut Worker<L, S::A>,
    one: &mut Worker<L, S::A>,
    call: LayerCall,
) -> bool
    requires first { first.old.number < length layer.now.map }
    requires second { second.old.number < length layer.now.map }
    requires plug_first { plug_first.old.limits ≡ L.setup.limits }
    requires plug_second { plug_second.old.limits ≡ L.setup.limits }
    requires zero { zero.old.tag_set ≡ layer.now.tag_set }
    requires one { one.old.tag_set ≡ layer.now.tag_set }
    requires hand { L.by_hand ≡ true }
    ensures first { first.new.number ≡ first.old.number }
    ensures second { second.new.number ≡ second.old.number }
    ensures plug_first { plug_first.new.limits ≡ plug_first.old.limits }
    ensures plug_second { plug_second.new.limits ≡ plug_second.old.limits }
    ensures zero { zero.new.tag_set ≡ zero.old.tag_set }
    ensures one { one.new.tag_set ≡ one.old.tag_set }
{
    match call {
        LayerCall::Add(0, _, _)
        | LayerCall::Fill(0, _, _)
        | LayerCall::Flush(0, _)
        | LayerCall::Accepted(0, _) => { by_submitter(rt, layer, first, plug_first, call) }
        LayerCall::Add(_, _, _)
        | LayerCall::Fill(_, _, _)
        | LayerCall::Flush(_, _)
        | LayerCall::Accepted(_, _) => { by_submitter(rt, layer, second, plug_second, call) }
        LayerCall::Finish | LayerCall::Depth(_, _) | LayerCall::Tick(_) | LayerCall::Ticks(_) => {
            by_layer(rt, layer, call)
        }
        LayerCall::Drain(0, _)
        | LayerCall::Issue(0, _)
        | LayerCall::Done(0, _, _)
        | LayerCall::Back(0, _, _)
        | LayerCall::Work(0, _, _, _, _)
        | LayerCall::Serve(0, _)
        | LayerCall::Ran(0, _) => by_worker(rt, layer, zero, call),
        _ => by_worker(rt, layer, one, call),
    }
}

/// Makes the calls one after the other, up to the first one whose answer is another: its place, if there is one.
pub fn first_other<R: Abort + Wait, S: Scheduler, L: Named>(
    rt: &R,
    layer: &Layer<S, L>,
    first: &mut Submitter<L, S::A>,
    second: &mut Submitter<L, S::A>,
    plug_first: &mut Plug<S::A>,
    plug_second: &mut Plug<S::A>,
    zero: &mut Worker<L, S::A>,
    one: &mut Worker<L, S::A>,
    calls: &[LayerCall],
) -> Option<usize>
    requires first { first.old.number < length layer.now.map }
    requires second { second.old.number < length layer.now.map }
    requires plug_first { plug_first.old.limits ≡ L.setup.limits }
    requires plug_second { plug_second.old.limits ≡ L.setup.limits }
    requires zero { zero.old.tag_set ≡ layer.now.tag_set }
    requires one { one.old.tag_set ≡ layer.now.tag_set }
    requires hand { L.by_hand ≡ true }
{
    for (place, call) in calls.iter().enumerate() {
        if !is_answered(
            rt,
            layer,
            first,
            second,
            plug_first,
            plug_second,
            zero,
            one,
            *call,
        ) {
            return Some(place);
        }
    }
    None
}
