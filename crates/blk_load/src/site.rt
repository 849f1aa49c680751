//! What the threads of a load share.

ghost use Rattle.std.specs.Prelude.{◌≡◌, ◌≤◌, Some};
ghost use Rattle.blk_load.specs.Inside.Faults.{IsFirstOfTwo};
ghost use Rattle.blk_schedulers.specs.declared.numbers.TheConstants.{MAX_LOAD_BIOS, MAX_LOAD_SUBMITTERS};

use crate::fault::{LoadFault, first_of};
use blk_bio::Limits;
use blk_layer::{Layer, Named};
use blk_sched::Scheduler;
use blk_schedulers::Load;
use std::alloc::Global;
use std::sync::atomic::{AtomicBool, Ordering};
use std::sync::{Mutex, Wait};

/// The first of some faults, by their order, where there are some.
#[derive(Drop)]
struct FirstFault {
    fault: Option<LoadFault>,
}

impl FirstFault {
    /// Keeps a fault that a thread met, unless one is kept that comes before it.
    fn keep(&mut self, fault: LoadFault)
        ensures { IsFirstOfTwo self.old.fault (Some fault) self.new.fault }
    {
        *self = FirstFault {
            fault: first_of(self.fault, Some(fault)),
        };
    }
}

/// The faults that threads meet, of which the first by their order is kept.
#[derive(Drop)]
pub(crate) struct SharedFault {
    /// Whether there is one.
    any: AtomicBool,
    /// The first of them.
    first: Mutex<FirstFault>,
}

impl SharedFault {
    /// None so far.
    pub(crate) fn none() -> SharedFault {
        SharedFault {
            any: AtomicBool::new(false),
            first: Mutex::new(FirstFault { fault: None }),
        }
    }

    /// Whether a thread has met a fault.
    pub(crate) fn is_any(&self) -> bool {
        self.any.load(Ordering::SeqCst)
    }

    /// Notes the fault at which a thread ended.
    pub(crate) fn note<R: Wait>(&self, rt: &R, fault: LoadFault) {
        self.first.lock(rt).keep(fault);
        self.any.store(true, Ordering::SeqCst);
    }

    /// The first of the faults.
    pub(crate) fn into_first(self) -> Option<LoadFault> {
        let SharedFault { any: _, first } = self;
        first.into_inner().fault
    }
}

/// What the threads of a load share: the layer, the faults that they meet, and the numbers of the load.
#[derive(Drop)]
pub(crate) struct Site<S: Scheduler<A = Global>, L: Named> {
    /// The layer.
    pub(crate) layer: Layer<S, L>,
    /// The faults that the threads have met.
    pub(crate) noted: SharedFault,
    /// What the threads allocate by.
    pub(crate) alloc: Global,
    /// The limits of the layer, within which the bios of a plug join.
    pub(crate) limits: Limits,
    /// What the devices sleep by.
    pub(crate) clock: HostRuntime,
    /// How much load there is.
    pub(crate) load: Load,
    ghost named: { limits ≡ L.setup.limits },
    ghost few_submitters: { load.submitters ≤ MAX_LOAD_SUBMITTERS },
    ghost few_bios: { load.bios ≤ MAX_LOAD_BIOS },
}

impl<S: Scheduler<A = Global>, L: Named> Site<S, L> {
    /// What threads share over a layer, none of which has met a fault.
    pub(crate) fn new(
        layer: Layer<S, L>,
        alloc: Global,
        limits: Limits,
        clock: HostRuntime,
        load: Load,
    ) -> Site<S, L>
        requires named { limits ≡ L.setup.limits }
        requires few_submitters { load.submitters ≤ MAX_LOAD_SUBMITTERS }
        requires few_bios { load.bios ≤ MAX_LOAD_BIOS }
        ensures { result.layer ≡ layer }
    {
        Site {
            layer,
            noted: SharedFault::none(),
            alloc,
            limits,
            clock,
            load,
        }
    }
}
