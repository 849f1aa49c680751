//! `none`: in the order of entry.

ghost use Rattle.std.specs.Prelude.{◌≡◌, [], IfOk, IfErr};
ghost use Rattle.blk_schedulers.specs.Made.{IsSchedFault, IsStart};

use crate::rows::{SchedKind, SchedRow};
use crate::sched::{Sched, SchedFault};
use blk_none::NoneSched;
use std::alloc::Global;

/// Its row.
pub(crate) const ROW: SchedRow = SchedRow {
    kind: SchedKind::None,
    name: "none",
    flag: None,
    tried: 0,
    settings: &[],
};

/// One of settings of its kind before anything waits.
pub fn make(alloc: Global, sched: Sched, _depth: u64) -> Result<NoneSched, SchedFault>
    requires { sched.kind ≡ SchedKind.None }
    ensures start { IfOk result (λ s. IsStart sched _depth s []) }
    ensures unmade { IfErr result (IsSchedFault sched) }
{
    match NoneSched::new(alloc) {
        Ok(scheduler) => Ok(scheduler),
        Err(_) => Err(SchedFault::Memory),
    }
}
