//! `earliest`: by due rounds alone.

ghost use Rattle.std.specs.Prelude.{◌≡◌, IfOk, IfErr};
ghost use Rattle.blk_earliest.specs.Shown.{meaning_of, late_last_of};
ghost use Rattle.blk_earliest.specs.Choice.{earliest_kept};
ghost use Rattle.blk_schedulers.specs.Made.{IsSchedFault, IsStart};

use crate::rows::{FlagRow, SchedKind, SchedRow, SettingRange, SettingRow};
use crate::sched::{Sched, SchedFault};
use blk_earliest::Earliest;
use std::alloc::Global;

/// Its row.
pub(crate) const ROW: SchedRow = SchedRow {
    kind: SchedKind::Earliest,
    name: "earliest",
    flag: Some(FlagRow {
        name: "earliest",
        help: "Runs it under earliest as well",
    }),
    tried: 1,
    settings: &[SettingRow {
        name: "late_last",
        option: "late-last",
        help: "Under earliest, lets what is late already wait for what can be on time",
        range: SettingRange::Switch(true),
    }],
};

/// One of settings of its kind before anything waits.
pub fn make(alloc: Global, sched: Sched, _depth: u64) -> Result<Earliest, SchedFault>
    requires { sched.kind ≡ SchedKind.Earliest }
    ensures start { IfOk result (λ s. IsStart sched _depth (meaning_of s) (earliest_kept (late_last_of s))) }
    ensures unmade { IfErr result (IsSchedFault sched) }
{
    match Earliest::new(alloc, sched.values[0] == 1) {
        Ok(scheduler) => Ok(scheduler),
        Err(_) => Err(SchedFault::Memory),
    }
}
