//! `deadline`: by sectors within a batch, and by due rounds between batches.

ghost use Rattle.std.specs.Prelude.{◌≡◌, IfOk, IfErr};
ghost use Rattle.blk_deadline.specs.Shown.{meaning_of, kept_in};
ghost use Rattle.blk_schedulers.specs.Made.{fault_of, IsSchedFault, IsStart};
ghost use Rattle.blk_schedulers.specs.Rows.Deadline.{deadline_tunables};

use crate::positions::positions_of;
use crate::rows::{ListRow, SchedKind, SchedRow, SettingRange, SettingRow};
use crate::sched::{Sched, SchedFault};
use blk_deadline::{Deadline, DeadlineFault, Tunables};
use std::alloc::Global;

/// Its row.
pub(crate) const ROW: SchedRow = SchedRow {
    kind: SchedKind::Deadline,
    name: "deadline",
    flag: None,
    tried: 2,
    settings: &[
        SettingRow {
            name: "fifo_batch",
            option: "fifo-batch",
            help: "Under deadline, how many requests go in one batch",
            range: SettingRange::Short(
                "16",
                ListRow {
                    default: "1,2,4,8,16,32,64",
                    help: "Under deadline, how many requests go in one batch: numbers with commas between",
                },
            ),
        },
        SettingRow {
            name: "writes_starved",
            option: "writes-starved",
            help: "Under deadline, how often reads go first while writes wait",
            range: SettingRange::Short(
                "2",
                ListRow {
                    default: "0,1,2,4,8",
                    help: "Under deadline, how often reads go first while writes wait: numbers with commas between",
                },
            ),
        },
        SettingRow {
            name: "front_merges",
            option: "no-front-merges",
            help: "Under deadline, lets no newcomer join at the front",
            range: SettingRange::Switch(false),
        },
        SettingRow {
            name: "positions",
            option: "positions",
            help: "Under deadline, whether it goes on from one position or from each direction's own",
            range: SettingRange::Positions(
                "one",
                ListRow {
                    default: "one",
                    help: "Under deadline, whether it goes on from one position or from each direction's own: names with a comma between",
                },
            ),
        },
    ],
};

/// What it is made of.
fn tunables(sched: &Sched) -> Tunables
    ensures { result ≡ deadline_tunables sched.now.values }
{
    Tunables {
        fifo_batch: sched.short_at(0),
        writes_starved: sched.short_at(1),
        front_merges: sched.values[2] == 1,
        positions: positions_of(sched.values[3]),
    }
}

/// What is wrong with settings of its kind.
pub(crate) fn fault(sched: &Sched) -> Option<SchedFault>
    requires { sched.now.kind ≡ SchedKind.Deadline }
    ensures { result ≡ fault_of sched.now }
{
    if tunables(sched).has_zero_batch() {
        return Some(SchedFault::Deadline(DeadlineFault::ZeroBatch));
    }
    None
}

/// One of settings of its kind before anything waits.
pub fn make(alloc: Global, sched: Sched, _depth: u64) -> Result<Deadline, SchedFault>
    requires { sched.kind ≡ SchedKind.Deadline }
    ensures start { IfOk result (λ s. IsStart sched _depth (meaning_of s) (kept_in s)) }
    ensures unmade { IfErr result (IsSchedFault sched) }
{
    match Deadline::new(alloc, tunables(&sched)) {
        Ok(scheduler) => Ok(scheduler),
        Err(fault) => Err(SchedFault::Deadline(fault)),
    }
}
