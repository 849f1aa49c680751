//! `kyber`: by turns of reads and writes, within limits on what is in flight.

ghost use Rattle.std.specs.Prelude.{◌≡◌, ◌≤◌, IfOk, IfErr};
ghost use Rattle.blk_kyber.specs.Shown.{meaning_of, state_of};
ghost use Rattle.blk_kyber.specs.State.{numbers_of};
ghost use Rattle.blk_schedulers.specs.Made.{fault_of, IsSchedFault, IsStart};
ghost use Rattle.blk_schedulers.specs.Rows.Kyber.{targets_of};

use crate::rows::{ListRow, SchedKind, SchedRow, SettingRange, SettingRow};
use crate::sched::{Sched, SchedFault};
use blk_kyber::{Kyber, KyberFault, Targets};
use blk_sched::MAX_OPEN;
use std::alloc::Global;

/// The greatest target, in rounds.
const MAX_TARGET: u64 = 1_000_000;

/// Its row.
pub(crate) const ROW: SchedRow = SchedRow {
    kind: SchedKind::Kyber,
    name: "kyber",
    flag: None,
    tried: 3,
    settings: &[
        SettingRow {
            name: "read_target",
            option: "read-target",
            help: "Under kyber, how many rounds a read may wait",
            range: SettingRange::UpTo(
                MAX_TARGET,
                "2",
                ListRow {
                    default: "1,2,5,10,20,50,100",
                    help: "Under kyber, how many rounds a read may wait: numbers with commas between",
                },
            ),
        },
        SettingRow {
            name: "write_target",
            option: "write-target",
            help: "Under kyber, how many rounds a write may wait",
            range: SettingRange::UpTo(
                MAX_TARGET,
                "10",
                ListRow {
                    default: "1,2,5,10,20,50,100",
                    help: "Under kyber, how many rounds a write may wait: numbers with commas between",
                },
            ),
        },
    ],
};

/// What it is made of.
fn targets(sched: &Sched) -> Targets
    ensures { result ≡ targets_of sched.now.values }
{
    Targets {
        read: sched.values[0],
        write: sched.values[1],
    }
}

/// What is wrong with settings of its kind.
pub(crate) fn fault(sched: &Sched) -> Option<SchedFault>
    requires { sched.now.kind ≡ SchedKind.Kyber }
    ensures { result ≡ fault_of sched.now }
{
    if targets(sched).has_zero_target() {
        return Some(SchedFault::Kyber(KyberFault::ZeroTarget));
    }
    None
}

/// One of settings of its kind before anything waits, with both limits at the depth.
pub fn make(alloc: Global, sched: Sched, depth: u64) -> Result<Kyber, SchedFault>
    requires kind { sched.kind ≡ SchedKind.Kyber }
    requires least { 1 ≤ depth }
    requires most { depth ≤ MAX_OPEN }
    ensures start { IfOk result (λ s. IsStart sched depth (meaning_of s) (numbers_of (state_of s))) }
    ensures unmade { IfErr result (IsSchedFault sched) }
{
    match Kyber::new(alloc, targets(&sched), depth) {
        Ok(scheduler) => Ok(scheduler),
        Err(fault) => Err(SchedFault::Kyber(fault)),
    }
}
