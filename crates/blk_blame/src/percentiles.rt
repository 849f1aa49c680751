//! Percentiles of times.

ghost use Rattle.std.specs.Prelude.{◌≡◌, ◌≤◌, length};
ghost use Rattle.edd_commands.specs.declared.TheConstants.{MAX_COMMANDS};
ghost use Rattle.blk_capture.specs.Summaries.{at_percent, percentiles_of, ArePercentiles};

use blk_capture::Percentiles;

/// The number at the nearest rank of `percent`.
fn at_percent(sorted: &[u64], percent: usize) -> Option<u64>
    requires few { length sorted.now ≤ MAX_COMMANDS }
    requires part { percent ≤ 100 }
    ensures { result ≡ at_percent percent sorted.now }
{
    let rank = (percent * sorted.len() + 99) / 100;
    sorted.get(rank.saturating_sub(1)).copied()
}

/// The percentiles of numbers in their order.
fn of_sorted(sorted: &[u64]) -> Percentiles
    requires { length sorted.now ≤ MAX_COMMANDS }
    ensures { result ≡ percentiles_of sorted.now }
{
    Percentiles {
        count: sorted.len() as u64,
        p50: at_percent(sorted, 50),
        p99: at_percent(sorted, 99),
        max: at_percent(sorted, 100),
    }
}

/// The percentiles of numbers, which it puts in order.
pub fn percentiles_of(values: &mut [u64]) -> Percentiles
    requires { length values.old ≤ MAX_COMMANDS }
    ensures { ArePercentiles values.old result }
{
    values.sort_unstable();
    of_sorted(values)
}
