//! The greatest of processes, of stalls and of windows.

ghost use Rattle.std.specs.Prelude.{◌≡◌, OnOk, take};
ghost use Rattle.blk_blame.specs.Greatest.{AreGreatestFirst, late_group_size, stall_size, window_size};

use crate::late_groups::LateGroup;
use edd_blame::StallTime;
use edd_figures::Crowd;
use std::alloc::AllocError;
use std::cmp::Reverse;

/// How many more requests a window has than it carries.
fn excess(window: &Crowd) -> u64
    ensures { result ≡ window_size window.now }
{
    window.commands.saturating_sub(window.carries)
}

/// Puts processes in order, those first that have the most late requests.
pub fn sort_late_groups(late_groups: &mut Vec<LateGroup>) -> Result<(), AllocError>
    ensures { OnOk result (AreGreatestFirst late_group_size late_groups.old.items late_groups.new.items) }
{
    late_groups.sort_by_key(|late_group| Reverse(late_group.late))?;
    Ok(())
}

/// Puts stalls in order, those first in which the most requests were due.
pub fn sort_stalls(stalls: &mut Vec<StallTime>) -> Result<(), AllocError>
    ensures { OnOk result (AreGreatestFirst stall_size stalls.old.items stalls.new.items) }
{
    stalls.sort_by_key(|stall| Reverse(stall.requests))?;
    Ok(())
}

/// Puts windows in order, those first that have the most requests more than they carry.
pub fn sort_windows(windows: &mut Vec<Crowd>) -> Result<(), AllocError>
    ensures { OnOk result (AreGreatestFirst window_size windows.old.items windows.new.items) }
{
    windows.sort_by_key(|window| Reverse(excess(window)))?;
    Ok(())
}

/// The first ones, at most so many.
pub fn first_of<T>(all: &[T], most: u64) -> &[T]
    ensures { result.now ≡ take most all.now }
{
    if most < all.len() as u64 {
        &all[..most as usize]
    } else {
        all
    }
}
