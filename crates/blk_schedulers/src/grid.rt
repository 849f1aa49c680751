//! The settings under which a script is tried, and what is asked of the trial.

ghost use Rattle.std.specs.Prelude.{◌≡◌, ◌<◌, ◌++◌, None, Some, IfOk, IfSome, IfNone, OnOk, OnErr, map};
ghost use Rattle.blk_schedulers.specs.Grids.{with_value, with_values, rows_of_kind, grid_rows, grid_given};
ghost use Rattle.blk_schedulers.specs.Lists.{list_fault};

use crate::given::Given;
use crate::lists::{ListFault, Tried, numbers_at, tried_given};
use crate::rows::{SchedKind, tried_kinds};
use crate::sched::Sched;
use crate::setting::MAX_SETTINGS;
use std::alloc::{AllocError, Global};

/// What the rows are ordered by first.
#[derive(Clone, Copy, Debug, PartialEq, Eq)]
pub enum RankBy {
    /// By how many late commands could have been on time.
    Misses,
    /// By how much later the latest command was than it had to be.
    Lateness,
}

/// What is asked of a trial.
#[derive(Debug, Drop)]
pub struct TrialAsked {
    /// Under what the script runs: schedulers with their settings, in the order in which they are tried.
    pub grid: Vec<Sched>,
    /// What its rows are ordered by first.
    pub by: RankBy,
    /// How many of them are shown at most, the best ones; without it all are.
    pub top: Option<u64>,
    /// How many runs go side by side at most; without it as many as there are processors, 16 at most. 0 counts as 1.
    pub threads: Option<u64>,
}

/// Adds a scheduler once for each of these values of the setting in a place.
fn push_values(
    all: &mut Vec<Sched>,
    sched: Sched,
    place: usize,
    numbers: &[u64],
) -> Result<(), AllocError>
    requires { place < MAX_SETTINGS }
    ensures { OnOk result (all.new.items ≡ all.old.items ++ map (with_value place sched) numbers.now) }
{
    for number in numbers {
        let mut values = sched.values;
        values[place] = *number;
        all.push(Sched {
            kind: sched.kind,
            values,
        })?;
    }
    Ok(())
}

/// These schedulers, each once for each of these values of the setting in a place.
fn with_values(
    alloc: Global,
    scheds: &[Sched],
    place: usize,
    numbers: &[u64],
) -> Result<Vec<Sched>, AllocError>
    requires { place < MAX_SETTINGS }
    ensures { IfOk result (λ all. all.items ≡ with_values numbers.now place scheds.now) }
{
    let mut all = Vec::new(alloc);
    for sched in scheds {
        push_values(&mut all, *sched, place, numbers)?;
    }
    Ok(all)
}

/// A scheduler once for each choice of values of its settings, the last one's changing first.
#[tactic(auto, using(crate::proofs::Tries::fold_places))]
fn rows_of_kind<G: Given>(
    alloc: Global,
    options: &G,
    kind: SchedKind,
) -> Result<Vec<Sched>, AllocError>
    ensures { IfOk result (λ all. all.items ≡ rows_of_kind (G.given options.now) kind) }
{
    let settings = kind.row().settings;
    let mut all = vec![in alloc;
        Sched {
            kind,
            values: [0; MAX_SETTINGS]
        },
    ]?;
    for place in 0..MAX_SETTINGS {
        let numbers = numbers_at(options, settings, place);
        all = with_values(alloc, all.as_slice(), place, numbers.as_slice())?;
    }
    Ok(all)
}

/// These schedulers, each with the settings that the options list, in the order of trials.
fn grid_rows<G: Given>(alloc: Global, options: &G, tried: Tried) -> Result<Vec<Sched>, AllocError>
    ensures { IfOk result (λ all. all.items ≡ grid_rows (G.given options.now) tried) }
{
    let kinds = tried_kinds(alloc)?;
    let mut all = Vec::new(alloc);
    for kind in &kinds {
        if tried[kind.place()] {
            let mut rows = rows_of_kind(alloc, options, *kind)?;
            all.append(&mut rows)?;
        }
    }
    Ok(all)
}

/// The schedulers that the options list, each with its settings, in the order of trials; None where an option is given no list.
pub fn grid_given<G: Given>(alloc: Global, options: &G) -> Result<Option<Vec<Sched>>, AllocError>
    ensures grid { IfOk result (λ o. IfSome o (λ all. grid_given (G.given options.now) ≡ Some all.items)) }
    ensures none { IfOk result (λ o. IfNone o (grid_given (G.given options.now) ≡ None)) }
    ensures listed { OnErr result (list_fault (G.given options.now) ≡ None) }
{
    if ListFault::first(options).is_some() {
        return Ok(None);
    }
    let Some(tried) = tried_given(options) else {
        unreachable!()
    };
    let rows = grid_rows(alloc, options, tried)?;
    Ok(Some(rows))
}
