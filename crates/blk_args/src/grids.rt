//! The grids that arguments ask for, which are read once more.

ghost use Rattle.std.specs.Prelude.{◌≡◌, IfOk, IfErr, Some, None, map, string_bytes};
ghost use Rattle.blk_schedulers.specs.Grids.{grid_given};
ghost use Rattle.blk_args.specs.Asked.{given_options, AsksGrid, AsksNoGrid, plans_by_options, AsksPlans, AsksNoPlans};
ghost use Rattle.blk_args.specs.Inside.Options.{given};

use crate::command::{Names, blk_command};
use crate::option_names;
use crate::replaying::{ReplayOptions, times_given};
use crate::words::MatchedOptions;
use blk_schedulers::grid::grid_given;
use blk_schedulers::options::{position_names, scheduler_names, tried_names};
use blk_schedulers::plans::plans_tried;
use blk_schedulers::{Given, Plan, Sched};
use clap::ArgMatches;
use clap::error::ErrorKind;
use std::alloc::{AllocError, Global};

/// Why there is no grid.
#[derive(Clone, Copy, Debug, PartialEq, Eq)]
pub enum NoGrid {
    /// Memory ran out.
    Memory,
    /// The arguments ask for none: they are no command line of the program, or an option that lists what is tried is given no list.
    Nothing,
}

/// The grid that options ask for.
fn grid_by<G: Given>(alloc: Global, options: &G) -> Result<Vec<Sched>, NoGrid>
    ensures grid { IfOk result (λ g. grid_given (G.given options.now) ≡ Some g.items) }
    ensures none { IfErr result (λ n. n ≡ NoGrid.Nothing → grid_given (G.given options.now) ≡ None) }
{
    match grid_given(alloc, options) {
        Ok(Some(grid)) => Ok(grid),
        Ok(None) => Err(NoGrid::Nothing),
        Err(AllocError) => Err(NoGrid::Memory),
    }
}

/// The grid that the options of `tune` ask for.
fn grid_of(alloc: Global, options: &ArgMatches<'_>) -> Result<Vec<Sched>, NoGrid>
    ensures grid { IfOk result (λ g. grid_given (given_options (given options.now)) ≡ Some g.items) }
    ensures none { IfErr result (λ n. n ≡ NoGrid.Nothing → grid_given (given_options (given options.now)) ≡ None) }
{
    grid_by(alloc, &MatchedOptions { matches: options })
}

/// The grid that the arguments of a trial ask for, which are read once more.
pub fn grid_asked(alloc: Global, words: &[String]) -> Result<Vec<Sched>, NoGrid>
    ensures asked { IfOk result (λ g. AsksGrid (map string_bytes words.now) g.items) }
    ensures none { IfErr result (λ n. n ≡ NoGrid.Nothing → AsksNoGrid (map string_bytes words.now)) }
{
    let Ok(scheds) = scheduler_names(alloc) else {
        return Err(NoGrid::Memory);
    };
    let Ok(positions) = position_names(alloc) else {
        return Err(NoGrid::Memory);
    };
    let Ok(tried) = tried_names(alloc) else {
        return Err(NoGrid::Memory);
    };
    let names = Names {
        scheds: scheds.as_slice(),
        positions: positions.as_slice(),
    };
    let Ok(command) = blk_command(alloc, names, tried.as_str()) else {
        return Err(NoGrid::Memory);
    };
    match command.try_get_matches_from(words) {
        Ok(matches) => match matches.subcommand() {
            Some((_, options)) => grid_of(alloc, options),
            None => Err(NoGrid::Nothing),
        },
        Err(error) => match error.kind() {
            ErrorKind::OutOfMemory => Err(NoGrid::Memory),
            _ => Err(NoGrid::Nothing),
        },
    }
}

/// The replays of the grid that the options of `replay` ask for.
fn plans_of(alloc: Global, options: &ArgMatches<'_>) -> Result<Vec<Plan>, NoGrid>
    ensures plans { IfOk result (λ p. plans_by_options (given options.now) ≡ Some p.items) }
    ensures none { IfErr result (λ n. n ≡ NoGrid.Nothing → plans_by_options (given options.now) ≡ None) }
{
    let reads = match times_given(options, option_names::FIFO_READ_EXPIRE) {
        Some(reads) => reads,
        None => return Err(NoGrid::Nothing),
    };
    let writes = match times_given(options, option_names::FIFO_WRITE_EXPIRE) {
        Some(writes) => writes,
        None => return Err(NoGrid::Nothing),
    };
    let asked = ReplayOptions {
        matches: options,
        is_grid: true,
    };
    let grid = grid_by(alloc, &asked)?;
    match plans_tried(alloc, grid.as_slice(), reads.as_slice(), writes.as_slice()) {
        Ok(plans) => Ok(plans),
        Err(_) => Err(NoGrid::Memory),
    }
}

/// The replays of the grid that the arguments of `replay --grid` ask for, which are read once more.
pub fn plans_asked(alloc: Global, words: &[String]) -> Result<Vec<Plan>, NoGrid>
    ensures asked { IfOk result (λ p. AsksPlans (map string_bytes words.now) p.items) }
    ensures none { IfErr result (λ n. n ≡ NoGrid.Nothing → AsksNoPlans (map string_bytes words.now)) }
{
    let Ok(scheds) = scheduler_names(alloc) else {
        return Err(NoGrid::Memory);
    };
    let Ok(positions) = position_names(alloc) else {
        return Err(NoGrid::Memory);
    };
    let Ok(tried) = tried_names(alloc) else {
        return Err(NoGrid::Memory);
    };
    let names = Names {
        scheds: scheds.as_slice(),
        positions: positions.as_slice(),
    };
    let Ok(command) = blk_command(alloc, names, tried.as_str()) else {
        return Err(NoGrid::Memory);
    };
    match command.try_get_matches_from(words) {
        Ok(matches) => match matches.subcommand() {
            Some((_, options)) => plans_of(alloc, options),
            None => Err(NoGrid::Nothing),
        },
        Err(error) => match error.kind() {
            ErrorKind::OutOfMemory => Err(NoGrid::Memory),
            _ => Err(NoGrid::Nothing),
        },
    }
}
