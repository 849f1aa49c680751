//! What is said of what the late requests of a capture are blamed on.

ghost use Rattle.std.specs.Prelude.{◌≡◌, ◌≤◌, ◌∷◌, [], IfOk, length};
ghost use Rattle.edd_commands.specs.declared.TheConstants.{MAX_COMMANDS};
ghost use Rattle.blk_capture.specs.Requests.{AreTimed};
ghost use Rattle.blk_blame.specs.Account.{IsBlameAccount};
ghost use Rattle.blk_blame.specs.Blamed.{AreGroups, AreWorstBy, AreWorst, AreFindings, blame_parts, IsBlameAnswer, IsEachAnswer};

use crate::account::{Account, account_of};
use crate::answers::{add_stalls, add_totals, add_windows};
use crate::each::lates_of;
use crate::each_said::add_each;
use crate::grouped::GroupedBy;
use crate::groups::{Group, group_of};
use crate::groups_said::add_groups;
use crate::late_groups::{LateGroup, late_groups_of};
use crate::stages::{StageRow, stages_of};
use crate::stages_said::add_stages;
use crate::top::{first_of, sort_late_groups, sort_stalls, sort_windows};
use crate::totals::{Totals, totals_of};
use answer::Answer;
use blk_capture::{CapturedRequest, completions_of};
use edd_blame::StallTime;
use edd_figures::Crowd;
use std::alloc::{AllocError, Global};

/// What is found of a capture.
#[derive(Debug, Drop)]
pub struct Findings {
    /// What its late requests are blamed on.
    pub account: Account,
    /// It as a whole.
    pub totals: Totals,
    /// How long requests were in each stage, by direction.
    pub stages: Vec<StageRow>,
    /// The processes, or the processors, that have the most late requests, at most so many, where they are asked for.
    pub groups: Vec<Group>,
    /// Its stalls, the greatest first.
    pub stalls: Vec<StallTime>,
    /// Its crowded windows, the greatest first.
    pub windows: Vec<Crowd>,
}

/// What the late requests of these processes, or processors, are blamed on.
fn groups_of(
    alloc: Global,
    by: GroupedBy,
    requests: &[CapturedRequest],
    account: &Account,
    late_groups: &[LateGroup],
) -> Result<Vec<Group>, AllocError>
    requires account { IsBlameAccount requests.now account.now }
    requires few { length requests.now ≤ MAX_COMMANDS }
    ensures { IfOk result (λ v. AreGroups by requests.now account.now late_groups.now v.items) }
{
    let mut groups = Vec::with_capacity(alloc, late_groups.len())?;
    for late_group in late_groups {
        groups.push(group_of(alloc, by, requests, account, *late_group)?)?;
    }
    Ok(groups)
}

/// The same of those that have the most late ones, at most so many.
fn worst_by(
    alloc: Global,
    by: GroupedBy,
    most: u64,
    requests: &[CapturedRequest],
    account: &Account,
) -> Result<Vec<Group>, AllocError>
    requires account { IsBlameAccount requests.now account.now }
    requires few { length requests.now ≤ MAX_COMMANDS }
    ensures { IfOk result (λ v. AreWorstBy by most requests.now account.now v.items) }
{
    let mut late_groups = late_groups_of(alloc, by, requests)?;
    sort_late_groups(&mut late_groups)?;
    let groups = groups_of(
        alloc,
        by,
        requests,
        account,
        first_of(late_groups.as_slice(), most),
    )?;
    Ok(groups)
}

/// The same where they are asked for.
fn worst_of(
    alloc: Global,
    by: Option<GroupedBy>,
    most: u64,
    requests: &[CapturedRequest],
    account: &Account,
) -> Result<Vec<Group>, AllocError>
    requires account { IsBlameAccount requests.now account.now }
    requires few { length requests.now ≤ MAX_COMMANDS }
    ensures { IfOk result (λ v. AreWorst by most requests.now account.now v.items) }
{
    match by {
        Some(by) => worst_by(alloc, by, most, requests, account),
        None => Ok(Vec::new(alloc)),
    }
}

/// What is found of these requests, and, where they are asked for, of the processes or processors that have the most late ones, at most so many.
/// The requests are as [`blk_capture::match_records`] gives them, at most [`edd_commands::MAX_COMMANDS`] of them. Fails only when out of
/// memory. The time grows as n log n, once more for each of these processes or processors.
pub fn findings_of(
    alloc: Global,
    by: Option<GroupedBy>,
    most: u64,
    requests: &[CapturedRequest],
) -> Result<Findings, AllocError>
    requires timed { AreTimed requests.now }
    requires few { length requests.now ≤ MAX_COMMANDS }
    ensures { IfOk result (AreFindings by most requests.now) }
{
    let account = account_of(alloc, requests)?;
    let totals = totals_of(alloc, requests)?;
    let stages = stages_of(alloc, requests)?;
    let groups = worst_of(alloc, by, most, requests, &account)?;
    let mut stalls = Vec::from_slice(alloc, account.blame.stalls.as_slice())?;
    sort_stalls(&mut stalls)?;
    let mut windows = Vec::from_slice(alloc, account.blame.misses.windows.as_slice())?;
    sort_windows(&mut windows)?;
    Ok(Findings {
        account,
        totals,
        stages,
        groups,
        stalls,
        windows,
    })
}

/// What is said of that: of at most so many stalls and windows.
fn findings_answer(
    alloc: Global,
    by: Option<GroupedBy>,
    most: u64,
    begin: u64,
    requests: &[CapturedRequest],
    found: &Findings,
) -> Result<Answer, AllocError>
    requires { AreTimed requests.now }
    ensures { IfOk result (λ a. a ≡ blame_parts by most begin requests.now found.now) }
{
    let mut answer = Answer::new(alloc);
    let completions = completions_of(alloc, requests)?;
    let blame = &found.account.blame;
    let stalls = first_of(found.stalls.as_slice(), most);
    let windows = first_of(found.windows.as_slice(), most);
    add_totals(
        &mut answer,
        alloc,
        &found.totals,
        blame.misses.counts,
        blame.reasons,
    )?;
    add_stages(&mut answer, alloc, found.stages.as_slice())?;
    add_groups(&mut answer, alloc, by, found.groups.as_slice())?;
    add_stalls(
        &mut answer,
        alloc,
        begin,
        requests,
        completions.as_slice(),
        stalls,
    )?;
    add_windows(&mut answer, alloc, begin, requests, windows)?;
    Ok(answer)
}

/// What the late ones of these requests are blamed on: how many were late and had to be, by what and by how much, the stages, the processes or
/// processors that have the most late ones, where they are asked for, and the greatest stalls and crowded windows, at most `most` of each, with
/// times from `begin` on, which mostly is that of the capture's first record. The requests are as for [`findings_of`]. Fails only when out of
/// memory.
pub fn blame_answer(
    alloc: Global,
    by: Option<GroupedBy>,
    most: u64,
    begin: u64,
    requests: &[CapturedRequest],
) -> Result<Answer, AllocError>
    requires timed { AreTimed requests.now }
    requires few { length requests.now ≤ MAX_COMMANDS }
    ensures { IfOk result (IsBlameAnswer by most begin requests.now) }
{
    let found = findings_of(alloc, by, most, requests)?;
    let answer = findings_answer(alloc, by, most, begin, requests, &found)?;
    Ok(answer)
}

/// The late ones of these requests, in the order of their dispatches, each with why it was late, with times from `begin` on. The requests are
/// as for [`findings_of`]. Fails only when out of memory. The time grows as n log n.
pub fn each_answer(
    alloc: Global,
    begin: u64,
    requests: &[CapturedRequest],
) -> Result<Answer, AllocError>
    requires timed { AreTimed requests.now }
    requires few { length requests.now ≤ MAX_COMMANDS }
    ensures { IfOk result (IsEachAnswer begin requests.now) }
{
    let account = account_of(alloc, requests)?;
    let commands = account.counted.commands.as_slice();
    let lates = lates_of(alloc, commands, requests, account.causes.as_slice())?;
    let completions = completions_of(alloc, requests)?;
    let mut answer = Answer::new(alloc);
    add_each(
        &mut answer,
        alloc,
        begin,
        requests,
        completions.as_slice(),
        lates.as_slice(),
    )?;
    Ok(answer)
}
