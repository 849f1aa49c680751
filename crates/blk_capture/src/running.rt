//! Records that are matched one by one, of which none is kept.

ghost use Rattle.std.specs.Prelude.{◌≡◌, ◌+◌, ◌++◌, ◌∷◌, ◌≤◌, ◌<◌, ◌^◌, [], cond, IfOk, OnOk};
ghost use Rattle.blk_capture.specs.Running.{is_merge, fate_so_far, run_time, run_count, run_options, IsSteady, HasTaken, TakesNext, SumsUpRun};

use crate::fates::Fate;
use crate::matching::{Matching, Role};
use crate::record::{Action, Record};
use crate::requests::Options;
use crate::summary::{MAX_STREAMED, Summary};
use crate::taken::{count_taken, figures_in_part};
use std::alloc::{AllocError, Allocator, Global};

/// Records of a capture that are matched as they come. Their bios and requests are kept, and of the records themselves only what those of a
/// merge are of.
#[derive(Drop)]
pub struct Running<A: Allocator = Global> {
    matching: Matching<A>,
    /// What each record of a merge is of.
    merges: Vec<Role, A>,
    /// How many records there were.
    count: u64,
}

/// Records that were matched one by one, in numbers.
#[derive(Clone, Copy, Debug, PartialEq, Eq)]
pub struct RunSummary {
    /// The figures of the requests that are taken, and how many records there are.
    pub summary: Summary,
    /// How many of the other requests weren't merged into others.
    pub left_out: u64,
}

/// Whether an action is that of a merge.
fn is_merge(action: Action) -> bool
    ensures { result ≡ is_merge action }
{
    action.place() == 2 || action.place() == 3
}

/// Keeps what a record of a merge is of.
fn keep_merge<A: Allocator>(
    merges: &mut Vec<Role, A>,
    action: Action,
    role: Role,
) -> Result<(), AllocError>
    ensures { OnOk result (merges.new.items ≡ cond (is_merge action) (merges.old.items ++ role ∷ []) merges.old.items) }
{
    if is_merge(action) {
        merges.push(role)?;
    }
    Ok(())
}

/// What is known at once of what becomes of a record: one that is matched may be of a request that is taken in the end.
fn fate_so_far(role: Role) -> Fate
    ensures { result ≡ fate_so_far role }
{
    match role {
        Role::Bio(_) | Role::Request(_) => Fate::LeftOut,
        Role::Unmatched => Fate::Unmatched,
        Role::PassedOver(kind) => Fate::PassedOver(kind),
    }
}

impl<A: Allocator + Clone> Running<A> {
    /// No record yet. Fails only when out of memory.
    pub fn new(alloc: A, options: &Options) -> Result<Running<A>, AllocError>
        ensures ready { IfOk result IsSteady }
        ensures taken { IfOk result (HasTaken [] []) }
        ensures options { IfOk result (λ r. run_options r ≡ options.now) }
        ensures now { IfOk result (λ r. run_time r ≡ 0) }
        ensures count { IfOk result (λ r. run_count r ≡ 0) }
    {
        Ok(Running {
            matching: Matching::new(alloc.clone()?, options)?,
            merges: Vec::new(alloc),
            count: 0,
        })
    }

    /// Takes in one record more, which is no earlier than those before it, by the rules of the crate's page. Answers what is known at once of
    /// what becomes of it: whether it is unmatched or passed over; any other is left out so far. Fails only when out of memory.
    pub fn take(&mut self, next: &Record) -> Result<Fate, AllocError>
        requires ready { IsSteady self.old }
        requires time { run_time self.old ≤ next.now.time }
        requires few { run_count self.old < 2 ^ 63 }
        ensures ready { OnOk result (IsSteady self.new) }
        ensures taken { TakesNext self.old self.new next.now result }
        ensures options { OnOk result (run_options self.new ≡ run_options self.old) }
        ensures now { OnOk result (run_time self.new ≡ next.now.time) }
        ensures count { OnOk result (run_count self.new ≡ run_count self.old + 1) }
    {
        self.matching.set_time(next.time);
        let role = self.matching.take(self.count, next)?;
        keep_merge(&mut self.merges, next.action, role)?;
        self.count += 1;
        Ok(fate_so_far(role))
    }

    /// The figures of the records, of the requests that went out at `begin` or later, and of these of at most `first`, those that went out
    /// first. What was matched of bios is given back before the figures are made. At most [`crate::MAX_STREAMED`] records. Fails only when out
    /// of memory. The time grows as n log n.
    pub fn summary(self, alloc: A, begin: u64, first: u64) -> Result<RunSummary, AllocError>
        requires ready { IsSteady self }
        requires few { run_count self ≤ MAX_STREAMED }
        ensures { SumsUpRun begin first self result }
    {
        let Running {
            matching,
            merges,
            count,
        } = self;
        let taken = count_taken(alloc.clone()?, &matching, merges.as_slice(), begin, first)?;
        drop(merges);
        let options = matching.options;
        let Matching {
            members,
            clock,
            requests,
            ..
        } = matching;
        drop(members);
        let figures = figures_in_part(
            alloc,
            requests.as_slice(),
            clock.dispatches.as_slice(),
            &options,
            begin,
            first,
        )?;
        Ok(RunSummary {
            summary: figures.summary(count, taken.bios, taken.merges),
            left_out: taken.left_out,
        })
    }
}
