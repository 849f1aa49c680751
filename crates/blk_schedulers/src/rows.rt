//! The table of schedulers, a row of data for each: what it is called, and its settings, with the options that give them and the values
//! that are tried of them. Each row stands in a module of its own, beside the function that makes the scheduler; here are what a row has and
//! the lists of them all.

ghost use Rattle.std.specs.Prelude.{◌≡◌, ◌++◌, ◌≤◌, ◌<◌, IfOk, OnOk, map, length};
ghost use Rattle.blk_schedulers.specs.Made.{fault_of};
ghost use Rattle.blk_schedulers.specs.Row.{sched_row_of};
ghost use Rattle.blk_schedulers.specs.Rows.{row_for, sched_table, sched_place, kinds_at, tried_kinds};

pub mod deadline;
pub mod earliest;
pub mod kyber;
pub mod none;

use crate::sched::{Sched, SchedFault};
use crate::setting::MAX_SETTINGS;
use std::alloc::{AllocError, Global};

/// A scheduler, whatever its settings.
#[derive(Clone, Copy, Debug, PartialEq, Eq)]
pub enum SchedKind {
    /// `none`: in the order of entry.
    None,
    /// `deadline`: by sectors within a batch, and by due rounds between batches.
    Deadline,
    /// `kyber`: by turns of reads and writes, within limits on what is in flight.
    Kyber,
    /// `earliest`: by due rounds alone.
    Earliest,
}

/// The numbers that are tried of a setting.
#[derive(Clone, Copy)]
pub struct ListRow {
    /// Those that are tried where the option lists none: numbers with commas between.
    pub default: &'static str,
    /// What help says of the option.
    pub help: &'static str,
}

/// What a setting may be.
#[derive(Clone, Copy)]
pub enum SettingRange {
    /// A number of 16 bits, with its default.
    Short(&'static str, ListRow),
    /// A number up to the most, with its default.
    UpTo(u64, &'static str, ListRow),
    /// On or off: its option is a flag that sets it to this. Both are tried.
    Switch(bool),
    /// One position or each direction's own: a value is 0 or 1. Its option takes a name, with a default.
    Positions(&'static str, ListRow),
}

/// A setting of a scheduler.
#[derive(Clone, Copy)]
pub struct SettingRow {
    /// Its name in tables.
    pub name: &'static str,
    /// The option that sets it, behind two dashes.
    pub option: &'static str,
    /// What help says of that option.
    pub help: &'static str,
    /// What it may be.
    pub range: SettingRange,
}

/// The flag that adds a scheduler to those that are compared.
#[derive(Clone, Copy)]
pub struct FlagRow {
    /// Its name, behind two dashes.
    pub name: &'static str,
    /// What help says of it.
    pub help: &'static str,
}

/// A scheduler's row.
#[derive(Clone, Copy)]
pub struct SchedRow {
    /// Which scheduler it is.
    pub kind: SchedKind,
    /// Its name, on the command line and in tables.
    pub name: &'static str,
    /// The flag that adds it to the schedulers that are compared. One without is always compared.
    pub flag: Option<FlagRow>,
    /// Its place in the order of trials, below [`SCHED_COUNT`].
    pub tried: usize,
    /// Its settings, [`MAX_SETTINGS`] at most, in the order in which they are written.
    pub settings: &'static [SettingRow],
}

/// How many schedulers there are.
pub const SCHED_COUNT: usize = 4;

/// The rows, in the order in which schedulers are named and compared.
static ROWS: [SchedRow; SCHED_COUNT] = [none::ROW, deadline::ROW, kyber::ROW, earliest::ROW];

/// Makes the scheduler of a [`Sched`](crate::Sched), for a device of this depth, 1 to [`blk_sched::MAX_OPEN`], and hands these settings and what
/// came of it (a `Result` of the kind's own type, with a [`SchedFault`]) to an expression by the two names that stand before it. A macro, since
/// a scheduler has a type of its own, so what goes on with it is a generic function, whose bounds (as `Send`) are those of the caller.
#[macro_export]
macro_rules! with_made {
    ($sched:expr, $alloc:expr, $depth:expr, ($own:ident, $made:ident) => $then:expr) => {{
        let $own = $sched;
        match $own.kind {
            $crate::SchedKind::None => {
                let $made = $crate::rows::none::make($alloc, $own, $depth);
                $then
            }
            $crate::SchedKind::Deadline => {
                let $made = $crate::rows::deadline::make($alloc, $own, $depth);
                $then
            }
            $crate::SchedKind::Kyber => {
                let $made = $crate::rows::kyber::make($alloc, $own, $depth);
                $then
            }
            $crate::SchedKind::Earliest => {
                let $made = $crate::rows::earliest::make($alloc, $own, $depth);
                $then
            }
        }
    }};
}

/// All rows, in the order in which schedulers are named and compared.
pub(crate) fn rows() -> &'static [SchedRow]
    ensures rows { map sched_row_of result.now ≡ sched_table }
    ensures count { length result.now ≡ SCHED_COUNT }
{
    ROWS.as_slice()
}

/// Adds the schedulers of this place in the order of trials.
fn push_tried(kinds: &mut Vec<SchedKind>, place: usize) -> Result<(), AllocError>
    ensures { OnOk result (kinds.new.items ≡ kinds.old.items ++ kinds_at place) }
{
    for row in rows() {
        if row.tried == place {
            kinds.push(row.kind)?;
        }
    }
    Ok(())
}

/// The schedulers in the order of trials, none of them left out.
pub(crate) fn tried_kinds(alloc: Global) -> Result<Vec<SchedKind>, AllocError>
    ensures kinds { IfOk result (λ kinds. kinds.items ≡ tried_kinds) }
    ensures each { IfOk result (λ kinds. length kinds.items ≡ SCHED_COUNT) }
{
    let mut kinds = Vec::new(alloc);
    for place in 0..SCHED_COUNT {
        push_tried(&mut kinds, place)?;
    }
    Ok(kinds)
}

impl Sched {
    /// What is wrong with its settings, by the check of its policy. Nothing else is looked at, so it is never `Memory`.
    pub fn fault(&self) -> Option<SchedFault>
        ensures { result ≡ fault_of self.now }
    {
        match self.kind {
            SchedKind::None | SchedKind::Earliest => None,
            SchedKind::Deadline => deadline::fault(self),
            SchedKind::Kyber => kyber::fault(self),
        }
    }
}

impl SchedKind {
    /// Its place in the table.
    pub fn place(self) -> usize
        ensures place { result ≡ sched_place self }
        ensures range { result < SCHED_COUNT }
    {
        self as usize
    }

    /// Its row.
    pub fn row(self) -> &'static SchedRow
        ensures row { sched_row_of result.now ≡ row_for self }
        ensures few { length result.now.settings.now ≤ MAX_SETTINGS }
    {
        &ROWS[self.place()]
    }
}
