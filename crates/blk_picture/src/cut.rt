//! Which rounds of long traces are drawn: those in which a late request waits or goes out.

ghost use Rattle.std.specs.Prelude.{◌≡◌, ◌≤◌, ◌<◌, ◌^◌, IfOk, count_by};
ghost use Rattle.blk_picture.specs.declared.scale.TheConstants.{MAX_TAG_TALL};
ghost use Rattle.blk_picture.specs.Scales.{IsScaled};
ghost use Rattle.blk_picture.specs.Cuts.{is_cut};

use crate::columns::is_late;
use crate::scale::{MAX_COLUMNS, MAX_SHOWN, STEPS, Scale, per_of};
use crate::template::push_template;
use crate::words::CUT;
use blk_report::Service;
use std::alloc::{AllocError, Global};
use text_output::Draft;

/// How many late requests come in and go out in each round, of several traces.
#[derive(Drop)]
pub(crate) struct LateWaits {
    came: Vec<u32>,
    went: Vec<u32>,
}

/// Counts one more in a round, where there is such a round.
fn count_in(counts: &mut Vec<u32>, round: usize) {
    if round < counts.len() {
        counts[round] = counts[round].saturating_add(1);
    }
}

impl LateWaits {
    /// Those of no trace, of so many rounds.
    pub(crate) fn new(alloc: Global, rounds: u32) -> Result<LateWaits, AllocError> {
        let mut came = Vec::new(alloc);
        came.resize(rounds as usize, 0)?;
        let mut went = Vec::new(alloc);
        went.resize(rounds as usize, 0)?;
        Ok(LateWaits { came, went })
    }

    /// With those of another trace, whose boxes are these.
    pub(crate) fn add(&mut self, boxes: &[Service]) {
        for issued in boxes {
            if !issued.back && is_late(issued) {
                count_in(&mut self.came, issued.release as usize);
                count_in(&mut self.went, issued.issue as usize);
            }
        }
    }

    /// The rounds in which one waits or goes out.
    fn rounds(&self, alloc: Global) -> Result<Vec<u32>, AllocError> {
        let mut rounds = Vec::new(alloc);
        let mut waits: u32 = 0;
        let mut number: u32 = 0;
        for round in 0..self.came.len() {
            waits = waits.saturating_add(self.came[round]);
            if waits > 0 {
                rounds.push(number)?;
            }
            if let Some(went) = self.went.get(round) {
                waits = waits.saturating_sub(*went);
            }
            number = number.saturating_add(1);
        }
        Ok(rounds)
    }
}

/// The columns that these rounds stand in, or as many of them as are one too many.
fn kept_columns(alloc: Global, rounds: &[u32], per: u32) -> Result<Vec<u32>, AllocError> {
    let mut kept = Vec::new(alloc);
    let mut next = 0;
    for round in rounds {
        let column = *round / per.max(1);
        if next <= column && kept.len() <= MAX_SHOWN {
            kept.push(column)?;
            next = column.saturating_add(1);
        }
    }
    Ok(kept)
}

/// The scale of traces of so many rounds and tags whose late requests wait so: that of all rounds where these are few or nothing is late, and
/// else that by which the fewest rounds stand in a column and the columns in which a late one waits or goes out are few enough. These are drawn.
pub(crate) fn chosen(
    alloc: Global,
    rounds: u32,
    deep: u32,
    late: &LateWaits,
) -> Result<Scale, AllocError>
    requires { rounds ≤ 2 ^ 30 }
    ensures scaled { IfOk result (λ s. IsScaled rounds deep s) }
    ensures deep { IfOk result (λ s. s.deep ≡ deep) }
    ensures some { IfOk result (λ s. 0 < s.per) }
    ensures low { IfOk result (λ s. s.tall ≤ MAX_TAG_TALL) }
{
    if rounds <= MAX_COLUMNS {
        return Ok(Scale::of(rounds, deep));
    }
    let most = per_of(rounds);
    let rounds_kept = late.rounds(alloc)?;
    for step in &STEPS {
        let kept = kept_columns(alloc, rounds_kept.as_slice(), *step)?;
        let fits = kept.len() <= MAX_SHOWN && !kept.is_empty();
        if fits && 0 < *step && *step < most {
            return Ok(Scale::cut(rounds, deep, *step, kept.as_slice()));
        }
    }
    Ok(Scale::of(rounds, deep))
}

/// Whether it was late and stands in a column that isn't drawn.
fn is_cut(scale: &Scale, issued: &Service) -> bool
    ensures { result ≡ is_cut scale.now issued.now }
{
    !issued.back && is_late(issued) && !scale.shows(issued.issue / u64::from(scale.per.max(1)))
}

/// How many were.
fn count_cut(scale: &Scale, boxes: &[Service]) -> u64
    ensures { result ≡ count_by (is_cut scale.now) boxes.now }
{
    boxes.iter().filter(|issued| is_cut(scale, *issued)).count() as u64
}

/// Adds how many columns are not drawn, where some aren't, and how many late commands they have.
pub(crate) fn push_cut(
    draft: &mut Draft,
    scale: &Scale,
    boxes: &[Service],
) -> Result<(), AllocError> {
    if !scale.cut {
        return Ok(());
    }
    let away = u64::from(scale.columns.saturating_sub(scale.drawn));
    let late = count_cut(scale, boxes);
    push_template(
        draft,
        CUT.as_bytes(),
        &[away, u64::from(scale.columns), late],
    )
}
