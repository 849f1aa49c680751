//! How many of the numbers at some places of a list are below a bound, for many places and bounds at once.

ghost use Rattle.std.specs.Prelude.{◌≡◌, ◌≤◌, ◌+◌, IfOk, All, length, map};
ghost use Rattle.edd_commands.specs.declared.TheConstants.{MAX_COMMANDS};
ghost use Rattle.blk_report.specs.Inside.Below.{AreBelow, halves, half_of, answer_of, IsAskWithin};

use std::alloc::{AllocError, Allocator};

/// Of the numbers from one place on and before another: how many are below a bound?
#[derive(Clone, Copy, Debug, PartialEq, Eq)]
pub(crate) struct CountAsk {
    /// The first place.
    pub(crate) start: usize,
    /// The place after the last one.
    pub(crate) end: usize,
    /// What the numbers are to be below.
    pub(crate) bound: u64,
    /// How many were counted.
    pub(crate) count: usize,
}

/// For each place, and for the end, how many of the numbers before it are below the pivot.
fn counts_below<A: Allocator>(
    alloc: A,
    numbers: &[u64],
    pivot: u64,
) -> Result<Vec<usize, A>, AllocError>
    ensures { IfOk result (λ v. AreBelow numbers.now pivot v.items) }
{
    let mut counts = Vec::new(alloc);
    let mut count = 0;
    for number in numbers {
        counts.push(count)?;
        if *number < pivot {
            count += 1;
        }
    }
    counts.push(count)?;
    Ok(counts)
}

/// The numbers below the pivot, and behind them the others less the pivot.
fn halved<A: Allocator>(alloc: A, numbers: &[u64], pivot: u64) -> Result<Vec<u64, A>, AllocError>
    ensures { IfOk result (λ v. v.items ≡ halves pivot numbers.now) }
{
    let mut halves: Vec<u64, A> = numbers
        .iter()
        .copied()
        .filter(|number| *number < pivot)
        .collect(alloc)?;
    for number in numbers {
        if pivot <= *number {
            halves.push(*number - pivot)?;
        }
    }
    Ok(halves)
}

/// What is left to ask of the halves.
fn half_of(ask: CountAsk, numbers: &[u64], counts: &[usize], pivot: u64) -> CountAsk
    requires counts { AreBelow numbers.now pivot counts.now }
    requires few { length numbers.now ≤ MAX_COMMANDS }
    requires ask { IsAskWithin numbers.now (pivot + pivot) ask }
    ensures { result ≡ half_of numbers.now pivot ask }
{
    let start = counts[ask.start];
    let end = counts[ask.end];
    if ask.bound < pivot {
        CountAsk { start, end, ..ask }
    } else {
        let low = counts[numbers.len()];
        CountAsk {
            start: low + (ask.start - start),
            end: low + (ask.end - end),
            bound: ask.bound - pivot,
            count: ask.count + (end - start),
        }
    }
}

/// The same of each.
fn halves_of<A: Allocator>(
    alloc: A,
    asks: &[CountAsk],
    numbers: &[u64],
    counts: &[usize],
    pivot: u64,
) -> Result<Vec<CountAsk, A>, AllocError>
    requires counts { AreBelow numbers.now pivot counts.now }
    requires few { length numbers.now ≤ MAX_COMMANDS }
    requires asks { All (IsAskWithin numbers.now (pivot + pivot)) asks.now }
    ensures { IfOk result (λ v. v.items ≡ map (half_of numbers.now pivot) asks.now) }
{
    let mut halves = Vec::new(alloc);
    for ask in asks {
        halves.push(half_of(*ask, numbers, counts, pivot))?;
    }
    Ok(halves)
}

/// Answers such questions, with bounds up to a limit. Each step halves the limit: the numbers are parted by a pivot in its
/// middle, and each question goes on in one of the parts. So the time grows as the number of numbers and questions times the
/// binary digits of the limit.
pub(crate) fn count_below<A: Allocator + Clone>(
    numbers: Vec<u64, A>,
    asks: &[CountAsk],
    limit: u64,
) -> Result<Vec<CountAsk, A>, AllocError>
    requires few { length numbers.items ≤ MAX_COMMANDS }
    requires asks { All (IsAskWithin numbers.items limit) asks.now }
    ensures { IfOk result (λ v. map (λ a. a.count) v.items ≡ map (answer_of numbers.items) asks.now) }
{
    let mut numbers = numbers;
    let mut left = Vec::from_slice(numbers.allocator().clone()?, asks)?;
    let mut limit = limit;
    while limit > 0 {
        let pivot = limit - limit / 2;
        let counts = counts_below(numbers.allocator().clone()?, numbers.as_slice(), pivot)?;
        left = halves_of(
            numbers.allocator().clone()?,
            left.as_slice(),
            numbers.as_slice(),
            counts.as_slice(),
            pivot,
        )?;
        numbers = halved(numbers.allocator().clone()?, numbers.as_slice(), pivot)?;
        limit /= 2;
    }
    Ok(left)
}
