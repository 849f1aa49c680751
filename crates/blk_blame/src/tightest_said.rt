//! What is said of the least time after which the requests of a direction are due, so that few enough of them are late.

ghost use Rattle.std.specs.Prelude.{◌≡◌, ◌≤◌, IfOk, length};
ghost use Rattle.edd_commands.specs.declared.TheConstants.{MAX_COMMANDS};
ghost use Rattle.blk_capture.specs.Requests.{AreTimed};
ghost use Rattle.blk_blame.specs.TightestSaid.{aim_part, due_part, tightest_parts, IsTightestAnswer};

use crate::answers::{cell, count_behind};
use crate::each_said::dir_value;
use crate::tightest::{OnTimeTarget, OtherDirection, allowed_of, count_of, tightest_of};
use answer::names::{ALLOWED, ALONE, BESIDE, DIR, REQUESTS};
use answer::{Answer, Layout, Line, Part, Word, count_or_none};
use blk_capture::CapturedRequest;
use std::alloc::{AllocError, Global};

/// How many requests of the direction there are, and how many of them may be late.
fn aim_part(
    alloc: Global,
    requests: &[CapturedRequest],
    aim: OnTimeTarget,
) -> Result<Part, AllocError>
    requires { length requests.now ≤ MAX_COMMANDS }
    ensures { IfOk result (λ part. part ≡ aim_part requests.now aim) }
{
    let cells = Vec::from_array(
        alloc,
        [
            cell(Layout::Words(Word::new("")), DIR, dir_value(aim.dir)),
            count_behind(" ", REQUESTS, count_of(requests, aim.dir)),
            count_behind(" requests, of which ", ALLOWED, allowed_of(requests, aim)),
        ],
    )?;
    Ok(Part::Line(Line::new(cells, " may be late\n")))
}

/// After how long they are due, and where that is so.
fn due_part(
    alloc: Global,
    name: &'static str,
    time: Option<u64>,
    where_so: &'static str,
) -> Result<Part, AllocError>
    ensures { IfOk result (λ part. part ≡ due_part name.now time where_so.now) }
{
    let due = cell(
        Layout::Words(Word::new("due after ")),
        name,
        count_or_none(time),
    );
    let cells = Vec::from_array(alloc, [due])?;
    Ok(Part::Line(Line::new(cells, where_so)))
}

/// What is said of these times.
fn aim_answer(
    alloc: Global,
    requests: &[CapturedRequest],
    aim: OnTimeTarget,
    beside: Option<u64>,
    alone: Option<u64>,
) -> Result<Answer, AllocError>
    requires { length requests.now ≤ MAX_COMMANDS }
    ensures { IfOk result (λ answer. answer ≡ tightest_parts requests.now aim beside alone) }
{
    let mut answer = Answer::new(alloc);
    answer.add(aim_part(alloc, requests, aim)?)?;
    answer.add(due_part(
        alloc,
        BESIDE,
        beside,
        " ns, with no more of the others late than have to be\n",
    )?)?;
    answer.add(due_part(alloc, ALONE, alone, " ns, whatever becomes of the others\n")?)?;
    Ok(answer)
}

/// The least times, in nanoseconds, so that enough of a direction's requests can be on time where each is due so long after it came in: where
/// as few of the others are late as in any order, and whatever becomes of these. The requests are as for [`tightest_of`]. Fails only when out of
/// memory.
pub fn tightest_answer(
    alloc: Global,
    requests: &[CapturedRequest],
    aim: OnTimeTarget,
) -> Result<Answer, AllocError>
    requires timed { AreTimed requests.now }
    requires few { length requests.now ≤ MAX_COMMANDS }
    ensures { IfOk result (IsTightestAnswer requests.now aim) }
{
    let beside = tightest_of(alloc, requests, aim, OtherDirection::Best)?;
    let alone = tightest_of(alloc, requests, aim, OtherDirection::Any)?;
    let answer = aim_answer(alloc, requests, aim, beside, alone)?;
    Ok(answer)
}
