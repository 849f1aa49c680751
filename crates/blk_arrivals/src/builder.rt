//! The steps that a capture's records make, one record after the other.

ghost use Rattle.std.specs.Prelude.{◌≡◌, ◌⊎◌, ◌≤◌, ◌<◌, ◌+◌, ◌-◌, ◌^◌, ◌++◌, ◌∷◌, [], All, IfOk, IfErr, OnOk, length, max};
ghost use Rattle.std.proofs.Math.ListN.{replicate};
ghost use Rattle.blk_bio.specs.declared.bio.TheConstants.{MAX_END};
ghost use Rattle.blk_bio.specs.declared.limits.TheConstants.{MAX_SOFT_QUEUES};
ghost use Rattle.blk_text.specs.Script.{LineFits};
ghost use Rattle.blk_arrivals.specs.Coming.{begin_of, AreFewSubmitters, ComeInTime};
ghost use Rattle.blk_arrivals.specs.Inside.Effects.{IsRecordEffect};
ghost use Rattle.blk_arrivals.specs.Plugs.{no_plugs, flush_of, flushes, out_of, out_if, turning, turned, room_for, held_with, bio_of, arrival_of, plugs_with, unplugging, unplugged, steps_by, plugs_by, last_steps, all_steps};
ghost use Rattle.blk_arrivals.specs.Inside.Plugs.{plugs_of, IsTooLong};

use crate::coming::{ToldBy, begin_of, round_of_time};
use crate::effects::{RecordEffect, effect_of};
use crate::terms::ArrivalsFault;
use blk_bio::{Bio, BioId, Dir};
use blk_capture::Record;
use blk_queues::MAX_STAGED;
use blk_text::{Line, MAX_STEPS};
use std::alloc::{AllocError, Global};

/// The steps so far, the current round, how many bios came in, and how many stand in each submitter's plug.
#[derive(Drop)]
pub(crate) struct ScriptBuilder {
    lines: Vec<Line>,
    now: u64,
    bios: u64,
    held: Vec<u64>,
}

/// This many empty plugs.
fn empty_plugs(alloc: Global, count: usize) -> Result<Vec<u64>, AllocError>
    ensures { IfOk result (λ held. held.items ≡ replicate count 0) }
{
    let mut held = Vec::new(alloc);
    for _ in 0..count {
        held.push(0)?;
    }
    Ok(held)
}

/// Empties the plugs.
fn empty(held: &mut [u64])
    ensures { held.new ≡ replicate (length held.old) 0 }
{
    for count in held.iter_mut() {
        *count = 0;
    }
}

/// Adds the flush of a plug, where it holds something.
fn push_flush(lines: &mut Vec<Line>, submitter: usize, held: u64) -> Result<(), AllocError>
    requires { submitter < MAX_SOFT_QUEUES }
    ensures { OnOk result (lines.new.items ≡ lines.old.items ++ flush_of submitter held) }
{
    if held == 0 {
        return Ok(());
    }
    lines.push(Line::Flush(submitter as u8))?;
    Ok(())
}

/// Adds the flushes of all plugs that hold something.
fn push_flushes(lines: &mut Vec<Line>, held: &[u64]) -> Result<(), AllocError>
    requires { AreFewSubmitters held.now }
    ensures { OnOk result (lines.new.items ≡ lines.old.items ++ flushes 0 held.now) }
{
    for submitter in 0..held.len() {
        push_flush(lines, submitter, held[submitter])?;
    }
    Ok(())
}

/// Adds the flush of a plug, and a drain.
fn push_out(lines: &mut Vec<Line>, submitter: usize) -> Result<(), AllocError>
    requires { submitter < MAX_SOFT_QUEUES }
    ensures { OnOk result (lines.new.items ≡ lines.old.items ++ out_of submitter) }
{
    lines.push(Line::Flush(submitter as u8))?;
    lines.push(Line::Drain { hw: 0 })?;
    Ok(())
}

/// Adds them where a plug holds as many requests as it may.
fn push_room(lines: &mut Vec<Line>, submitter: usize, held: u64) -> Result<(), AllocError>
    requires { submitter < MAX_SOFT_QUEUES }
    ensures { OnOk result (lines.new.items ≡ lines.old.items ++ room_for submitter held) }
{
    if held < MAX_STAGED as u64 {
        return Ok(());
    }
    push_out(lines, submitter)
}

/// Adds them where a plug holds something.
fn push_unplug(lines: &mut Vec<Line>, submitter: usize, held: u64) -> Result<(), AllocError>
    requires { submitter < MAX_SOFT_QUEUES }
    ensures { OnOk result (lines.new.items ≡ lines.old.items ++ out_if submitter held) }
{
    if held == 0 {
        return Ok(());
    }
    push_out(lines, submitter)
}

/// How many bios a plug holds with one more.
fn held_with(held: u64) -> u64
    ensures { result ≡ held_with held }
{
    if held < MAX_STAGED as u64 {
        held + 1
    } else {
        1
    }
}

/// The bio of a record.
fn bio_of(submitter: usize, number: u64, way: Dir, record: &Record) -> Bio
    requires submitter { submitter < MAX_SOFT_QUEUES }
    requires range { (0 < record.now.sectors) × (record.now.first + record.now.sectors ≤ MAX_END) }
    ensures { result ≡ bio_of submitter number way record.now }
{
    let id = BioId {
        submitter: submitter as u8,
        serial: number,
    };
    match Bio::new(id, way, record.first, record.sectors) {
        Ok(bio) => bio,
        Err(_) => unreachable!(),
    }
}

impl ScriptBuilder {
    /// In round 0, with an empty plug for each submitter.
    fn new(alloc: Global, count: usize) -> Result<ScriptBuilder, AllocError>
        ensures lines { IfOk result (λ builder. builder.lines.items ≡ []) }
        ensures plugs { IfOk result (λ builder. plugs_of builder ≡ no_plugs count) }
    {
        Ok(ScriptBuilder {
            lines: Vec::new(alloc),
            now: 0,
            bios: 0,
            held: empty_plugs(alloc, count)?,
        })
    }

    /// Ends rounds up to the given one, where that is later than the current one.
    fn turn(&mut self, round: u64) -> Result<(), AllocError>
        requires { AreFewSubmitters self.old.held.items }
        ensures lines { OnOk result (self.new.lines.items ≡ self.old.lines.items ++ turning round (plugs_of self.old)) }
        ensures plugs { OnOk result (plugs_of self.new ≡ turned round (plugs_of self.old)) }
    {
        if round <= self.now {
            return Ok(());
        }
        push_flushes(&mut self.lines, self.held.as_slice())?;
        self.lines.push(Line::Run(round - self.now))?;
        self.now = round;
        empty(self.held.as_mut_slice());
        Ok(())
    }

    /// A record brings in a submitter's bio.
    fn arrive(&mut self, submitter: usize, way: Dir, record: &Record) -> Result<(), AllocError>
        requires submitter { submitter < length self.old.held.items }
        requires few { AreFewSubmitters self.old.held.items }
        requires room { self.old.bios < 2 ^ 64 - 1 }
        requires range { (0 < record.now.sectors) × (record.now.first + record.now.sectors ≤ MAX_END) }
        ensures lines { OnOk result (self.new.lines.items ≡ self.old.lines.items ++ arrival_of (plugs_of self.old) submitter way record.now) }
        ensures plugs { OnOk result (plugs_of self.new ≡ plugs_with (plugs_of self.old) submitter) }
    {
        let held = self.held[submitter];
        push_room(&mut self.lines, submitter, held)?;
        let bio = bio_of(submitter, self.bios, way, record);
        self.lines.push(Line::Bio(bio))?;
        self.held[submitter] = held_with(held);
        self.bios += 1;
        Ok(())
    }

    /// The plug of a submitter is flushed, in a round.
    fn unplug(&mut self, round: u64, submitter: usize) -> Result<(), AllocError>
        requires submitter { submitter < length self.old.held.items }
        requires few { AreFewSubmitters self.old.held.items }
        ensures lines { OnOk result (self.new.lines.items ≡ self.old.lines.items ++ unplugging round (plugs_of self.old) submitter) }
        ensures plugs { OnOk result (plugs_of self.new ≡ unplugged round (plugs_of self.old) submitter) }
    {
        if self.now < round {
            return Ok(());
        }
        let held = self.held[submitter];
        push_unplug(&mut self.lines, submitter, held)?;
        self.held[submitter] = 0;
        Ok(())
    }

    /// What a record of a round does.
    fn take(&mut self, round: u64, effect: RecordEffect, record: &Record) -> Result<(), AllocError>
        requires effect { IsRecordEffect (length self.old.held.items) record.now effect }
        requires few { AreFewSubmitters self.old.held.items }
        requires room { self.old.bios < 2 ^ 64 - 1 }
        ensures lines { OnOk result (self.new.lines.items ≡ self.old.lines.items ++ steps_by round (plugs_of self.old) record.now effect) }
        ensures plugs { OnOk result (plugs_of self.new ≡ plugs_by round (plugs_of self.old) effect) }
    {
        match effect {
            RecordEffect::Comes(submitter, way) => {
                self.turn(round)?;
                self.arrive(submitter, way, record)
            }
            RecordEffect::Unplugs(submitter) => self.unplug(round, submitter),
            RecordEffect::Nothing => Ok(()),
        }
    }

    /// At the end of the records.
    fn finish(&mut self) -> Result<(), AllocError>
        requires { AreFewSubmitters self.old.held.items }
        ensures { OnOk result (self.new.lines.items ≡ self.old.lines.items ++ last_steps (plugs_of self.old)) }
    {
        push_flushes(&mut self.lines, self.held.as_slice())?;
        if self.bios != 0 {
            self.lines.push(Line::Run(self.bios))?;
        }
        Ok(())
    }
}

/// The steps of a capture's records, of submitters with these keys, in rounds of a length.
pub(crate) fn steps_of(
    alloc: Global,
    told: ToldBy,
    keys: &[u64],
    span: u64,
    records: &[Record],
) -> Result<Vec<Line>, ArrivalsFault>
    requires span { 0 < span }
    requires few { AreFewSubmitters keys.now }
    requires in_time { ComeInTime (begin_of records.now) span records.now }
    ensures ok { IfOk result (λ v. v.items ≡ all_steps span told keys.now records.now) }
    ensures short { IfOk result (λ v. length v.items ≤ MAX_STEPS) }
    ensures fit { IfOk result (λ v. All (LineFits 1 (max (length keys.now) 1)) v.items) }
    ensures err { IfErr result (λ f. (f ≡ ArrivalsFault.Memory) ⊎ IsTooLong (all_steps span told keys.now records.now) f) }
{
    let begin = begin_of(records);
    let Ok(mut builder) = ScriptBuilder::new(alloc, keys.len()) else {
        return Err(ArrivalsFault::Memory);
    };
    for record in records {
        let effect = effect_of(told, keys, record);
        match builder.take(round_of_time(begin, span, record), effect, record) {
            Ok(()) => {}
            Err(AllocError) => return Err(ArrivalsFault::Memory),
        }
        if builder.lines.len() as u64 > MAX_STEPS {
            return Err(ArrivalsFault::TooLong);
        }
    }
    match builder.finish() {
        Ok(()) => {}
        Err(AllocError) => return Err(ArrivalsFault::Memory),
    }
    if builder.lines.len() as u64 > MAX_STEPS {
        return Err(ArrivalsFault::TooLong);
    }
    Ok(builder.lines)
}
