//! The text of a script.

ghost use Rattle.std.specs.Prelude.{◌≡◌, ◌++◌, IfOk, OnOk, map};
ghost use Rattle.csv.specs.Reading.{default_config, records, strip_bom};
ghost use Rattle.text_output.specs.Drafts.{draft_text};
ghost use Rattle.blk_records.specs.Texts.{rows_text};
ghost use Rattle.blk_text.specs.Script.{IsScript, SpellsVersion, scripted, script_rows};
ghost use Rattle.blk_text.specs.StepRecords.{step_row};

use blk_text::script::SCRIPT;
use blk_text::{LATEST, Line, Script, push_setup, push_step};
use std::alloc::{AllocError, Global};
use text_output::Block;

/// Adds the records of steps.
fn push_lines(draft: &mut Block, lines: &[Line]) -> Result<(), AllocError>
    ensures { OnOk result (draft_text draft.new ≡ draft_text draft.old ++ rows_text (map step_row lines.now)) }
{
    for line in lines {
        push_step(draft, line)?;
    }
    Ok(())
}

/// The text of a script, in the latest version: a title, a setup, and a record for each step. [`blk_text::read_script`] reads the script
/// back from it. It fails only when out of memory.
pub fn script_text(alloc: Global, script: &Script) -> Result<Vec<u8>, AllocError>
    requires { IsScript (scripted script.now) }
    ensures text { IfOk result (λ v. v.items ≡ rows_text (script_rows LATEST (scripted script.now))) }
    ensures spells { IfOk result (λ v. SpellsVersion LATEST (records default_config (strip_bom v.items)) (scripted script.now)) }
{
    let mut draft = Block::new(alloc);
    let setup = script.setup;
    let title = [
        LATEST,
        setup.depth(),
        setup.hw() as u64,
        script.soft_depth,
        script.submitters,
    ];
    SCRIPT.push(&mut draft, &title)?;
    push_setup(&mut draft, &setup)?;
    push_lines(&mut draft, script.lines.as_slice())?;
    draft.finish()
}
