//! Command lists.

ghost use Rattle.std.specs.Prelude.{◌≡◌, ◌+◌, ◌≤◌, ◌<◌, ◌^◌, IfOk, IfErr, IfSome, OnOk, length, codes};
ghost use Rattle.blk_records.specs.Texts.{rows_text};
ghost use Rattle.blk_records.specs.Reads.{FaultsBy, Reaches};
ghost use Rattle.blk_records.specs.Commands.{AreCommands, SpellsCommands, CommandsFault, command_list, commands_rows};
ghost use Rattle.blk_records.specs.Titles.{IsTitleOf};

use crate::fault::{TextFault, TextReason};
use crate::fields::{ANY_SLOT, DEPTH_SLOT, RELEASE_SLOT, ROUND_SLOT, Slot, read_fields};
use crate::items::{RecordForm, read_records};
use crate::kinds::Kind;
use crate::names::FieldName;
use crate::source::Records;
use crate::titles::{TitleRow, read_title};
use crate::writing::push_numbers;
use csv::ByteRecord;
use edd_commands::{Command, MAX_COMMANDS};
use std::alloc::{AllocError, Global};
use std::io::Read;
use text_grammar::Repeats;
use text_output::Block;

/// The title record: the version and the depth.
pub const COMMANDS: TitleRow<12, 3> = TitleRow {
    word: *b"blk-commands",
    latest: 1,
    slots: [Slot::Given, Slot::Given, DEPTH_SLOT],
    names: [FieldName::Title, FieldName::Version, FieldName::Room],
    later: None,
};

/// The fields of a command: id, release, due.
pub(crate) const COMMAND: [Slot; 3] = [ANY_SLOT, RELEASE_SLOT, ROUND_SLOT];

/// The row of a command, which begins with no word.
pub const COMMAND_ROW: Kind<0, 3> = Kind {
    word: *b"",
    since: 1,
    slots: COMMAND,
    names: [FieldName::Id, FieldName::Release, FieldName::Due],
};

/// A record of a command list: id, release, due.
#[derive(Clone, Copy, Drop)]
pub(crate) struct CommandForm;

impl RecordForm for CommandForm {
    ghost use Rattle.blk_records.specs.Commands.{command};

    type Value = Command;

    ghost part = { λ _. command };

    #[tactic(auto, using(crate::proofs::CommandLaws::command_one))]
    fn gone(&self) -> TextReason {
        TextReason::Count
    }

    fn value(&self, row: &ByteRecord) -> Result<Command, TextReason> {
        match read_fields(row, &COMMAND) {
            Ok(numbers) => Ok(Command {
                id: numbers[0],
                release: numbers[1],
                due: numbers[2],
            }),
            Err(why) => Err(why),
        }
    }
}

/// The depth and the commands of a text of records of three fields: a title with the depth, 1 to
/// [`edd_commands::MAX_DEPTH`], and at most [`MAX_COMMANDS`] commands by id, release round and due round. No record may have been read before.
///
/// The fault is the first one: of the least record, and in it the first in the order of [`TextReason`].
/// [`TextReason::Read`] and [`TextReason::Memory`] come at the record that is being read. No record is asked for past
/// that of the fault, and never more than [`MAX_COMMANDS`] + 2.
pub fn read_commands<R: Read + Drop>(
    alloc: Global,
    records: &mut Records<R>,
) -> Result<(u64, Vec<Command>), TextFault>
    requires { records.old.at ≡ 0 }
    ensures ok { IfOk result (λ v. IfSome records.old.left (λ rows. SpellsCommands rows v.0 v.1.items)) }
    // also where the reader's bytes are not known
    ensures in_range { IfOk result (λ v. AreCommands v.0 v.1.items) }
    // at the record that was asked for last: none was read past it
    ensures last { IfErr result (λ f. f.at ≡ records.new.at) }
    ensures err { IfErr result (FaultsBy records.old records.new CommandsFault) }
    // also where it came from outside: at most one past the last record, and no record before it is wrong
    ensures reached { IfErr result (λ f. Reaches command_list records.old.left 0 f.at) }
    ensures reads { (1 ≤ records.new.at) × (records.new.at ≤ MAX_COMMANDS + 2) }
    // the last thing that was asked for is the record after the commands, which there is not
    ensures end { IfOk result (λ v. records.new.at ≡ length v.1.items + 2) }
    // the title is that of the form, by its name and its latest version
    ensures title { IsTitleOf COMMANDS (codes "blk-commands") 1 }
{
    let (_, [_, _, depth]) = match read_title(records, &COMMANDS) {
        Ok(title) => title,
        Err(fault) => return Err(fault),
    };
    match read_records(alloc, records, CommandForm, Repeats::AtMost(MAX_COMMANDS)) {
        Ok(commands) => Ok((depth, commands)),
        Err(fault) => Err(fault),
    }
}

/// The text of a depth and a list of commands.
pub fn commands_text(alloc: Global, depth: u64, commands: &[Command]) -> Result<Vec<u8>, AllocError>
    ensures { IfOk result (λ v. v.items ≡ rows_text (commands_rows depth commands.now)) }
{
    let mut draft = Block::new(alloc);
    COMMANDS.push(&mut draft, &[COMMANDS.latest, depth])?;
    for i in 0..commands.len() {
        let command = commands[i];
        push_numbers(&mut draft, command.id, &[command.release, command.due])?;
    }
    draft.finish()
}
