//! An answer as JSON.

ghost use Rattle.std.specs.Prelude.{◌≡◌, ◌++◌, OnOk, IfOk, List, map};
ghost use Rattle.std.specs.List.{flat_map};
ghost use Rattle.json.specs.Tree.{json_tokens};
ghost use Rattle.answer.specs.Values.{object_of};
ghost use Rattle.answer.specs.Parts.{row_cells};
ghost use Rattle.answer.specs.Json.{window_value, setting_told, json_value, cell_member, row_object, part_members, json_of};
ghost use Rattle.answer.specs.declared.answer.Part.{Part as APart};
ghost use Rattle.answer.specs.Same.{TellsSame};
ghost use Rattle.answer.specs.Inside.Tokens.{member_tokens, tokens_of, cell_tokens, set_tokens, entry_tokens, table_tokens, group_tokens};

use crate::answer::{Answer, Entry, Group, Line, Part, Row, Rows};
use crate::cells::{Cell, Column};
use crate::names::{DUE, FROM};
use crate::page::Page;
use crate::value::{Set, Setting, Value};
use crate::word::Word;
use std::alloc::{AllocError, Global};

/// Writes a window.
fn write_window(page: &mut Page, name: &str, from: u64, due: u64) -> Result<(), AllocError>
    ensures { OnOk result (page.new ≡ page.old ++ member_tokens name.now (window_value from due)) }
{
    page.key(name)?;
    page.begin_object()?;
    page.count(FROM, from)?;
    page.count(DUE, due)?;
    page.end_object()
}

/// Writes a setting.
fn write_setting(page: &mut Page, setting: &Setting) -> Result<(), AllocError>
    ensures { OnOk result (page.new ≡ page.old ++ set_tokens setting.now) }
{
    match &setting.set {
        Set::Number(number) => page.count(setting.name.text(), *number),
        Set::Switch(is_on) => page.boolean(setting.name.text(), *is_on),
        Set::Word(word) => page.string(setting.name.text(), word.text()),
    }
}

/// Writes settings.
fn write_listed(page: &mut Page, settings: &[Setting]) -> Result<(), AllocError>
    ensures { OnOk result (page.new ≡ page.old ++ flat_map (λ s. set_tokens s) settings.now) }
{
    for setting in settings {
        write_setting(page, setting)?;
    }
    Ok(())
}

/// Writes settings under a name.
fn write_settings(page: &mut Page, name: &str, settings: &[Setting]) -> Result<(), AllocError>
    ensures { OnOk result (page.new ≡ page.old ++ member_tokens name.now (object_of (map setting_told settings.now))) }
{
    page.key(name)?;
    page.begin_object()?;
    write_listed(page, settings)?;
    page.end_object()?;
    Ok(())
}

/// Writes a member.
fn write_member(page: &mut Page, name: &Word, value: &Value) -> Result<(), AllocError>
    ensures { OnOk result (page.new ≡ page.old ++ member_tokens name.now (json_value value.now)) }
{
    match value {
        Value::Count(count) => page.count(name.text(), *count),
        Value::Signed(number) => page.signed(name.text(), *number),
        Value::Text(word) => page.string(name.text(), word.text()),
        Value::Nothing(_) => page.null(name.text()),
        Value::Remark(word) => page.string(name.text(), word.text()),
        Value::Time(time) => page.count(name.text(), *time),
        Value::Share(thousandths) => page.count(name.text(), *thousandths),
        Value::Settings(settings) => write_settings(page, name.text(), settings.all()),
        Value::Window(from, due) => write_window(page, name.text(), *from, *due),
    }
}

/// Writes the members of cells.
fn write_cells(page: &mut Page, cells: &[Cell]) -> Result<(), AllocError>
    ensures { OnOk result (page.new ≡ page.old ++ flat_map (λ c. cell_tokens c) cells.now) }
{
    for cell in cells {
        write_member(page, &cell.column.name, &cell.value)?;
    }
    Ok(())
}

/// Writes the members of a line.
fn write_line(page: &mut Page, line: &Line) -> Result<(), AllocError>
    ensures { OnOk result (page.new ≡ page.old ++ tokens_of (map cell_member line.now.cells)) }
{
    write_cells(page, line.cells())?;
    Ok(())
}

/// Writes the members of a row.
fn write_row_cells(page: &mut Page, columns: &[Column], values: &[Value]) -> Result<(), AllocError>
    ensures { OnOk result (page.new ≡ page.old ++ flat_map (λ c. cell_tokens c) (row_cells columns.now values.now)) }
{
    let Some((column, columns)) = columns.split_first() else {
        return Ok(());
    };
    let Some((value, values)) = values.split_first() else {
        return Ok(());
    };
    write_member(page, &column.name, value)?;
    write_row_cells(page, columns, values)
}

/// Writes a row.
fn write_row(page: &mut Page, columns: &[Column], row: &Row) -> Result<(), AllocError>
    ensures { OnOk result (page.new ≡ page.old ++ json_tokens (row_object columns.now row.now)) }
{
    page.begin_object()?;
    write_row_cells(page, columns, row.values())?;
    page.end_object()?;
    Ok(())
}

/// Writes rows.
fn write_rows(page: &mut Page, columns: &[Column], rows: &[Row]) -> Result<(), AllocError>
    ensures { OnOk result (page.new ≡ page.old ++ flat_map (λ r. json_tokens (row_object columns.now r)) rows.now) }
{
    for row in rows {
        write_row(page, columns, row)?;
    }
    Ok(())
}

/// Writes rows under their name.
fn write_table(page: &mut Page, rows: &Rows) -> Result<(), AllocError>
    ensures { OnOk result (page.new ≡ page.old ++ table_tokens rows.now) }
{
    page.key(rows.name())?;
    page.begin_array()?;
    write_rows(page, rows.columns(), rows.rows())?;
    page.end_array()?;
    Ok(())
}

/// Writes an object of a line's members.
fn write_object(page: &mut Page, name: &Word, line: &Line) -> Result<(), AllocError>
    ensures { OnOk result (page.new ≡ page.old ++ member_tokens name.now (object_of (map cell_member line.now.cells))) }
{
    page.key(name.text())?;
    page.begin_object()?;
    write_line(page, line)?;
    page.end_object()?;
    Ok(())
}

/// Writes a row under its name.
fn write_entry(page: &mut Page, columns: &[Column], entry: &Entry) -> Result<(), AllocError>
    ensures { OnOk result (page.new ≡ page.old ++ entry_tokens columns.now entry.now) }
{
    page.key(entry.name.text())?;
    write_row(page, columns, &entry.row)
}

/// Writes rows under their names.
fn write_entries(page: &mut Page, columns: &[Column], entries: &[Entry]) -> Result<(), AllocError>
    ensures { OnOk result (page.new ≡ page.old ++ flat_map (λ e. entry_tokens columns.now e) entries.now) }
{
    for entry in entries {
        write_entry(page, columns, entry)?;
    }
    Ok(())
}

/// Writes all of them under one name.
fn write_group(page: &mut Page, group: &Group) -> Result<(), AllocError>
    ensures { OnOk result (page.new ≡ page.old ++ group_tokens group.now) }
{
    page.key(group.name())?;
    page.begin_object()?;
    write_entries(page, group.columns(), group.entries())?;
    page.end_object()?;
    Ok(())
}

/// Writes the members of a part.
fn write_part(page: &mut Page, part: &Part) -> Result<(), AllocError>
    ensures { OnOk result (page.new ≡ page.old ++ tokens_of (part_members part.now)) }
{
    match part {
        Part::Member(name, value) => write_member(page, name, value),
        Part::Line(line) => write_line(page, line),
        Part::Rows(rows) => write_table(page, rows),
        Part::Object(name, line) => write_object(page, name, line),
        Part::Group(group) => write_group(page, group),
    }
}

/// Writes the members of parts.
fn write_parts(page: &mut Page, parts: &[Part]) -> Result<(), AllocError>
    ensures { OnOk result (page.new ≡ page.old ++ flat_map (λ p. tokens_of (part_members p)) parts.now) }
{
    for part in parts {
        write_part(page, part)?;
    }
    Ok(())
}

/// An answer as one JSON object in a line: each member under its name, and rows as a list of objects, all in their order. What the lines
/// have no value for is `null`. Fails only when out of memory.
pub fn json(alloc: Global, answer: &Answer) -> Result<Vec<u8>, AllocError>
    ensures { IfOk result (λ text. text.items ≡ json_of answer.now) }
{
    let mut page = Page::new(alloc);
    page.begin_object()?;
    write_parts(&mut page, answer.parts())?;
    page.end_object()?;
    page.finish()
}

/// The lines of an answer and its JSON tell the same members and rows.
///
/// A theorem: it does nothing at run time, and a caller has its clause.
pub fn law_of_answers()
    ensures { (parts : List APart) → TellsSame parts }
{}
