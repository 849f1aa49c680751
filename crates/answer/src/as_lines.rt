//! An answer in lines.

ghost use Rattle.std.specs.Prelude.{◌≡◌, ◌+◌, ◌<◌, ◌++◌, ◌∷◌, [], OnOk, IfOk};
ghost use Rattle.std.specs.List.{flat_map};
ghost use Rattle.answer.specs.Parts.{row_cells};
ghost use Rattle.answer.specs.Lines.{three_digits, time_words, share_words, set_text, named_setting, settings_line, entry_text, group_head, value_words, lead_text, in_places, in_layout, cell_text, name_text, column_heads, row_text, member_text, part_text, answer_lines};

use crate::answer::{Answer, Entry, Part, Row};
use crate::cells::{Cell, Column, Layout};
use crate::value::{Set, Setting, Value};
use crate::word::Word;
use std::alloc::{AllocError, Global};
use text_output::Draft;

/// Adds what a setting is set to.
fn push_set(draft: &mut Draft, set: &Set) -> Result<(), AllocError>
    ensures { OnOk result (draft.new ≡ draft.old ++ set_text set.now) }
{
    match set {
        Set::Number(number) => draft.number(*number),
        Set::Switch(true) => draft.text(b"on"),
        Set::Switch(false) => draft.text(b"off"),
        Set::Word(word) => draft.text(word.text().as_bytes()),
    }
}

/// Adds a setting.
fn push_setting(draft: &mut Draft, setting: &Setting) -> Result<(), AllocError>
    ensures { OnOk result (draft.new ≡ draft.old ++ named_setting setting.now) }
{
    draft.text(setting.name.text().as_bytes())?;
    draft.text(b"=")?;
    push_set(draft, &setting.set)
}

/// Adds settings that others stand before.
fn push_others(draft: &mut Draft, settings: &[Setting]) -> Result<(), AllocError>
    ensures { OnOk result (draft.new ≡ draft.old ++ flat_map (λ s. 32 ∷ named_setting s) settings.now) }
{
    for setting in settings {
        draft.text(b" ")?;
        push_setting(draft, setting)?;
    }
    Ok(())
}

/// Adds settings, or `-` where there are none.
fn push_settings(draft: &mut Draft, settings: &[Setting]) -> Result<(), AllocError>
    ensures { OnOk result (draft.new ≡ draft.old ++ settings_line settings.now) }
{
    match settings.split_first() {
        None => draft.text(b"-"),
        Some((first, others)) => {
            push_setting(draft, first)?;
            push_others(draft, others)
        }
    }
}

/// The digit of a number.
fn digit(number: u64) -> u8
    requires { number < 10 }
    ensures { result ≡ 48 + number }
{
    b'0' + number as u8
}

/// A number below 1,000 in three digits.
fn three_digits(number: u64) -> [u8; 3]
    requires { number < 1000 }
    ensures { result ≡ three_digits number }
{
    [
        digit(number / 100),
        digit(number / 10 % 10),
        digit(number % 10),
    ]
}

/// Adds a time in milliseconds.
fn push_time(draft: &mut Draft, time: u64) -> Result<(), AllocError>
    ensures { OnOk result (draft.new ≡ draft.old ++ time_words time) }
{
    draft.number(time / 1_000_000)?;
    draft.text(b".")?;
    draft.text(&three_digits(time / 1000 % 1000))
}

/// Adds a share in hundredths.
fn push_share(draft: &mut Draft, thousandths: u64) -> Result<(), AllocError>
    ensures { OnOk result (draft.new ≡ draft.old ++ share_words thousandths) }
{
    draft.number(thousandths / 10)?;
    draft.text(b".")?;
    draft.number(thousandths % 10)
}

/// Adds what a value says.
fn push_value(draft: &mut Draft, alloc: Global, value: &Value) -> Result<(), AllocError>
    ensures { OnOk result (draft.new ≡ draft.old ++ value_words value.now) }
{
    match value {
        Value::Count(count) => draft.number(*count),
        Value::Signed(number) => draft.signed(alloc, *number),
        Value::Text(word) => draft.text(word.text().as_bytes()),
        Value::Nothing(word) => draft.text(word.text().as_bytes()),
        Value::Remark(word) => {
            draft.text(b" (")?;
            draft.text(word.text().as_bytes())?;
            draft.text(b")")
        }
        Value::Window(from, due) => {
            draft.number(*from)?;
            draft.text(b" ")?;
            draft.number(*due)
        }
        Value::Time(time) => push_time(draft, *time),
        Value::Share(thousandths) => push_share(draft, *thousandths),
        Value::Settings(settings) => push_settings(draft, settings.all()),
    }
}

/// What a value says, by itself.
fn text_of(alloc: Global, value: &Value) -> Result<Vec<u8>, AllocError>
    ensures { IfOk result (λ text. text.items ≡ value_words value.now) }
{
    let mut draft = Draft::new(alloc);
    push_value(&mut draft, alloc, value)?;
    draft.finish()
}

/// Adds what stands before a cell.
fn push_lead(draft: &mut Draft, layout: &Layout, name: &[u8]) -> Result<(), AllocError>
    ensures { OnOk result (draft.new ≡ draft.old ++ lead_text layout.now name.now) }
{
    match layout {
        Layout::Plain | Layout::Left(_) | Layout::Right(_) => Ok(()),
        Layout::Comma => draft.text(b","),
        Layout::Space => draft.text(b" "),
        Layout::Name => {
            draft.text(name)?;
            draft.text(b" ")
        }
        Layout::NextName => {
            draft.text(b" ")?;
            draft.text(name)?;
            draft.text(b" ")
        }
        Layout::OtherName(other) => {
            draft.text(other.text().as_bytes())?;
            draft.text(b" ")
        }
        Layout::WordsName(words) => {
            draft.text(words.text().as_bytes())?;
            draft.text(name)?;
            draft.text(b" ")
        }
        Layout::Words(words) => draft.text(words.text().as_bytes()),
    }
}

/// Adds a value in its places.
fn push_placed(
    draft: &mut Draft,
    alloc: Global,
    layout: &Layout,
    value: &Value,
) -> Result<(), AllocError>
    ensures { OnOk result (draft.new ≡ draft.old ++ in_places layout.now (value_words value.now)) }
{
    match layout {
        Layout::Left(places) => {
            let text = text_of(alloc, value)?;
            draft.left(text.as_slice(), *places)
        }
        Layout::Right(places) => {
            let text = text_of(alloc, value)?;
            draft.right(text.as_slice(), *places)
        }
        _ => push_value(draft, alloc, value),
    }
}

/// Adds a cell.
fn push_cell(
    draft: &mut Draft,
    alloc: Global,
    column: &Column,
    value: &Value,
) -> Result<(), AllocError>
    ensures { OnOk result (draft.new ≡ draft.old ++ in_layout column.now.layout column.now.name (value_words value.now)) }
{
    push_lead(draft, &column.layout, column.name.text().as_bytes())?;
    push_placed(draft, alloc, &column.layout, value)
}

/// Adds cells.
fn push_cells(draft: &mut Draft, alloc: Global, cells: &[Cell]) -> Result<(), AllocError>
    ensures { OnOk result (draft.new ≡ draft.old ++ flat_map (λ c. cell_text c) cells.now) }
{
    for cell in cells {
        push_cell(draft, alloc, &cell.column, &cell.value)?;
    }
    Ok(())
}

/// Adds the cells of a row.
fn push_row_cells(
    draft: &mut Draft,
    alloc: Global,
    columns: &[Column],
    values: &[Value],
) -> Result<(), AllocError>
    ensures { OnOk result (draft.new ≡ draft.old ++ flat_map (λ c. cell_text c) (row_cells columns.now values.now)) }
{
    let Some((column, columns)) = columns.split_first() else {
        return Ok(());
    };
    let Some((value, values)) = values.split_first() else {
        return Ok(());
    };
    push_cell(draft, alloc, column, value)?;
    push_row_cells(draft, alloc, columns, values)
}

/// Adds the line of a row.
fn push_row(
    draft: &mut Draft,
    alloc: Global,
    columns: &[Column],
    row: &Row,
) -> Result<(), AllocError>
    ensures { OnOk result (draft.new ≡ draft.old ++ row_text columns.now row.now) }
{
    push_row_cells(draft, alloc, columns, row.values())?;
    draft.text(b"\n")
}

/// Adds the lines of rows.
fn push_rows(
    draft: &mut Draft,
    alloc: Global,
    columns: &[Column],
    rows: &[Row],
) -> Result<(), AllocError>
    ensures { OnOk result (draft.new ≡ draft.old ++ flat_map (λ r. row_text columns.now r) rows.now) }
{
    for row in rows {
        push_row(draft, alloc, columns, row)?;
    }
    Ok(())
}

/// Adds the name of a column in its places.
fn push_name(draft: &mut Draft, column: &Column) -> Result<(), AllocError>
    ensures { OnOk result (draft.new ≡ draft.old ++ name_text column.now) }
{
    let name = column.name.text().as_bytes();
    push_lead(draft, &column.layout, name)?;
    match column.layout {
        Layout::Left(places) => draft.left(name, places),
        Layout::Right(places) => draft.right(name, places),
        _ => draft.text(name),
    }
}

/// Adds the names of columns.
fn push_names(draft: &mut Draft, columns: &[Column]) -> Result<(), AllocError>
    ensures { OnOk result (draft.new ≡ draft.old ++ flat_map (λ c. name_text c) columns.now) }
{
    for column in columns {
        push_name(draft, column)?;
    }
    Ok(())
}

/// Adds the head line, where there is one.
fn push_head(draft: &mut Draft, head: bool, columns: &[Column]) -> Result<(), AllocError>
    ensures { OnOk result (draft.new ≡ draft.old ++ column_heads head columns.now) }
{
    if !head {
        return Ok(());
    }
    push_names(draft, columns)?;
    draft.text(b"\n")
}

/// Adds two names with a comma between.
fn push_key(draft: &mut Draft, name: &[u8], key: &[u8]) -> Result<(), AllocError>
    ensures { OnOk result (draft.new ≡ draft.old ++ (name.now ++ 44 ∷ key.now)) }
{
    draft.text(name)?;
    draft.text(b",")?;
    draft.text(key)
}

/// Adds the line of a row behind two names.
fn push_entry(
    draft: &mut Draft,
    alloc: Global,
    name: &[u8],
    columns: &[Column],
    entry: &Entry,
) -> Result<(), AllocError>
    ensures { OnOk result (draft.new ≡ draft.old ++ entry_text name.now columns.now entry.now) }
{
    push_key(draft, name, entry.name.text().as_bytes())?;
    push_row_cells(draft, alloc, columns, entry.row.values())?;
    draft.text(b"\n")
}

/// Adds the lines of such rows.
fn push_entries(
    draft: &mut Draft,
    alloc: Global,
    name: &[u8],
    columns: &[Column],
    entries: &[Entry],
) -> Result<(), AllocError>
    ensures { OnOk result (draft.new ≡ draft.old ++ flat_map (λ e. entry_text name.now columns.now e) entries.now) }
{
    for entry in entries {
        push_entry(draft, alloc, name, columns, entry)?;
    }
    Ok(())
}

/// Adds their head line, where columns are named for one.
fn push_head_of(draft: &mut Draft, columns: &[Column]) -> Result<(), AllocError>
    ensures { OnOk result (draft.new ≡ draft.old ++ group_head columns.now) }
{
    if columns.is_empty() {
        return Ok(());
    }
    push_names(draft, columns)?;
    draft.text(b"\n")
}

/// Adds a member on a line of its own.
fn push_member(
    draft: &mut Draft,
    alloc: Global,
    name: &Word,
    value: &Value,
) -> Result<(), AllocError>
    ensures { OnOk result (draft.new ≡ draft.old ++ member_text name.now value.now) }
{
    draft.text(name.text().as_bytes())?;
    draft.text(b" ")?;
    push_value(draft, alloc, value)?;
    draft.text(b"\n")
}

/// Adds a part.
fn push_part(draft: &mut Draft, alloc: Global, part: &Part) -> Result<(), AllocError>
    ensures { OnOk result (draft.new ≡ draft.old ++ part_text part.now) }
{
    match part {
        Part::Member(name, value) => push_member(draft, alloc, name, value),
        Part::Line(line) => {
            push_cells(draft, alloc, line.cells())?;
            draft.text(line.end().as_bytes())
        }
        Part::Object(_, line) => {
            push_cells(draft, alloc, line.cells())?;
            draft.text(line.end().as_bytes())
        }
        Part::Group(group) => {
            push_head_of(draft, group.head())?;
            push_entries(
                draft,
                alloc,
                group.name().as_bytes(),
                group.columns(),
                group.entries(),
            )
        }
        Part::Rows(rows) => {
            push_head(draft, rows.has_head(), rows.columns())?;
            push_rows(draft, alloc, rows.columns(), rows.rows())
        }
    }
}

/// Adds parts.
fn push_parts(draft: &mut Draft, alloc: Global, parts: &[Part]) -> Result<(), AllocError>
    ensures { OnOk result (draft.new ≡ draft.old ++ answer_lines parts.now) }
{
    for part in parts {
        push_part(draft, alloc, part)?;
    }
    Ok(())
}

/// An answer in lines: its parts, one after another. A member stands on a line of its own, its name, a space and its value; rows stand
/// each on a line, below a head line where they have one. Fails only when out of memory.
pub fn lines(alloc: Global, answer: &Answer) -> Result<Vec<u8>, AllocError>
    ensures { IfOk result (λ text. text.items ≡ answer_lines answer.now) }
{
    let mut draft = Draft::new(alloc);
    push_parts(&mut draft, alloc, answer.parts())?;
    draft.finish()
}
