//! Cells of a line.

ghost use Rattle.std.specs.Prelude.{◌≡◌, ◌∷◌, IfOk, map};
ghost use Rattle.answer.specs.Parts.{cell, record_columns};

use crate::value::Value;
use crate::word::Word;
use std::alloc::{AllocError, Global};

/// How a cell stands in its line.
#[derive(Drop)]
pub enum Layout {
    /// As it is.
    Plain,
    /// After a comma.
    Comma,
    /// After a space.
    Space,
    /// After its name and a space.
    Name,
    /// After a space, its name and a space.
    NextName,
    /// After this name, which is not its own, and a space.
    OtherName(Word),
    /// After these words, its name and a space.
    WordsName(Word),
    /// After these words.
    Words(Word),
    /// At the left of so many places; more bytes than that are not cut.
    Left(usize),
    /// At the right of so many places; more bytes than that are not cut.
    Right(usize),
}

/// What a cell is of.
#[derive(Drop)]
pub struct Column {
    /// How it stands in its line.
    pub layout: Layout,
    /// The name of its member.
    pub name: Word,
}

impl Column {
    /// Of this name.
    pub fn new(layout: Layout, name: &'static str) -> Column
        ensures { result ≡ record { layout = layout; name = name.now } }
    {
        Column {
            layout,
            name: Word::new(name),
        }
    }
}

/// The columns of a field and of others that stand after commas.
fn fields(
    alloc: Global,
    first: &'static str,
    others: &[&'static str],
) -> Result<Vec<Column>, AllocError>
    ensures { IfOk result (λ columns. columns.items ≡ record_columns (first.now ∷ map (λ name. name.now) others.now)) }
{
    let mut columns = Vec::new(alloc);
    columns.push(Column::new(Layout::Plain, first))?;
    for name in others {
        columns.push(Column::new(Layout::Comma, name))?;
    }
    Ok(columns)
}

/// The columns of records with commas, by their names. Fails only when out of memory.
pub fn record_columns(alloc: Global, names: &[&'static str]) -> Result<Vec<Column>, AllocError>
    ensures { IfOk result (λ columns. columns.items ≡ record_columns (map (λ name. name.now) names.now)) }
{
    match names.split_first() {
        None => Ok(Vec::new(alloc)),
        Some((first, others)) => fields(alloc, first, others),
    }
}

/// A member that stands in a line.
#[derive(Drop)]
pub struct Cell {
    /// What it is of.
    pub column: Column,
    /// What it says.
    pub value: Value,
}

impl Cell {
    /// Of this name, with this value.
    pub fn new(layout: Layout, name: &'static str, value: Value) -> Cell
        ensures { result ≡ cell layout name.now value }
    {
        Cell {
            column: Column::new(layout, name),
            value,
        }
    }
}
