//! Answers, and what they are made of.

ghost use Rattle.std.specs.Prelude.{◌≡◌, ◌++◌, ◌∷◌, [], OnOk, IfOk};

use crate::cells::{Cell, Column};
use crate::value::Value;
use crate::word::Word;
use std::alloc::{AllocError, Global};
use std::marker::Model;

/// Members that stand on one line, and what ends it.
#[derive(Drop)]
pub struct Line {
    cells: Vec<Cell>,
    end: Word,
}

impl Model for Line {
    ghost use Rattle.answer.specs.Parts.{Sentence};

    ghost Value = { Sentence };

    ghost view = { λ l. record { cells = l.cells.items; end = l.end } };
}

impl Line {
    /// These cells, and this end, as a rule that of a line.
    pub fn new(cells: Vec<Cell>, end: &'static str) -> Line
        ensures { result ≡ record { cells = cells.items; end = end.now } }
    {
        Line {
            cells,
            end: Word::new(end),
        }
    }

    /// Its cells.
    pub(crate) fn cells(&self) -> &[Cell]
        ensures { result.now ≡ self.now.cells }
    {
        self.cells.as_slice()
    }

    /// What ends it.
    pub(crate) fn end(&self) -> &'static str
        ensures { result.now ≡ self.now.end }
    {
        self.end.text()
    }
}

/// What a row says, by the columns of its rows.
#[derive(Drop)]
pub struct Row {
    values: Vec<Value>,
}

impl Model for Row {
    ghost use Rattle.std.specs.Prelude.{List};
    ghost use Rattle.answer.specs.declared.value.Value.{Value as AValue};

    ghost Value = { List AValue };

    ghost view = { λ r. r.values.items };
}

impl Row {
    /// These values, a column each.
    pub fn new(values: Vec<Value>) -> Row
        ensures { result ≡ values.items }
    {
        Row { values }
    }

    /// Its values.
    pub(crate) fn values(&self) -> &[Value]
        ensures { result.now ≡ self.now }
    {
        self.values.as_slice()
    }
}

/// Rows, each on a line of its own.
#[derive(Drop)]
pub struct Rows {
    name: Word,
    columns: Vec<Column>,
    head: bool,
    rows: Vec<Row>,
}

impl Model for Rows {
    ghost use Rattle.answer.specs.Parts.{Table};

    ghost Value = { Table };

    ghost view = { λ t. record { name = t.name; columns = t.columns.items; head = t.head; rows = t.rows.items } };
}

impl Rows {
    /// Rows under a name, with a head line or without.
    pub fn new(name: &'static str, columns: Vec<Column>, head: bool, rows: Vec<Row>) -> Rows
        ensures { result ≡ record { name = name.now; columns = columns.items; head = head; rows = rows.items } }
    {
        Rows {
            name: Word::new(name),
            columns,
            head,
            rows,
        }
    }

    /// Its name.
    pub(crate) fn name(&self) -> &'static str
        ensures { result.now ≡ self.now.name }
    {
        self.name.text()
    }

    /// Its columns.
    pub(crate) fn columns(&self) -> &[Column]
        ensures { result.now ≡ self.now.columns }
    {
        self.columns.as_slice()
    }

    /// Whether a head line names them.
    pub(crate) fn has_head(&self) -> bool
        ensures { result ≡ self.now.head }
    {
        self.head
    }

    /// The rows.
    pub(crate) fn rows(&self) -> &[Row]
        ensures { result.now ≡ self.now.rows }
    {
        self.rows.as_slice()
    }
}

/// A row under a name.
#[derive(Drop)]
pub struct Entry {
    /// The name.
    pub name: Word,
    /// The row.
    pub row: Row,
}

/// Rows under a name each, all under one name.
#[derive(Drop)]
pub struct Group {
    name: Word,
    head: Vec<Column>,
    columns: Vec<Column>,
    entries: Vec<Entry>,
}

impl Model for Group {
    ghost use Rattle.answer.specs.Parts.{Grouped};

    ghost Value = { Grouped };

    ghost view = { λ g. record { name = g.name; head = g.head.items; columns = g.columns.items; entries = g.entries.items } };
}

impl Group {
    /// Rows under a name each, all under one name. Where columns are named for a head line, it stands above them.
    pub fn new(
        name: &'static str,
        head: Vec<Column>,
        columns: Vec<Column>,
        entries: Vec<Entry>,
    ) -> Group
        ensures { result ≡ record { name = name.now; head = head.items; columns = columns.items; entries = entries.items } }
    {
        Group {
            name: Word::new(name),
            head,
            columns,
            entries,
        }
    }

    /// Its name.
    pub(crate) fn name(&self) -> &'static str
        ensures { result.now ≡ self.now.name }
    {
        self.name.text()
    }

    /// The columns of its head line.
    pub(crate) fn head(&self) -> &[Column]
        ensures { result.now ≡ self.now.head }
    {
        self.head.as_slice()
    }

    /// The columns of its rows.
    pub(crate) fn columns(&self) -> &[Column]
        ensures { result.now ≡ self.now.columns }
    {
        self.columns.as_slice()
    }

    /// The rows.
    pub(crate) fn entries(&self) -> &[Entry]
        ensures { result.now ≡ self.now.entries }
    {
        self.entries.as_slice()
    }
}

/// A part of an answer.
#[derive(Drop)]
pub enum Part {
    /// A member on a line of its own: its name, a space and its value.
    Member(Word, Value),
    /// Members on one line.
    Line(Line),
    /// Rows; in JSON a list of objects under a name.
    Rows(Rows),
    /// Members on one line; in JSON an object of them under a name.
    Object(Word, Line),
    /// Rows, each on a line behind the name of all and its own; in JSON an object of objects.
    Group(Group),
}

/// An answer: its parts, in their order.
#[derive(Drop)]
pub struct Answer {
    parts: Vec<Part>,
}

impl Model for Answer {
    ghost use Rattle.std.specs.Prelude.{List};
    ghost use Rattle.answer.specs.declared.answer.Part.{Part as APart};

    ghost Value = { List APart };

    ghost view = { λ a. a.parts.items };
}

impl Answer {
    /// Its parts.
    pub(crate) fn parts(&self) -> &[Part]
        ensures { result.now ≡ self.now }
    {
        self.parts.as_slice()
    }

    /// An answer without parts.
    pub fn new(alloc: Global) -> Answer
        ensures { result ≡ [] }
    {
        Answer {
            parts: Vec::new(alloc),
        }
    }

    /// Adds a part. Fails only when out of memory.
    pub fn add(&mut self, part: Part) -> Result<(), AllocError>
        ensures { OnOk result (self.new ≡ self.old ++ part ∷ []) }
    {
        self.parts.push(part)?;
        Ok(())
    }
}

/// A member on a line of its own.
pub fn member(name: &'static str, value: Value) -> Part
    ensures { result ≡ Part.Member name.now value }
{
    Part::Member(Word::new(name), value)
}
