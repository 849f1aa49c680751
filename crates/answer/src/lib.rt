//! Answers as data: what a report says, by names and values, and the two ways in which it is written.
#![tactic(auto)]

mod answer;
mod as_json;
mod as_lines;
mod cells;
pub mod names;
mod page;
mod value;
mod word;

pub use crate::answer::{Answer, Entry, Group, Line, Part, Row, Rows, member};
pub use crate::as_json::json;
pub use crate::as_lines::lines;
pub use crate::cells::{Cell, Column, Layout, record_columns};
pub use crate::value::{
    Set, Setting, Settings, Value, count_or_none, signed_or_none, time_or_none, window_or_none,
};
pub use crate::word::Word;
