//! The picture of a trace as SVG: what was issued in which round under which tag, what waited, and the windows that were crowded.
#![tactic(auto)]

mod around;
mod boxes;
mod columns;
mod cut;
pub mod laws;
mod parts;
mod scale;
mod shapes;
mod template;
mod words;

pub use crate::columns::Column;
pub use crate::parts::{Drawing, drawing_of, picture, pictures};
pub use crate::scale::Scale;
