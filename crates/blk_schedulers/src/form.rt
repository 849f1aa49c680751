//! The form of an answer.

/// In which form figures are written.
#[derive(Clone, Copy, Debug, PartialEq, Eq)]
pub enum Form {
    /// In lines, to be read at a terminal.
    Lines,
    /// As a JSON value, to be read by programs.
    Json,
}
