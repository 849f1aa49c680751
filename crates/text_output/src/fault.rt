//! Why a text was not written.

/// Why a text was not written: the writer answered a fault, and a prefix of the text, of unknown length, may be out.
#[derive(Debug, Clone, Copy, PartialEq, Eq)]
pub struct WriteFault;
