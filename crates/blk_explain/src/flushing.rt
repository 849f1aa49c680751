//! Bios of a script that stay in their plugs.

use blk_text::{Line, Script};

/// How many bios a script brings.
#[derive(Clone, Copy, Debug, PartialEq, Eq)]
pub struct Staged {
    /// All of them.
    pub bios: u64,
    /// Those that no flush of their submitter comes after, so that they never leave its plug.
    pub left: u64,
}

/// How many bios a script brings, and how many of them never leave their plugs.
pub fn staged_in(script: &Script) -> Staged {
    let mut flushed = [false; 256];
    let mut bios: u64 = 0;
    let mut left: u64 = 0;
    for back in 0..script.lines.len() {
        match script.lines[script.lines.len() - 1 - back] {
            Line::Bio(bio) => {
                bios = bios.saturating_add(1);
                if !flushed[bio.id().submitter as usize] {
                    left = left.saturating_add(1);
                }
            }
            Line::Flush(submitter) => flushed[submitter as usize] = true,
            _ => {}
        }
    }
    Staged { bios, left }
}
