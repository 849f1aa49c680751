//! The bytes of a text that is being made, of which the last ones stand in a block.

ghost use Rattle.std.specs.Prelude.{◌≡◌, ◌+◌, ◌++◌, ◌≤◌, OnOk, IfOk, decimal};
ghost use Rattle.text_output.specs.declared.block.TheConstants.{BLOCK_BYTES};

use crate::pieces::{MAX_DIGITS, put, put_number};
use std::alloc::{AllocError, Global};

/// How many bytes are gathered before they join the text.
const BLOCK_BYTES: usize = 4096;

/// How many fields a record has at most that is put together in the block.
pub const MAX_ROW_FIELDS: usize = 6;

/// Room for a record: fields no longer than numbers, with a byte after each.
const RECORD_BYTES: usize = MAX_ROW_FIELDS * (MAX_DIGITS + 1);

/// A text, of which the last bytes stand in a block.
#[derive(Drop)]
pub struct Block {
    text: Vec<u8>,
    /// The last bytes of the text, up to a place.
    pub block: [u8; BLOCK_BYTES],
    pub at: usize,
    ghost within: { at ≤ BLOCK_BYTES },
}

impl Block {
    ghost use Rattle.std.specs.Prelude.{[]};
    ghost use Rattle.text_output.specs.Drafts.{draft_text};

    /// An empty text.
    pub fn new(alloc: Global) -> Block
        ensures { draft_text result ≡ [] }
    {
        Block {
            text: Vec::new(alloc),
            block: [0; BLOCK_BYTES],
            at: 0,
        }
    }

    /// Moves what the block holds to the text.
    #[cold]
    #[inline(never)]
    fn flush(&mut self) -> Result<(), AllocError>
        ensures at { self.new.at ≡ 0 }
        ensures text { OnOk result (draft_text self.new ≡ draft_text self.old) }
        ensures whole { OnOk result (self.new.text.items ≡ draft_text self.old) }
    {
        let end = self.at;
        self.at = 0;
        self.text.extend_from_slice(&self.block[..end])
    }

    /// The place in the block from which on there is room for a record.
    #[inline]
    pub fn room(&mut self) -> Result<usize, AllocError>
        ensures at { IfOk result (λ at. (at ≡ self.new.at) × (at + RECORD_BYTES ≤ BLOCK_BYTES)) }
        ensures text { OnOk result (draft_text self.new ≡ draft_text self.old) }
    {
        if self.at > BLOCK_BYTES - RECORD_BYTES {
            self.flush()?;
        }
        Ok(self.at)
    }

    /// Adds bytes, of any number.
    pub fn push(&mut self, bytes: &[u8]) -> Result<(), AllocError>
        ensures { OnOk result (draft_text self.new ≡ draft_text self.old ++ bytes.now) }
    {
        if bytes.len() > RECORD_BYTES {
            self.flush()?;
            return self.text.extend_from_slice(bytes);
        }
        let start = self.room()?;
        self.at = put(bytes, &mut self.block, start);
        Ok(())
    }

    /// Adds a number in decimal digits.
    pub fn push_number(&mut self, number: u64) -> Result<(), AllocError>
        ensures { OnOk result (draft_text self.new ≡ draft_text self.old ++ decimal number) }
    {
        let start = self.room()?;
        self.at = put_number(number, &mut self.block, start);
        Ok(())
    }

    /// The text.
    pub fn finish(mut self) -> Result<Vec<u8>, AllocError>
        ensures { IfOk result (λ v. v.items ≡ draft_text self) }
    {
        self.flush()?;
        Ok(self.text)
    }
}
