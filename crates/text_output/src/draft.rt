//! A text that is being made, piece by piece.

ghost use Rattle.std.specs.Prelude.{◌≡◌, ◌++◌, ◌-◌, ◌∷◌, [], OnOk, IfOk, decimal, length};
ghost use Rattle.std.specs.Fmt.{signed_decimal};
ghost use Rattle.std.proofs.Math.ListN.{replicate};
ghost use Rattle.text_output.specs.Drafts.{next_field};

use crate::block::Block;
use std::alloc::{AllocError, Global};
use std::marker::Model;

/// A text that is being made: the bytes that were added, in their order. Each call that adds some fails only when
/// out of memory, where the text can't grow.
#[derive(Drop)]
pub struct Draft {
    block: Block,
}

impl Model for Draft {
    ghost use Rattle.std.specs.Prelude.{List, ℕ};
    ghost use Rattle.text_output.specs.Drafts.{draft_text};

    ghost Value = { List ℕ };

    ghost view = { λ d. draft_text d.block };
}

impl Draft {
    /// An empty text.
    pub fn new(alloc: Global) -> Draft
        ensures { result ≡ [] }
    {
        Draft {
            block: Block::new(alloc),
        }
    }

    /// Adds bytes.
    pub fn text(&mut self, bytes: &[u8]) -> Result<(), AllocError>
        ensures { OnOk result (self.new ≡ self.old ++ bytes.now) }
    {
        self.block.push(bytes)
    }

    /// Adds a number in decimal digits.
    pub fn number(&mut self, number: u64) -> Result<(), AllocError>
        ensures { OnOk result (self.new ≡ self.old ++ decimal number) }
    {
        self.block.push_number(number)
    }

    /// Adds one more field of a record, of one letter.
    pub fn next_letter(&mut self, letter: u8) -> Result<(), AllocError>
        ensures { OnOk result (self.new ≡ self.old ++ next_field (letter ∷ [])) }
    {
        self.block.push(&[b',', letter])
    }

    /// Adds one more field of a record, of a number.
    pub fn next_number(&mut self, number: u64) -> Result<(), AllocError>
        ensures { OnOk result (self.new ≡ self.old ++ next_field (decimal number)) }
    {
        self.text(b",")?;
        self.number(number)
    }

    /// Adds a signed number, with a minus where it is below 0.
    pub fn signed(&mut self, alloc: Global, number: i64) -> Result<(), AllocError>
        ensures { OnOk result (self.new ≡ self.old ++ signed_decimal number) }
    {
        let text = number.to_string(alloc)?;
        self.block.push(text.as_bytes())
    }

    /// Adds `count` spaces.
    fn spaces(&mut self, count: usize) -> Result<(), AllocError>
        ensures { OnOk result (self.new ≡ self.old ++ replicate count 32) }
    {
        for _ in 0..count {
            self.block.push(b" ")?;
        }
        Ok(())
    }

    /// Adds bytes at the left of `places` places; more bytes than that are not cut.
    pub fn left(&mut self, bytes: &[u8], places: usize) -> Result<(), AllocError>
        ensures { OnOk result (self.new ≡ (self.old ++ bytes.now) ++ replicate (places - length bytes.now) 32) }
    {
        self.text(bytes)?;
        self.spaces(places.saturating_sub(bytes.len()))
    }

    /// Adds bytes at the right of `places` places; more bytes than that are not cut.
    pub fn right(&mut self, bytes: &[u8], places: usize) -> Result<(), AllocError>
        ensures { OnOk result (self.new ≡ (self.old ++ replicate (places - length bytes.now) 32) ++ bytes.now) }
    {
        self.spaces(places.saturating_sub(bytes.len()))?;
        self.text(bytes)
    }

    /// The text.
    pub fn finish(self) -> Result<Vec<u8>, AllocError>
        ensures { IfOk result (λ v. v.items ≡ self) }
    {
        self.block.finish()
    }
}
