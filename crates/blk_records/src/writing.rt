//! Records that are written.

ghost use Rattle.std.specs.Prelude.{◌≡◌, ◌+◌, ◌*◌, ◌++◌, ◌≤◌, ◌<◌, ◌∷◌, [], OnOk, length, take, decimal};
ghost use Rattle.text_output.specs.Drafts.{draft_text};
ghost use Rattle.text_output.specs.declared.block.TheConstants.{MAX_ROW_FIELDS};
ghost use Rattle.text_output.specs.declared.pieces.TheConstants.{MAX_DIGITS};
ghost use Rattle.blk_records.specs.Cells.{IsPlainWord, number_cells};
ghost use Rattle.blk_records.specs.Inside.Cells.{rest_of_line};
ghost use Rattle.blk_records.specs.Texts.{rows_text};

use std::alloc::AllocError;
use text_output::Block;
use text_output::pieces::{put, put_number};

/// Writes numbers and then this number of empty fields, each after a comma, and a line end; answers where that ends.
#[inline(always)]
fn put_rest(numbers: &[u64], blanks: usize, buf: &mut [u8], at: usize) -> usize
    requires { at + (MAX_DIGITS + 1) * length numbers.now + blanks + 1 ≤ length buf.old }
    ensures end { result ≤ at + (MAX_DIGITS + 1) * length numbers.now + blanks + 1 }
    ensures written { take result buf.new ≡ take at buf.old ++ rest_of_line numbers.now blanks }
{
    let mut end = at;
    for i in 0..numbers.len() {
        let mark = put(b",", buf, end);
        end = put_number(numbers[i], buf, mark);
    }
    for _ in 0..blanks {
        end = put(b",", buf, end);
    }
    put(b"\n", buf, end)
}

/// Adds the record of a word, numbers and this number of empty fields.
#[inline(always)]
pub fn push_row(
    draft: &mut Block,
    word: &[u8],
    numbers: &[u64],
    blanks: usize,
) -> Result<(), AllocError>
    requires word { IsPlainWord word.now }
    requires some { 1 ≤ length numbers.now + blanks }
    requires few { length numbers.now + blanks < MAX_ROW_FIELDS }
    ensures text { OnOk result (draft_text draft.new ≡ draft_text draft.old ++ rows_text ((word.now ∷ number_cells numbers.now blanks) ∷ [])) }
{
    let start = draft.room()?;
    let buf = &mut draft.block;
    let head = put(word, buf, start);
    draft.at = put_rest(numbers, blanks, buf, head);
    Ok(())
}

/// Adds the record of numbers.
#[inline(always)]
pub fn push_numbers(draft: &mut Block, first: u64, others: &[u64]) -> Result<(), AllocError>
    requires some { 1 ≤ length others.now }
    requires few { length others.now < MAX_ROW_FIELDS }
    ensures text { OnOk result (draft_text draft.new ≡ draft_text draft.old ++ rows_text ((decimal first ∷ number_cells others.now 0) ∷ [])) }
{
    let start = draft.room()?;
    let buf = &mut draft.block;
    let head = put_number(first, buf, start);
    draft.at = put_rest(others, 0, buf, head);
    Ok(())
}
