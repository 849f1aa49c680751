//! Fixed words with numbers in them.

use std::alloc::AllocError;
use text_output::Draft;

/// Adds a byte, or the digits of the next number in place of a `$`, and says which numbers are left.
fn push_template_byte<'a>(
    draft: &mut Draft,
    byte: u8,
    numbers: &'a [u64],
) -> Result<&'a [u64], AllocError> {
    if byte != b'$' {
        draft.text(&[byte])?;
        return Ok(numbers);
    }
    if numbers.is_empty() {
        return Ok(numbers);
    }
    draft.number(numbers[0])?;
    Ok(&numbers[1..])
}

/// Adds words, the digits of the next number in place of each `$`. Nothing else of what a trace has gets into a picture.
pub(crate) fn push_template(
    draft: &mut Draft,
    words: &[u8],
    numbers: &[u64],
) -> Result<(), AllocError> {
    let mut rest = numbers;
    for byte in words {
        rest = push_template_byte(draft, *byte, rest)?;
    }
    Ok(())
}
