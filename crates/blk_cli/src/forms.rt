//! Answers in their forms.

ghost use Rattle.std.specs.Prelude.{◌≡◌, IfOk};
ghost use Rattle.blk_cli.specs.Forms.{written_in};

use answer::{Answer, json, lines};
use blk_args::Form;
use std::alloc::{AllocError, Global};

/// An answer in this form. Fails only when out of memory.
pub fn written(alloc: Global, form: Form, answer: &Answer) -> Result<Vec<u8>, AllocError>
    ensures { IfOk result (λ text. text.items ≡ written_in form answer.now) }
{
    match form {
        Form::Lines => lines(alloc, answer),
        Form::Json => json(alloc, answer),
    }
}
