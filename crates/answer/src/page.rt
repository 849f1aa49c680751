//! JSON that is being written, token by token.

ghost use Rattle.std.specs.Prelude.{◌≡◌, ◌++◌, ◌∷◌, [], IfOk, OnOk};
ghost use Rattle.json.specs.Token as token;
ghost use Rattle.json.specs.Json as value;
ghost use Rattle.json.specs.Print.{print};
ghost use Rattle.answer.specs.Values.{count, signed_count};
ghost use Rattle.answer.specs.Inside.Tokens.{member_tokens};

use json::Writer;
use std::alloc::{AllocError, Global};
use std::marker::Model;

/// The tokens that were written, in their order. Each call that writes some fails when out of memory, where the text can't grow.
#[derive(Drop)]
pub struct Page {
    writer: Writer,
}

impl Model for Page {
    ghost use Rattle.std.specs.Prelude.{◌≡◌, List, []};
    ghost use Rattle.json.specs.Token.{Token, tokens_code};

    ghost Value = { List Token };

    ghost coded = { tokens_code };

    ghost view = { λ p. p.writer.tokens };

    ghost invariant = { λ p. p.writer.before ≡ [] };
}

impl Page {
    /// Nothing yet.
    pub fn new(alloc: Global) -> Page
        ensures { result ≡ [] }
    {
        Page {
            writer: Writer::new(Vec::new(alloc)),
        }
    }

    /// Opens an object.
    pub fn begin_object(&mut self) -> Result<(), AllocError>
        ensures { OnOk result (self.new ≡ self.old ++ token.begin_object ∷ []) }
    {
        self.writer.begin_object()
    }

    /// Closes an object.
    pub fn end_object(&mut self) -> Result<(), AllocError>
        ensures { OnOk result (self.new ≡ self.old ++ token.end_object ∷ []) }
    {
        self.writer.end_object()
    }

    /// Opens an array.
    pub fn begin_array(&mut self) -> Result<(), AllocError>
        ensures { OnOk result (self.new ≡ self.old ++ token.begin_array ∷ []) }
    {
        self.writer.begin_array()
    }

    /// Closes an array.
    pub fn end_array(&mut self) -> Result<(), AllocError>
        ensures { OnOk result (self.new ≡ self.old ++ token.end_array ∷ []) }
    {
        self.writer.end_array()
    }

    /// Writes the name of a member, whose value comes next.
    pub fn key(&mut self, name: &str) -> Result<(), AllocError>
        ensures { OnOk result (self.new ≡ self.old ++ token.key name.now ∷ []) }
    {
        self.writer.key(name)
    }

    /// Writes a member that is a text.
    pub fn string(&mut self, name: &str, text: &str) -> Result<(), AllocError>
        ensures { OnOk result (self.new ≡ self.old ++ member_tokens name.now (value.string text.now)) }
    {
        self.writer.key(name)?;
        self.writer.string(text)
    }

    /// Writes a member that is `null`.
    pub fn null(&mut self, name: &str) -> Result<(), AllocError>
        ensures { OnOk result (self.new ≡ self.old ++ member_tokens name.now value.null) }
    {
        self.writer.key(name)?;
        self.writer.null()
    }

    /// Writes a member that is `true` or `false`.
    pub fn boolean(&mut self, name: &str, is_true: bool) -> Result<(), AllocError>
        ensures { OnOk result (self.new ≡ self.old ++ member_tokens name.now (value.boolean is_true)) }
    {
        self.writer.key(name)?;
        self.writer.boolean(is_true)
    }

    /// Writes a member that is a count.
    pub fn count(&mut self, name: &str, number: u64) -> Result<(), AllocError>
        ensures { OnOk result (self.new ≡ self.old ++ member_tokens name.now (count number)) }
    {
        self.writer.key(name)?;
        self.writer.u64(number)
    }

    /// Writes a member that is a number of either sign.
    pub fn signed(&mut self, name: &str, number: i64) -> Result<(), AllocError>
        ensures { OnOk result (self.new ≡ self.old ++ member_tokens name.now (signed_count number)) }
    {
        self.writer.key(name)?;
        self.writer.i64(number)
    }

    /// The text, and a line's end.
    pub fn finish(self) -> Result<Vec<u8>, AllocError>
        ensures { IfOk result (λ v. v.items ≡ print self ++ 10 ∷ []) }
    {
        let mut text = self.writer.into_inner();
        text.push(b'\n')?;
        Ok(text)
    }
}
