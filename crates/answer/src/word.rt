//! Words that stand in an answer.

ghost use Rattle.std.specs.Prelude.{◌≡◌};

use std::marker::Model;

/// A word of a list, or a name: it stands in the program's text, and no input reaches it.
#[derive(Drop)]
pub struct Word {
    text: &'static str,
}

impl Model for Word {
    ghost use Rattle.std.specs.Prelude.{List, ℕ};

    ghost Value = { List ℕ };

    ghost view = { λ w. w.text.now };
}

impl Word {
    /// This word.
    pub fn new(text: &'static str) -> Word
        ensures { result ≡ text.now }
    {
        Word { text }
    }

    /// Its text.
    pub fn text(&self) -> &'static str
        ensures { result.now ≡ self.now }
    {
        self.text
    }
}
