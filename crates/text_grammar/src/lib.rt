//! Parts of texts: what they are is in `specs/`, and their laws are in `proofs/`.
#![tactic(auto)]

ghost use Rattle.std.specs.Prelude.{◌≡◌};
ghost use Rattle.text_grammar.specs.Parts.{most_of};

/// How many items a part repeats.
#[derive(Clone, Copy, Debug, PartialEq, Eq)]
pub enum Repeats {
    /// At most this many: to the end of the text.
    AtMost(u64),
    /// Exactly this many.
    Exactly(u64),
}

impl Repeats {
    /// The most items.
    pub fn most(&self) -> u64
        ensures { result ≡ most_of self.now }
    {
        match self {
            Repeats::AtMost(most) => *most,
            Repeats::Exactly(count) => *count,
        }
    }
}
