//! What became of each Issue.

ghost use Rattle.std.specs.Prelude.{◌≡◌};
ghost use Rattle.blk_trace.specs.Issues.{was_requeued};

/// What became of an Issue.
#[derive(Clone, Copy, Debug, PartialEq, Eq)]
pub enum Outcome {
    /// Its command is in flight.
    Flying,
    /// Its command has completed.
    Done,
    /// Its request was requeued.
    Back,
}

/// An Issue.
#[derive(Clone, Copy, Debug, PartialEq, Eq)]
pub struct Issued {
    /// Its round.
    pub round: u64,
    /// The id under which its request was released.
    pub id: u64,
    /// Its tag.
    pub tag: u16,
    /// What became of it.
    pub outcome: Outcome,
}

impl Issued {
    /// Whether its request was requeued.
    pub fn was_requeued(&self) -> bool
        ensures { result ≡ was_requeued self.now.outcome }
    {
        match self.outcome {
            Outcome::Flying => false,
            Outcome::Done => false,
            Outcome::Back => true,
        }
    }
}
