//! Whether a writer has failed.

ghost use Rattle.std.specs.Prelude.{◌≡◌, [], None, true, false, IfSome, IfNone};
ghost use Rattle.std.specs.Io.KnownBytes.{Appends};
ghost use Rattle.text_output.specs.Outputs.{is_set};
ghost use Rattle.text_output.specs.Inside.Taken.{AppendsSome};

use std::io::{ErrorKind, Write};

/// Whether a call of a writer has failed; only a call sets it, and nothing takes it back.
#[derive(Clone, Copy, Debug, PartialEq, Eq)]
pub struct Mark {
    failed: bool,
}

impl Mark {
    /// No call has failed yet.
    pub fn new() -> Mark
        ensures { is_set result ≡ false }
    {
        Mark { failed: false }
    }

    /// Notes that a call failed.
    fn fail(&mut self) -> Option<usize>
        ensures none { result ≡ None }
        ensures set { is_set self.new ≡ true }
    {
        self.failed = true;
        None
    }

    /// Hands bytes to a writer in one call, which is made again where it was interrupted, and says how many it took: one at least.
    ///
    /// `None`: the call failed. The writer answered another fault or took nothing, or was interrupted without end.
    pub fn offer<W: Write>(&mut self, writer: &mut W, bytes: &[u8]) -> Option<usize>
        ensures took { IfSome result (AppendsSome (W.contents writer.old) (W.contents writer.new) bytes.now) }
        ensures good { IfSome result (λ _. self.new ≡ self.old) }
        ensures kept { IfNone result (Appends (W.contents writer.old) (W.contents writer.new) []) }
        ensures set { IfNone result (is_set self.new ≡ true) }
    {
        for _ in 0..u64::MAX {
            match writer.write(bytes) {
                Ok(0) => return self.fail(),
                Ok(count) => return Some(count),
                Err(fault) => {
                    if fault.kind() != ErrorKind::Interrupted {
                        return self.fail();
                    }
                }
            }
        }
        self.fail()
    }
}
