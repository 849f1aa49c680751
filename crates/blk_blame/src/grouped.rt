//! By what the requests of a capture are put together.

ghost use Rattle.std.specs.Prelude.{◌≡◌};
ghost use Rattle.blk_blame.specs.Grouped.{group_key};

use blk_capture::CapturedRequest;

/// By what requests are put together.
#[derive(Clone, Copy, Debug, PartialEq, Eq)]
pub enum GroupedBy {
    /// The process that opened them.
    Process,
    /// The processor on which that ran.
    Processor,
}

impl GroupedBy {
    /// The number of the process or the processor of a request.
    pub(crate) fn group_key(self, request: &CapturedRequest) -> u64
        ensures { result ≡ group_key self request.now }
    {
        match self {
            GroupedBy::Process => request.pid,
            GroupedBy::Processor => request.cpu,
        }
    }
}
