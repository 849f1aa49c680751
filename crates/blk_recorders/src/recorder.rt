//! The recorders.

ghost use Rattle.std.specs.Prelude.{◌≡◌};
ghost use Rattle.blk_recorders.specs.Names.{recorder_name};

/// Who printed the lines.
#[derive(Clone, Copy, Debug, PartialEq, Eq)]
pub enum Recorder {
    /// `blkparse`: its default output, or that of `-f "%T,%t,%c,%a,%p,%d,%S,%n\n"`.
    Blkparse,
    /// ftrace's tracer `blk`, with `options/blk_classic` 1 or 0.
    Ftrace,
    /// `perf script` over the tracepoints of `block`.
    Perf,
    /// `bpftrace` with the program of docs/CAPTURES.md, whose rows may stand out of order.
    Bpftrace,
}

impl Recorder {
    /// What it is called, as `--as` has it.
    pub fn called(self) -> &'static str
        ensures { result.now ≡ recorder_name self }
    {
        match self {
            Recorder::Blkparse => "blkparse",
            Recorder::Ftrace => "ftrace",
            Recorder::Perf => "perf",
            Recorder::Bpftrace => "bpftrace",
        }
    }
}
