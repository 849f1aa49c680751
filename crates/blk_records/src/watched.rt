//! A reader that knows whether a read has failed.

ghost use Rattle.std.specs.Prelude.{◌≡◌, true, false, OnOk, OnErr};
ghost use Rattle.std.specs.Io.{ReadsAtMost};
ghost use Rattle.std.specs.Io.KnownBytes.{ReadConsumes};
ghost use Rattle.blk_records.specs.Watching.{remaining_of, read_failed, left_in, failed_in, is_out};

use std::io;
use std::io::{ErrorKind, Read};

/// A reader that remembers whether a read of it has failed: the CSV reader doesn't tell that from running out of memory. A read that a
/// signal interrupts is made again; the CSV reader would take it for one that failed.
#[derive(Drop)]
pub struct Watched<R> {
    inner: R,
    failed: bool,
}

impl<R: Read> Watched<R> {
    /// A reader of which no read has failed yet.
    pub fn new(inner: R) -> Watched<R>
        ensures left { remaining_of R.remaining result ≡ R.remaining inner }
        ensures fresh { read_failed result ≡ false }
    {
        Watched {
            inner,
            failed: false,
        }
    }

    /// Whether a read has failed.
    pub fn has_failed(&self) -> bool
        ensures { result ≡ read_failed self.now }
    {
        self.failed
    }
}

impl<R: Read> Read for Watched<R> {
    ghost remaining = { remaining_of R.remaining };

    #[tactic(auto, using(crate::proofs::Watching::kept_same, crate::proofs::Watching::kept_on, crate::proofs::Watching::consumed_then))]
    fn read(&mut self, buf: &mut [u8]) -> io::Result<usize>
        ensures bound { ReadsAtMost result buf.new }
        ensures bytes { ReadConsumes (remaining_of R.remaining self.old) (remaining_of R.remaining self.new) result buf.new }
        ensures good { OnOk result (read_failed self.new ≡ read_failed self.old) }
        ensures failed { OnErr result (read_failed self.new ≡ true) }
    {
        for _ in 0..u64::MAX {
            match self.inner.read(buf) {
                Err(fault) if fault.kind() == ErrorKind::Interrupted => {}
                Err(fault) => {
                    self.failed = true;
                    return Err(fault);
                }
                Ok(count) => return Ok(count),
            }
        }
        self.failed = true;
        Err(io::Error::from(ErrorKind::Interrupted))
    }
}

/// Holds such a reader so that it can be taken back: the CSV reader over it gives its own back only at its end. While it is out
/// there is nothing to be read.
#[derive(Drop)]
pub struct Holder<R> {
    held: Option<Watched<R>>,
}

impl<R: Read> Holder<R> {
    /// One that holds this reader.
    pub fn of(reader: Watched<R>) -> Holder<R>
        ensures left { left_in R.remaining result ≡ remaining_of R.remaining reader }
        ensures failed { failed_in result ≡ read_failed reader }
    {
        Holder { held: Some(reader) }
    }

    /// One whose reader is out.
    pub fn empty() -> Holder<R>
        ensures { is_out result }
    {
        Holder { held: None }
    }

    /// Lets one go whose reader is out.
    pub fn over(self)
        requires { is_out self }
    {
        let Holder { held } = self;
        match held {
            None => {}
            Some(_reader) => unreachable!(),
        }
    }

    /// Whether a read of the reader has failed.
    pub fn has_failed(&self) -> bool
        ensures { result ≡ failed_in self.now }
    {
        match &self.held {
            Some(reader) => reader.has_failed(),
            None => false,
        }
    }
}

impl<R: Read> Read for Holder<R> {
    ghost remaining = { left_in R.remaining };

    fn read(&mut self, buf: &mut [u8]) -> io::Result<usize>
        ensures bound { ReadsAtMost result buf.new }
        ensures bytes { ReadConsumes (left_in R.remaining self.old) (left_in R.remaining self.new) result buf.new }
    {
        match &mut self.held {
            Some(reader) => reader.read(buf),
            None => Ok(0),
        }
    }
}
