//! Which calls a writer gets, where it is interrupted, where it isn't ready, and of a long text.

use std::io;
use std::io::{ErrorKind, Write};
use text_output::{Output, WriteFault};

/// A writer that answers its first calls with these faults, one to each, and takes all at each later one.
#[derive(Drop)]
struct Faulty<'a> {
    faults: &'a [ErrorKind],
    /// How many calls were made.
    calls: usize,
    /// How many bytes were taken.
    taken: usize,
}

impl Write for Faulty<'_> {
    fn write(&mut self, buf: &[u8]) -> io::Result<usize> {
        let call = self.calls;
        self.calls = call.saturating_add(1);
        if call < self.faults.len() {
            return Err(io::Error::from(self.faults[call]));
        }
        self.taken = self.taken.saturating_add(buf.len());
        Ok(buf.len())
    }

    fn flush(&mut self) -> io::Result<()> {
        Ok(())
    }
}

/// What comes of a text over such a writer, with the calls that were made and the bytes that were taken.
fn put(text: &[u8], faults: &[ErrorKind]) -> (Result<(), WriteFault>, usize, usize) {
    let mut writer = Faulty {
        faults,
        calls: 0,
        taken: 0,
    };
    let answer = Output::new(&mut writer).put(text);
    (answer, writer.calls, writer.taken)
}

#[test]
fn an_interrupted_write_is_made_again(rt: HostRuntime) {
    let faults = [ErrorKind::Interrupted; 3];
    let (answer, calls, taken) = put(b"four", &faults);
    assert!(rt; answer.is_ok() && calls == 4 && taken == 4);
}

#[test]
fn a_writer_that_is_not_ready_has_failed(rt: HostRuntime) {
    let (answer, calls, taken) = put(b"four", &[ErrorKind::WouldBlock]);
    assert!(rt; answer.is_err() && calls == 1 && taken == 0);
}

#[test]
fn a_long_text_is_one_call(rt: HostRuntime) {
    let text = vec![in rt.alloc(); b'x'; 1_000_000].expect(&rt, "memory");
    let (answer, calls, taken) = put(text.as_slice(), &[]);
    assert!(rt; answer.is_ok() && calls == 1 && taken == 1_000_000);
}

/// A writer that takes a number of bytes, and then fails.
#[derive(Drop)]
struct Narrow {
    room: usize,
}

impl Write for Narrow {
    fn write(&mut self, buf: &[u8]) -> io::Result<usize> {
        if self.room == 0 {
            return Err(io::Error::from(ErrorKind::Other));
        }
        let count = self.room.min(buf.len());
        self.room -= count;
        Ok(count)
    }

    fn flush(&mut self) -> io::Result<()> {
        Ok(())
    }
}

#[test]
fn a_text_needs_its_room(rt: HostRuntime) {
    for room in 0..5 {
        let answer = Output::new(Narrow { room }).put(b"four");
        assert!(rt; answer.is_ok() == (room >= 4));
    }
}
