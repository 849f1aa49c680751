//! Texts whose reader fails after a number of bytes.

use crate::forms::{TextKind, fault_of};
use blk_records::{TextFault, TextReason};
use std::alloc::Global;
use std::io;
use std::io::{ErrorKind, Read};

/// A reader that gives its text byte by byte, and fails at a read.
#[derive(Drop)]
struct Failing<'a> {
    text: &'a [u8],
    fails_at: u64,
}

impl<'a> Read for Failing<'a> {
    fn read(&mut self, buf: &mut [u8]) -> io::Result<usize> {
        if self.fails_at == 0 {
            return Err(io::Error::from(ErrorKind::Other));
        }
        self.fails_at -= 1;
        match self.text.split_first() {
            Some((first, rest)) => {
                if buf.is_empty() {
                    return Ok(0);
                }
                buf[0] = *first;
                self.text = rest;
                Ok(1)
            }
            None => Ok(0),
        }
    }
}

/// A reader of a text that fails after a number of bytes.
fn cut(text: &str, count: usize) -> Failing<'_> {
    Failing {
        text: text.as_bytes(),
        fails_at: count as u64,
    }
}

/// The fault of a read that fails once a number of a text's bytes are read: in the record that is being read.
fn fault_after(text: &str, count: usize) -> Option<TextFault> {
    let mut at: u64 = 1;
    for byte in text.as_bytes().iter().take(count) {
        if *byte == b'\n' {
            at = at.saturating_add(1);
        }
    }
    Some(TextFault {
        at,
        why: TextReason::Read,
    })
}

/// Whether a text whose reader fails after a number of bytes has the fault of that read in a form, for each number of its bytes, and
/// none where the reader fails later.
fn is_cut_everywhere(alloc: Global, form: TextKind, text: &str) -> bool {
    for count in 0..text.len() + 1 {
        if fault_of(alloc, form, cut(text, count)) != fault_after(text, count) {
            return false;
        }
    }
    fault_of(alloc, form, cut(text, 1000)).is_none()
}

#[test]
fn a_read_that_fails(rt: HostRuntime) {
    let text = "blk-commands,1,1\n1,0,0\n\"2\",0,0\n";
    assert!(rt; is_cut_everywhere(rt.alloc(), TextKind::Commands, text));
    let text =
        "blk-script,1,1,1,4,1\nsetup,0,9,256,128,\nbio,0,0,W,100,8\nflush,0,,,,\nrun,2,,,,\n";
    assert!(rt; is_cut_everywhere(rt.alloc(), TextKind::Script, text));
    let text = "blk-certificate,1,1,2\nbound,1,0,0\n1,0,0,0\n2,0,0,1\n";
    assert!(rt; is_cut_everywhere(rt.alloc(), TextKind::Certificate, text));
}

/// Whether a text whose reader fails after this number of bytes has this fault of its second record in a form.
fn is_before(alloc: Global, form: TextKind, text: &str, count: usize, why: TextReason) -> bool {
    fault_of(alloc, form, cut(text, count)) == Some(TextFault { at: 2, why })
}

#[test]
fn a_fault_before_the_read_that_fails(rt: HostRuntime) {
    let alloc = rt.alloc();
    let text = "blk-commands,1,1\n1,0,x\n2,0,0\n";
    assert!(rt; is_before(alloc, TextKind::Commands, text, 24, TextReason::Number));
    let text = "blk-script,1,1,1,4,1\nsetup,0,9,256,129,\ntick,,,,,\n";
    assert!(rt; is_before(alloc, TextKind::Script, text, 42, TextReason::Range));
    let text = "blk-certificate,1,1,1\nbond,1,0,0\n1,0,0,0\n";
    assert!(rt; is_before(alloc, TextKind::Certificate, text, 35, TextReason::Word));
}
