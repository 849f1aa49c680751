//! Writers, and how a text reaches one.

ghost use Rattle.std.specs.Prelude.{◌≡◌, ◌<◌, false, true, OnOk, OnErr, IfErr, flat_map};
ghost use Rattle.std.specs.Io.KnownBytes.{Appends};
ghost use Rattle.text_output.specs.Parts.{AppendsLess};
ghost use Rattle.text_output.specs.Outputs.{Writes, is_set, stream_of};

use crate::fault::WriteFault;
use crate::mark::Mark;
use std::io::Write;

/// Hands a text to a writer, by as many calls as it takes.
fn hand<W: Write>(mark: &mut Mark, writer: &mut W, text: &[u8]) -> Result<(), WriteFault>
    ensures ok { OnOk result (Appends (W.contents writer.old) (W.contents writer.new) text.now) }
    ensures good { OnOk result (mark.new ≡ mark.old) }
    ensures set { OnErr result (is_set mark.new ≡ true) }
    ensures less { OnErr result (AppendsLess (W.contents writer.old) (W.contents writer.new) text.now) }
{
    let mut rest = text;
    // each turn takes a byte at least
    for turn in 0..text.len() {
        if rest.is_empty() {
            return Ok(());
        }
        match mark.offer(writer, rest) {
            Some(count) => rest = &rest[count..],
            None => return Err(WriteFault),
        }
    }
    Ok(())
}

/// A writer, and whether it has failed, which std's `Write` has no word for. Nothing is written to it but by the methods here.
#[derive(Drop)]
pub struct Output<W> {
    writer: W,
    mark: Mark,
}

impl<W: Write> Output<W> {
    /// A writer that has not failed yet.
    pub fn new(writer: W) -> Output<W>
        ensures held { (stream_of W.contents result).held ≡ W.contents writer }
        ensures fresh { (stream_of W.contents result).failed ≡ false }
    {
        Output {
            writer,
            mark: Mark::new(),
        }
    }

    /// Writes a text that is whole, by as many calls of the writer as it takes; one that is interrupted is made again.
    ///
    /// [`WriteFault`]: the writer failed, or took nothing of what was left, and a prefix of the text, never the whole, is out.
    pub fn put(&mut self, text: &[u8]) -> Result<(), WriteFault>
        ensures { Writes text.now (stream_of W.contents self.old) (stream_of W.contents self.new) result }
    {
        hand(&mut self.mark, &mut self.writer, text)
    }

    /// Writes the parts of a text, one after another, to the first at which the writer fails.
    pub fn put_all(&mut self, parts: &[&[u8]]) -> Result<(), WriteFault>
        ensures { Writes (flat_map (λ part. part.now) parts.now) (stream_of W.contents self.old) (stream_of W.contents self.new) result }
    {
        for i in 0..parts.len() {
            match self.put(parts[i]) {
                Ok(()) => {}
                Err(fault) => return Err(fault),
            }
        }
        Ok(())
    }
}
