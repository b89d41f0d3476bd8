//! Sources and sinks over the readers and writers of the standard library.

ghost use Rattle.std.specs.Prelude.{◌≡◌, length};
ghost use Rattle.std.specs.Io.KnownBytes.{ReadConsumes, WriteAppends};
ghost use Rattle.hy_base.specs.Faults.{HasCause, faults_after};
ghost use Rattle.hy_base.specs.Source.{ReadsAtMost};
ghost use Rattle.hy_base.specs.Sink.{WritesSome};

use crate::failure::Failed;
use crate::sink::Sink;
use crate::source::Source;
use std::io::{Read, Write};

/// A reader of the outside, which tells the bytes that the reader tells.
///
/// Each error of the reader counts as a fault, also one after which it goes on.
#[derive(Debug, Drop)]
pub struct ReadSource<R> {
    reader: R,
    faults: u64,
}

impl<R: Read> ReadSource<R> {
    /// A source over this reader, without faults so far.
    pub fn new(reader: R) -> ReadSource<R>
        ensures left { ⟦<ReadSource<R> as Source>⟧.left result ≡ R.remaining reader }
        ensures faults { ⟦<ReadSource<R> as Source>⟧.faults result ≡ 0 }
    {
        ReadSource { reader, faults: 0 }
    }
}

impl<R: Read> Source for ReadSource<R> {
    ghost left = { λ source. R.remaining source.reader };

    ghost faults = { λ source. source.faults };

    fn read(&mut self, buf: &mut [u8]) -> Result<usize, Failed>
        ensures count { ReadsAtMost (length buf.old) result }
        ensures takes { let left = ⟦<ReadSource<R> as Source>⟧.left in
            ReadConsumes (left self.old) (left self.new) result buf.new }
        ensures cause { let faults = ⟦<ReadSource<R> as Source>⟧.faults in
            HasCause (faults self.old) (faults self.new) result }
        ensures counts { let faults = ⟦<ReadSource<R> as Source>⟧.faults in
            faults self.new ≡ faults_after (faults self.old) result }
    {
        match self.reader.read(buf) {
            Ok(count) => Ok(count),
            Err(_) => {
                self.faults = self.faults.saturating_add(1);
                Err(Failed)
            }
        }
    }
}

/// A writer of the outside, which tells the bytes that the writer tells.
///
/// Each error of the writer counts as a fault, and so does a write that takes nothing of a piece.
#[derive(Debug, Drop)]
pub struct WriteSink<W> {
    writer: W,
    faults: u64,
}

impl<W: Write> WriteSink<W> {
    /// A sink over this writer, without faults so far.
    pub fn new(writer: W) -> WriteSink<W>
        ensures written { ⟦<WriteSink<W> as Sink>⟧.written result ≡ W.contents writer }
        ensures faults { ⟦<WriteSink<W> as Sink>⟧.faults result ≡ 0 }
    {
        WriteSink { writer, faults: 0 }
    }
}

impl<W: Write> Sink for WriteSink<W> {
    ghost written = { λ sink. W.contents sink.writer };

    ghost faults = { λ sink. sink.faults };

    fn write(&mut self, piece: &[u8]) -> Result<usize, Failed>
        ensures count { WritesSome (length piece.now) result }
        ensures appends { let written = ⟦<WriteSink<W> as Sink>⟧.written in
            WriteAppends (written self.old) (written self.new) result piece.now }
        ensures cause { let faults = ⟦<WriteSink<W> as Sink>⟧.faults in
            HasCause (faults self.old) (faults self.new) result }
        ensures counts { let faults = ⟦<WriteSink<W> as Sink>⟧.faults in
            faults self.new ≡ faults_after (faults self.old) result }
    {
        match self.writer.write(piece) {
            Ok(count) if count > 0 || piece.is_empty() => Ok(count),
            Ok(_) | Err(_) => {
                self.faults = self.faults.saturating_add(1);
                Err(Failed)
            }
        }
    }
}
