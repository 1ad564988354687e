//! Sources and sinks over the readers and writers of std. When a reader or a writer fails, and what the system does with
//! the bytes, no contract says: here stands that failures are counted, and what the reader or the writer tells itself.
ghost use Rattle.std.specs.Prelude.{◌≡◌};
ghost use Rattle.fcg_bytes.specs.Objects.{aside_of_none};

use crate::{Failed, Sink, Source};
use std::io::{Read, Write};

/// A source over a reader, as standard input. It has left what the reader tells: a reader over memory tells its bytes,
/// and standard input tells nothing. Every error of the reader is a failure, an interrupted call too.
#[derive(Drop)]
pub struct StdSource<R> {
    reader: R,
    faults: u64,
}

impl<R: Read> StdSource<R> {
    ghost use Rattle.fcg_bytes.specs.Standard.{source_reader, source_faults};

    /// A source over this reader, which has not failed yet.
    pub fn new(reader: R) -> StdSource<R>
        ensures reader { source_reader result ≡ reader }
        ensures faults { source_faults result ≡ 0 }
    {
        StdSource { reader, faults: 0 }
    }
}

impl<R: Read> Source for StdSource<R> {
    ghost left = { λ s. R.remaining s.reader };

    ghost faults = { λ s. s.faults };

    ghost aside = { λ _. aside_of_none };

    fn read(&mut self, buf: &mut [u8]) -> Result<usize, Failed> {
        match self.reader.read(buf) {
            Ok(count) => Ok(count),
            Err(_) => {
                self.faults = self.faults.saturating_add(1);
                Err(Failed)
            }
        }
    }
}

/// A sink over a writer, as standard output or standard error. It took what the writer tells: a `Vec` tells its bytes,
/// and the standard streams tell nothing. Every error of the writer is a failure, an interrupted call too, and so is a
/// write that takes none of some bytes. It flushes nothing: what a writer with a buffer of its own holds back is
/// written by that writer.
#[derive(Drop)]
pub struct StdSink<W> {
    writer: W,
    faults: u64,
}

impl<W: Write> StdSink<W> {
    ghost use Rattle.fcg_bytes.specs.Standard.{sink_writer, sink_faults};

    /// A sink over this writer, which has not failed yet.
    pub fn new(writer: W) -> StdSink<W>
        ensures writer { sink_writer result ≡ writer }
        ensures faults { sink_faults result ≡ 0 }
    {
        StdSink { writer, faults: 0 }
    }
}

impl<W: Write> Sink for StdSink<W> {
    ghost taken = { λ s. W.contents s.writer };

    ghost faults = { λ s. s.faults };

    ghost aside = { λ _. aside_of_none };

    fn write(&mut self, bytes: &[u8]) -> Result<usize, Failed> {
        match self.writer.write(bytes) {
            Ok(count) if count > 0 || bytes.is_empty() => Ok(count),
            _ => {
                self.faults = self.faults.saturating_add(1);
                Err(Failed)
            }
        }
    }
}
