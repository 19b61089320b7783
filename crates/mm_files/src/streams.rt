//! The program's input and output, over a reader and a writer. They tell what these tell.

ghost use Rattle.std.specs.Prelude.{◌≡◌, None};

use crate::reason::Reason;
use mm_base::{Sink, Source};
use mm_bytes::Failed;
use std::io::{self, ErrorKind, Read, Write};

/// What the reader and the writer are called.
const INPUT: &str = "standard input";

const OUTPUT: &str = "standard output";

/// A source over a reader.
#[derive(Drop)]
pub struct StdSource<R> {
    reader: R,
    faults: u64,
    last: Option<Reason>,
}

impl<R: Read> StdSource<R> {
    /// A source that had no error yet.
    pub fn new(reader: R) -> StdSource<R>
        ensures reader { result.reader ≡ reader }
        ensures faults { result.faults ≡ 0 }
        ensures reason { result.last ≡ None }
    {
        StdSource {
            reader,
            faults: 0,
            last: None,
        }
    }

    /// Why the last call that failed did. None where none has.
    pub fn last_reason(&self) -> Option<Reason>
        ensures { result ≡ self.now.last }
    {
        self.last
    }
}

impl<R: Read> Source for StdSource<R> {
    ghost left = { λ source. R.remaining source.reader };

    ghost faults = { λ source. source.faults };

    fn take(&mut self, buf: &mut [u8]) -> Result<usize, Failed> {
        match self.reader.read(buf) {
            Ok(count) => Ok(count),
            Err(error) => {
                self.faults = self.faults.saturating_add(1);
                self.last = Some(Reason::System { name: INPUT, error });
                Err(Failed)
            }
        }
    }
}

/// A sink over a writer.
#[derive(Drop)]
pub struct StdSink<W> {
    writer: W,
    faults: u64,
    last: Option<Reason>,
}

impl<W: Write> StdSink<W> {
    /// A sink that had no error yet.
    pub fn new(writer: W) -> StdSink<W>
        ensures writer { result.writer ≡ writer }
        ensures faults { result.faults ≡ 0 }
        ensures reason { result.last ≡ None }
    {
        StdSink {
            writer,
            faults: 0,
            last: None,
        }
    }

    /// Why the last call that failed did. None where none has.
    pub fn last_reason(&self) -> Option<Reason>
        ensures { result ≡ self.now.last }
    {
        self.last
    }
}

impl<W: Write> Sink for StdSink<W> {
    ghost received = { λ sink. W.contents sink.writer };

    ghost faults = { λ sink. sink.faults };

    fn give(&mut self, piece: &[u8]) -> Result<usize, Failed> {
        match self.writer.write(piece) {
            Ok(count) if count > 0 || piece.is_empty() => Ok(count),
            outcome => {
                self.faults = self.faults.saturating_add(1);
                self.last = Some(unwritten(outcome));
                Err(Failed)
            }
        }
    }
}

// Why nothing was written.
fn unwritten(outcome: io::Result<usize>) -> Reason {
    let error = match outcome {
        Ok(_) => io::Error::from(ErrorKind::WriteZero),
        Err(error) => error,
    };
    Reason::System {
        name: OUTPUT,
        error,
    }
}
