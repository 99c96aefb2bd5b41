// The reader and the writer of the runtime, each with a count of its faults.
ghost use Rattle.std.specs.Prelude.{◌≡◌, ⊤};
ghost use Rattle.dup_io.specs.Std.{reader_faults, reader_of, writer_faults, writer_of};

use crate::ends::{Failed, Sink, Source};
use std::io::{self, Input, Printer, Read, Write};

/// The standard input of a runtime, with a count of its faults.
#[derive(Drop)]
pub struct StdSource<R> {
    reader: R,
    faults: u64,
}

impl<R: Read> StdSource<R> {
    /// The input of this runtime. It takes no memory.
    pub fn new<I: Input<Reader = R>>(rt: &I) -> Self
        ensures { reader_faults result ≡ 0 }
    {
        StdSource {
            reader: rt.reader(),
            faults: 0,
        }
    }
}

impl<R: Read> Source for StdSource<R> {
    ghost left = { λ s. R.remaining (reader_of s) };

    ghost faults = { reader_faults };

    ghost beside = { λ _ _. ⊤ };

    ghost stays = { λ _. tt };

    ghost joins = { λ _ _ _ _ _. tt };

    fn read(&mut self, into: &mut [u8]) -> Result<usize, Failed> {
        match self.reader.read(into) {
            Ok(count) => Ok(count),
            Err(_) => {
                self.faults = self.faults.saturating_add(1);
                Err(Failed)
            }
        }
    }
}

/// The standard output of a runtime, with a count of its faults. A write that takes nothing is one.
#[derive(Drop)]
pub struct StdSink<W> {
    writer: W,
    faults: u64,
}

impl<'a, P: Print> StdSink<Printer<'a, P>> {
    /// The output of this runtime. It takes no memory.
    pub fn new(rt: &'a P) -> Self
        ensures { writer_faults result ≡ 0 }
    {
        StdSink {
            writer: io::writer(rt),
            faults: 0,
        }
    }
}

impl<W: Write> Sink for StdSink<W> {
    ghost written = { λ s. W.contents (writer_of s) };

    ghost faults = { writer_faults };

    ghost beside = { λ _ _. ⊤ };

    ghost stays = { λ _. tt };

    ghost joins = { λ _ _ _ _ _. tt };

    fn write(&mut self, from: &[u8]) -> Result<usize, Failed> {
        match self.writer.write(from) {
            Ok(count) if count > 0 || from.is_empty() => Ok(count),
            _ => {
                self.faults = self.faults.saturating_add(1);
                Err(Failed)
            }
        }
    }
}
