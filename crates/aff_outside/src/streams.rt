//! Standard input and output. What is said of their bytes holds of any reader and writer that tell theirs; the
//! standard streams tell nothing.
ghost use Rattle.std.specs.Prelude.{◌≡◌, ◌≤◌, ℕ, length, take, OnOk, IsErr, IsErrOf};
ghost use Rattle.std.specs.Io.KnownBytes.{Appends};
ghost use Rattle.aff_model.specs.Causes.{HasCause};

use crate::faults::{Faults, LastError};
use crate::outcome::counted;
use crate::text::{Sink, SinkError, Source, SourceFailed};
use crate::write_whole::write_whole;
use std::io;
use std::io::{Read, Stdin, Stdout, Write};

/// A reader as a source: standard input.
#[derive(Drop)]
pub struct InputSource<R = Stdin> {
    reader: R,
    faults: Faults,
}

impl InputSource {
    pub fn new(rt: HostRuntime) -> InputSource {
        InputSource::over(rt.stdin())
    }
}

impl<R: Read> InputSource<R> {
    pub(crate) fn over(reader: R) -> InputSource<R> {
        InputSource {
            reader,
            faults: Faults::none(),
        }
    }
}

impl<R> LastError for InputSource<R> {
    fn last_error(&self) -> Option<io::Error> {
        self.faults.last()
    }
}

impl<R: Read + Drop> Source for InputSource<R> {
    ghost left = { λ s. R.remaining s.reader };

    ghost source_faults = { λ s. s.faults };

    fn read(&mut self, out: &mut [u8]) -> Result<usize, SourceFailed> {
        let outcome = self.reader.read(out);
        counted(outcome, SourceFailed, &mut self.faults)
    }
}

/// A writer as a sink: standard output. It never answers `Memory`.
#[derive(Drop)]
pub struct OutputSink<W = Stdout> {
    writer: W,
    faults: Faults,
}

impl OutputSink {
    pub fn new(rt: HostRuntime) -> OutputSink {
        OutputSink::over(rt.stdout())
    }
}

impl<W: Write> OutputSink<W> {
    pub(crate) fn over(writer: W) -> OutputSink<W> {
        OutputSink {
            writer,
            faults: Faults::none(),
        }
    }
}

impl<W> LastError for OutputSink<W> {
    fn last_error(&self) -> Option<io::Error> {
        self.faults.last()
    }
}

impl<W: Write + Drop> Sink for OutputSink<W> {
    ghost written = { λ s. W.contents s.writer };

    ghost sink_faults = { λ s. s.faults };

    fn write(&mut self, bytes: &[u8]) -> Result<(), SinkError>
        ensures ok { OnOk result (Appends (W.contents self.old.writer) (W.contents self.new.writer) bytes.now) }
        ensures failed { IsErrOf result SinkError.Failed → (n : ℕ) × (n ≤ length bytes.now)
            × Appends (W.contents self.old.writer) (W.contents self.new.writer) (take n bytes.now) }
        ensures never { ¬ (IsErrOf result SinkError.Memory) }
        ensures cause { HasCause self.old.faults self.new.faults (IsErr result) }
    {
        let outcome = write_whole(&mut self.writer, bytes);
        counted(outcome, SinkError::Failed, &mut self.faults)
    }
}
