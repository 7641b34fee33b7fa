//! Devices, a source and a sink that are watched: what passes is counted, and nothing else is different.
ghost use Rattle.std.specs.Prelude.{◌≡◌};

use crate::board::Board;
use crate::plan_count::PlanCount;
use aff_outside::{Device, DeviceFailed, Sink, SinkError, Source, SourceFailed};
use std::marker::Model;
use std::sync::Arc;

/// A device whose readings are counted. `reader` is the number of its reader.
#[derive(Drop)]
pub struct WatchedDevice<D: Device> {
    device: D,
    reader: usize,
    board: Arc<Board>,
}

impl<D: Device> Model for WatchedDevice<D> {
    ghost Value = { D };

    ghost view = { λ d. d.device };
}

impl<D: Device> WatchedDevice<D> {
    pub fn new(device: D, reader: usize, board: Arc<Board>) -> WatchedDevice<D>
        ensures { result ≡ device }
    {
        WatchedDevice {
            device,
            reader,
            board,
        }
    }
}

impl<D: Device> Device for WatchedDevice<D> {
    ghost device_content = { λ d. D.device_content d };

    ghost device_block = { λ d. D.device_block d };

    ghost device_size = { λ d. D.device_size d };

    ghost device_faults = { λ d. D.device_faults d };

    fn block(&self) -> u32 {
        self.device.block()
    }

    fn size(&self) -> u64 {
        self.device.size()
    }

    fn read_at(&mut self, at: u64, out: &mut [u8]) -> Result<(), DeviceFailed> {
        let outcome = self.device.read_at(at, out);
        if outcome.is_ok() {
            self.board.read(out.len());
        } else if out.len() <= self.device.block() as usize {
            self.board.fail(self.reader);
        }
        outcome
    }
}

/// A source whose text is a plan, which is counted.
#[derive(Drop)]
pub struct WatchedSource<S: Source> {
    source: S,
    count: PlanCount,
    board: Arc<Board>,
}

impl<S: Source> Model for WatchedSource<S> {
    ghost Value = { S };

    ghost view = { λ s. s.source };
}

impl<S: Source> WatchedSource<S> {
    pub fn new(source: S, board: Arc<Board>) -> WatchedSource<S>
        ensures { result ≡ source }
    {
        WatchedSource {
            source,
            count: PlanCount::new(),
            board,
        }
    }

    pub fn source(&self) -> &S
        ensures { result.now ≡ self.now }
    {
        &self.source
    }
}

impl<S: Source> Source for WatchedSource<S> {
    ghost left = { λ s. S.left s };

    ghost source_faults = { λ s. S.source_faults s };

    fn read(&mut self, out: &mut [u8]) -> Result<usize, SourceFailed> {
        let outcome = self.source.read(out);
        match outcome {
            Ok(0) => self.count.end(),
            Ok(count) => self.count.take(&out[..count]),
            Err(_) => {}
        }
        self.board.plan(&self.count);
        outcome
    }
}

/// A sink whose first bytes end the line that is shown.
#[derive(Drop)]
pub struct WatchedSink<S: Sink> {
    sink: S,
    board: Arc<Board>,
}

impl<S: Sink> Model for WatchedSink<S> {
    ghost Value = { S };

    ghost view = { λ s. s.sink };
}

impl<S: Sink> WatchedSink<S> {
    pub fn new(sink: S, board: Arc<Board>) -> WatchedSink<S>
        ensures { result ≡ sink }
    {
        WatchedSink { sink, board }
    }

    pub fn sink(&self) -> &S
        ensures { result.now ≡ self.now }
    {
        &self.sink
    }
}

impl<S: Sink> Sink for WatchedSink<S> {
    ghost written = { λ s. S.written s };

    ghost sink_faults = { λ s. S.sink_faults s };

    fn write(&mut self, bytes: &[u8]) -> Result<(), SinkError> {
        self.board.end();
        self.sink.write(bytes)
    }
}
