// One object in memory that is a source and a sink.
ghost use Rattle.std.specs.Prelude.{◌≡◌, Some};
ghost use Rattle.dup_io.specs.Memory.{source_left, source_faults, sink_written, sink_faults};
ghost use Rattle.dup_io.specs.MemoryLine.{line_sink, line_source, SameBesideSource, SameBesideSource-refl};
ghost use Rattle.dup_io.specs.MemoryLine.{SameBesideSource-trans, SameBesideSink, SameBesideSink-refl};
ghost use Rattle.dup_io.specs.MemoryLine.{SameBesideSink-trans, source_left_of, source_faults_of};
ghost use Rattle.dup_io.specs.MemoryLine.{sink_written_of, sink_faults_of};

use crate::ends::{Duplex, Failed, Sink, Source};
use crate::memory::{MemorySink, MemorySource};

/// A source and a sink in memory, as one line.
#[derive(Drop)]
pub struct MemoryLine {
    source: MemorySource,
    sink: MemorySink,
}

impl MemoryLine {
    /// A line that reads this source and writes this sink.
    pub fn new(source: MemorySource, sink: MemorySink) -> Self
        ensures source { line_source result ≡ source }
        ensures sink { line_sink result ≡ sink }
    {
        MemoryLine { source, sink }
    }

    /// The sink, with what was written.
    pub fn sink(&self) -> &MemorySink
        ensures { result.now ≡ line_sink self.now }
    {
        &self.sink
    }
}

impl Source for MemoryLine {
    ghost left = { λ l. Some (source_left (line_source l)) };

    ghost faults = { λ l. source_faults (line_source l) };

    ghost beside = { SameBesideSource };

    ghost stays = { SameBesideSource-refl };

    ghost joins = { SameBesideSource-trans };

    fn read(&mut self, into: &mut [u8]) -> Result<usize, Failed> {
        self.source.read(into)
    }
}

impl Sink for MemoryLine {
    ghost written = { λ l. Some (sink_written (line_sink l)) };

    ghost faults = { λ l. sink_faults (line_sink l) };

    ghost beside = { SameBesideSink };

    ghost stays = { SameBesideSink-refl };

    ghost joins = { SameBesideSink-trans };

    fn write(&mut self, from: &[u8]) -> Result<usize, Failed> {
        self.sink.write(from)
    }
}

impl Duplex for MemoryLine {
    ghost read_keeps_written = { sink_written_of };

    ghost read_keeps_faults = { sink_faults_of };

    ghost write_keeps_left = { source_left_of };

    ghost write_keeps_faults = { source_faults_of };
}
