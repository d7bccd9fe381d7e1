//! A connection as a link.
ghost use Rattle.std.specs.Prelude.{◌≡◌, ◌||◌, None, IfOk};
ghost use Rattle.outer_edge.specs.Nets.{is_raised};

use super::patience;
use crate::buffered::Buffered;
use crate::retried::write_retried;
use crate::{Failed, Link, Sink, Source, StreamCalls};
use std::io::{Read, Write};
use std::net::OpenStream;

/// A connection. Bytes are read ahead, up to 4,096 of them, and written at once. A call of the system waits for a silent
/// peer for 30 seconds at most; that it waited longer is a fault, as a connection that was reset is. One that the peer
/// has closed is at its end. It tells no bytes.
#[derive(Drop)]
pub struct LoopbackLink<S> {
    input: Buffered<StreamCalls<S>>,
    write_faults: u64,
}

impl<S: OpenStream + Drop> LoopbackLink<S> {
    pub(crate) fn over(stream: S) -> Result<Self, Failed>
        ensures no_reading_failed { IfOk result (λ link. link.input.faults ≡ 0) }
        ensures no_writing_failed { IfOk result (λ link. link.write_faults ≡ 0) }
    {
        if stream.set_nodelay(true).is_err()
            || stream.set_read_timeout(Some(patience())).is_err()
            || stream.set_write_timeout(Some(patience())).is_err()
        {
            return Err(Failed);
        }
        Ok(LoopbackLink {
            input: Buffered::over(StreamCalls::over(stream)),
            write_faults: 0,
        })
    }
}

impl<S> LoopbackLink<S> {
    /// Whether a call of it has failed.
    pub fn has_fault(&self) -> bool
        ensures { result ≡ is_raised self.now.input.faults || is_raised self.now.write_faults }
    {
        self.input.fault_count() > 0 || self.write_faults > 0
    }
}

impl<S: Read + Write> Source for LoopbackLink<S> {
    ghost use Rattle.outer_edge.specs.Sides.{SinkSide};

    ghost left = { λ _. None };

    ghost came = { λ _. None };

    ghost faults = { λ link. link.input.faults };

    ghost as_sink = { λ link. record { taken = None; faults = link.write_faults } };

    fn read(&mut self, room: &mut [u8]) -> Result<usize, Failed> {
        self.input.read(room)
    }
}

impl<S: Read + Write> Sink for LoopbackLink<S> {
    ghost use Rattle.outer_edge.specs.Sides.{SourceSide};

    ghost taken = { λ _. None };

    ghost faults = { λ link. link.write_faults };

    ghost as_source = { λ link. record { left = None; came = None; faults = link.input.faults } };

    /// None of the piece is kept back.
    fn write(&mut self, piece: &[u8]) -> Result<usize, Failed> {
        match write_retried(&mut self.input.calls, piece) {
            Ok(count) => Ok(count),
            Err(Failed) => {
                self.write_faults = self.write_faults.saturating_add(1);
                Err(Failed)
            }
        }
    }
}

impl<S: Read + Write> Link for LoopbackLink<S> {
    ghost use Rattle.std.specs.Prelude.{refl};

    ghost sink_is = { λ _. refl };

    ghost source_is = { λ _. refl };
}
