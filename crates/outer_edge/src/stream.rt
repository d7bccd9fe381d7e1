//! A stream of the system's, which gives bytes and takes them: the raw calls of it.
ghost use Rattle.std.specs.Prelude.{◌≡◌, None};
ghost use Rattle.outer_edge.specs.declared.calls.CallCounts.{CallCounts as Counts};

use crate::standard::taken_of;
use crate::{CallCounts, CallFault, InputCalls, OutputCalls, ReaderCalls};
use std::io::{Read, Write};

/// The calls of a stream of the system's, as a connection is. That the bytes are those that the system gives, and that
/// they are handed to it, is trusted.
#[derive(Drop)]
pub struct StreamCalls<S> {
    reads: ReaderCalls<S>,
    writes: CallCounts,
}

impl<S> StreamCalls<S> {
    pub fn over(stream: S) -> Self {
        StreamCalls {
            reads: ReaderCalls::over(stream),
            writes: CallCounts::new(),
        }
    }
}

impl<S: Read> InputCalls for StreamCalls<S> {
    ghost left = { λ _. None };

    ghost came = { λ _. None };

    ghost counts = { λ s. s.reads.counts };

    /// Gives at most 4,096 bytes.
    fn read_once(&mut self, room: &mut [u8]) -> Result<usize, CallFault> {
        self.reads.read_once(room)
    }
}

impl<S: Write> OutputCalls for StreamCalls<S> {
    ghost taken = { λ _. None };

    ghost counts = { λ s. s.writes };

    /// A call that takes no byte of a piece that has some has failed.
    fn write_once(&mut self, piece: &[u8]) -> Result<usize, CallFault> {
        match taken_of(self.reads.reader.write(piece), piece) {
            Ok(count) => Ok(count),
            Err(fault) => {
                self.writes.add(fault);
                Err(fault)
            }
        }
    }
}
