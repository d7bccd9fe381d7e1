//! Standard input and output: the raw calls of the system.
ghost use Rattle.std.specs.Prelude.{◌≡◌, ◌≤◌, length, drop, None, IfOk, IfErr, OnOk, OnErr, MatchResult};
ghost use Rattle.std.specs.Result.{IsErrAnd};
ghost use Rattle.std.specs.IoError.{error_kind};
ghost use Rattle.std.specs.Io.KnownBytes.{ReadConsumes};
ghost use Rattle.outer_edge.specs.Calls.{IsFaultOf, IsTakenOf, with_fault};

use crate::source::ROOM;
use crate::{CallCounts, CallFault, InputCalls, OutputCalls, Retried, fault_of};
use std::io::{self, Read};

/// A reader of the system's, as `rt.reader()` or `rt.stdin()`, as a source. It tells no bytes.
pub type StandardInput<R> = Retried<ReaderCalls<R>>;

impl<R> Retried<ReaderCalls<R>> {
    pub fn new(reader: R) -> Self
        ensures { result.faults ≡ 0 }
    {
        Retried::over(ReaderCalls::over(reader))
    }
}

/// The calls of a reader of the system's. That the bytes are those that the system gives is trusted.
#[derive(Drop)]
pub struct ReaderCalls<R> {
    pub(crate) reader: R,
    counts: CallCounts,
}

impl<R> ReaderCalls<R> {
    pub(crate) fn over(reader: R) -> Self {
        ReaderCalls {
            reader,
            counts: CallCounts::new(),
        }
    }
}

impl<R: Read> InputCalls for ReaderCalls<R> {
    ghost left = { λ _. None };

    ghost came = { λ _. None };

    ghost counts = { λ s. s.counts };

    /// Gives at most 4,096 bytes.
    fn read_once(&mut self, room: &mut [u8]) -> Result<usize, CallFault>
        ensures fits { IfOk result (λ count. count ≤ length room.old) }
        ensures rest_of_room { IfOk result (λ count. drop count room.new ≡ drop count room.old) }
        ensures no_fault { OnOk result (self.new.counts ≡ self.old.counts) }
        ensures fault { IfErr result (λ fault. self.new.counts ≡ with_fault fault self.old.counts) }
        ensures room_kept { OnErr result (room.new ≡ room.old) }
        // What the reader gives, where it tells that.
        ensures reads { ReadConsumes (R.remaining self.old.reader) (R.remaining self.new.reader) result room.new }
    {
        // A reader may write past what it says that it gave, so it does not get the room itself.
        let mut buffer = [0; ROOM];
        let wanted = room.len().min(ROOM);
        match self.reader.read(&mut buffer[..wanted]) {
            Ok(count) => {
                room[..count].copy_from_slice(&buffer[..count]);
                Ok(count)
            }
            Err(error) => {
                let fault = fault_of(&error);
                self.counts.add(fault);
                Err(fault)
            }
        }
    }
}

/// Standard output, or what else prints, as a sink. It tells no bytes, and keeps none back: each call is one of the
/// system's.
pub type StandardOutput<'a, P> = Retried<PrinterCalls<'a, P>>;

impl<'a, P> Retried<PrinterCalls<'a, P>> {
    pub fn new(printer: &'a P) -> Self
        ensures { result.faults ≡ 0 }
    {
        Retried::over(PrinterCalls {
            printer,
            counts: CallCounts::new(),
        })
    }
}

/// The calls of what prints. That the bytes are handed to the system is trusted.
///
/// One that takes no byte of a piece that has some has failed.
#[derive(Drop)]
pub struct PrinterCalls<'a, P> {
    printer: &'a P,
    counts: CallCounts,
}

impl<P: Print> OutputCalls for PrinterCalls<'_, P> {
    ghost taken = { λ _. None };

    ghost counts = { λ s. s.counts };

    fn write_once(&mut self, piece: &[u8]) -> Result<usize, CallFault> {
        match taken_of(self.printer.write_some(piece), piece) {
            Ok(count) => Ok(count),
            Err(fault) => {
                self.counts.add(fault);
                Err(fault)
            }
        }
    }
}

// What a call is that the system answered so.
pub(crate) fn taken_of(answer: io::Result<usize>, piece: &[u8]) -> Result<usize, CallFault>
    ensures { MatchResult answer
        (λ count. IsTakenOf count piece.now result)
        (λ error. IsErrAnd result (λ fault. IsFaultOf (error_kind error) fault)) }
{
    match answer {
        Ok(count) if count > 0 || piece.is_empty() => Ok(count),
        Ok(_) => Err(CallFault::Failure),
        Err(error) => Err(fault_of(&error)),
    }
}
