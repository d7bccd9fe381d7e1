ghost use Rattle.std.specs.Prelude.{◌≡◌, ◌<◌, ◌≤◌, ℕ, List, length, take, IfOk, IfErr, OnOk, OnErr, Option};
ghost use Rattle.outer_edge.specs.Faults.{Rose, NeverFalls};
ghost use Rattle.outer_edge.specs.Sides.{SourceSide, no_source};
ghost use Rattle.outer_edge.specs.Source.{Grew};

use crate::Failed;
use thiserror::Error;

/// What takes bytes, as a file or a peer does.
pub trait Sink {
    /// The bytes that it took so far, where the sink tells.
    ghost taken: { Self → Option (List ℕ) };

    /// How often the outside has failed. At 2^64 - 1 it stays.
    ghost faults: { Self → ℕ };

    /// What it says as a source, where it is one too.
    ghost as_source: { Self → SourceSide } = { λ _. no_source };

    /// Takes bytes at the front of the piece, and says how many: at least one, where there is one.
    fn write(&mut self, piece: &[u8]) -> Result<usize, Failed>
        ensures fits { IfOk result (λ count. count ≤ length piece.now) }
        ensures took { IfOk result (λ count. Grew (taken self.old) (taken self.new) (take count piece.now)) }
        ensures goes_on { IfOk result (λ count. 0 < length piece.now → 0 < count) }
        ensures no_fault { OnOk result (faults self.new ≡ faults self.old) }

        ensures failed { OnErr result (Rose (faults self.old) (faults self.new)) }
        ensures none_taken { OnErr result (taken self.new ≡ taken self.old) }
        ensures never_falls { NeverFalls (faults self.old) (faults self.new) }
        ensures source_kept { as_source self.new ≡ as_source self.old };
}

/// A sink failed, after it took this many bytes of the whole.
#[derive(Clone, Copy, Debug, PartialEq, Eq, Error)]
#[error("the sink failed after {written} bytes")]
pub struct WriteFault {
    pub written: u64,
}

/// Writes all the bytes, in as many calls as the sink needs.
pub fn write_whole<O: Sink>(sink: &mut O, bytes: &[u8]) -> Result<(), WriteFault>
    ensures whole { OnOk result (Grew (O.taken sink.old) (O.taken sink.new) bytes.now) }
    ensures no_fault { OnOk result (O.faults sink.new ≡ O.faults sink.old) }

    // What was taken before the fault is some front of the bytes, and not all of them.
    ensures part { IfErr result (λ fault. Grew (O.taken sink.old) (O.taken sink.new) (take fault.written bytes.now)) }
    ensures cut_short { IfErr result (λ fault. fault.written < length bytes.now) }
    ensures failed { OnErr result (Rose (O.faults sink.old) (O.faults sink.new)) }
    ensures never_falls { NeverFalls (O.faults sink.old) (O.faults sink.new) }
    ensures source_kept { O.as_source sink.new ≡ O.as_source sink.old }
{
    let mut written = 0;
    while written < bytes.len() {
        match sink.write(&bytes[written..]) {
            Ok(count) => written += count,
            Err(Failed) => {
                return Err(WriteFault {
                    written: written as u64,
                });
            }
        }
    }
    Ok(())
}
