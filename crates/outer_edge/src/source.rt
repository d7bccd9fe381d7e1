ghost use Rattle.std.specs.Prelude.{◌≡◌, ◌+◌, ◌-◌, ◌^◌, ◌<◌, ◌≤◌, ℕ, List, length, take, drop, IfOk, IfErr, OnOk, OnErr, Option, IfSome};
ghost use Rattle.outer_edge.specs.Faults.{Rose, NeverFalls};
ghost use Rattle.outer_edge.specs.Source.{Gave, GaveUpTo, GaveCount, GaveOnto, IsAtEnd, IsAllOf, HasCause, IfTooBig, IfNoMemory};
ghost use Rattle.outer_edge.specs.Sides.{SinkSide, no_sink};
ghost use Rattle.outer_edge.specs.declared.source.ReadEnd.TheVariants.{NoMemory as OutOfMemory};

use crate::Failed;
use std::alloc::{AllocError, AllocFailed, Global};
use thiserror::Error;

// How many bytes one call of the outside is asked for at most.
pub(crate) const ROOM: usize = 4096;

/// What gives bytes, as a file or a peer does.
pub trait Source {
    /// The bytes that are still to come, where the source tells.
    ghost left: { Self → Option (List ℕ) };

    /// The bytes that it gave so far, where it tells.
    ghost came: { Self → Option (List ℕ) };

    /// How often the outside has failed. At 2^64 - 1 it stays.
    ghost faults: { Self → ℕ };

    /// What it says as a sink, where it is one too.
    ghost as_sink: { Self → SinkSide } = { λ _. no_sink };

    /// Gives the next bytes at the front of the room, and says how many. None in a room that is not empty
    /// means that there are no more. After an `Err` the room may hold anything.
    fn read(&mut self, room: &mut [u8]) -> Result<usize, Failed>
        ensures fits { IfOk result (λ count. count ≤ length room.old) }
        ensures gave { IfOk result (λ count. Gave left came self.old self.new (take count room.new)) }
        ensures rest_of_room { IfOk result (λ count. drop count room.new ≡ drop count room.old) }
        ensures ended { IfOk result (λ count. count ≡ 0 → 0 < length room.old → IsAtEnd (left self.old)) }
        ensures no_fault { OnOk result (faults self.new ≡ faults self.old) }

        ensures failed { OnErr result (Rose (faults self.old) (faults self.new)) }
        ensures none_lost { OnErr result (left self.new ≡ left self.old) }
        ensures none_came { OnErr result (came self.new ≡ came self.old) }
        ensures never_falls { NeverFalls (faults self.old) (faults self.new) }
        ensures sink_kept { as_sink self.new ≡ as_sink self.old };
}

/// Why `read_up_to` gave no bytes.
#[derive(Clone, Copy, Debug, PartialEq, Eq, Error)]
pub enum ReadEnd {
    #[error("the source failed")]
    ReadFault,
    /// `count` is how many bytes came until it was clear: one more than the limit.
    #[error("{count} bytes came, which is too many")]
    TooBig { count: u64 },
    #[error("memory ran out")]
    NoMemory,
}

impl From<AllocError> for ReadEnd {
    ghost from_gives = { λ _ end. end ≡ OutOfMemory };

    fn from(_: AllocError) -> Self {
        ReadEnd::NoMemory
    }
}

impl<T: Drop> From<AllocFailed<T>> for ReadEnd {
    ghost from_gives = { λ _ end. end ≡ OutOfMemory };

    fn from(_: AllocFailed<T>) -> Self {
        ReadEnd::NoMemory
    }
}

/// Reads all the bytes to the end, at most `limit` of them. It asks for no byte past `limit + 1`.
///
/// The cost is one pass over the bytes, and memory for those that came.
pub fn read_up_to<S: Source>(alloc: Global, source: &mut S, limit: u64) -> Result<Vec<u8>, ReadEnd>
    requires { limit < 2 ^ 63 }

    // At `Ok` it is all that was left.
    ensures gave { IfOk result (λ bytes. Gave S.left S.came source.old source.new bytes.items) }
    ensures within { IfOk result (λ bytes. length bytes.items ≤ limit) }
    ensures whole { IfOk result (λ bytes. IsAllOf (S.left source.old) bytes.items) }
    ensures ended { OnOk result (IsAtEnd (S.left source.new)) }
    ensures no_fault { OnOk result (S.faults source.new ≡ S.faults source.old) }
    ensures fits { OnOk result (IfSome (S.left source.old) (λ all. length all ≤ limit)) }

    // At `TooBig` one byte more than the limit came.
    ensures too_big { IfErr result (λ end. IfTooBig end (λ count. count ≡ limit + 1)) }
    ensures gave_more { IfErr result (λ end. IfTooBig end (λ _.
        GaveCount S.left S.came source.old source.new (limit + 1))) }
    ensures was_longer { IfErr result (λ end. IfTooBig end (λ _.
        IfSome (S.left source.old) (λ all. limit < length all))) }

    // At `NoMemory` no more than the limit came: bytes that are known to be too many are told as such.
    ensures memory { IfErr result (λ end. IfNoMemory end (GaveUpTo S.left S.came source.old source.new limit)) }

    // In every case.
    ensures cause { IfErr result (λ end. HasCause end (S.faults source.old) (S.faults source.new)) }
    ensures gave_some { GaveUpTo S.left S.came source.old source.new (limit + 1) }
    ensures never_falls { NeverFalls (S.faults source.old) (S.faults source.new) }
    ensures sink_kept { S.as_sink source.new ≡ S.as_sink source.old }
{
    let mut bytes = Vec::new(alloc);
    while read_piece(source, &mut bytes, limit)? > 0 {}
    Ok(bytes)
}

// Reads once, and puts what came at the end of the bytes, if they are not too many with it. 0 says that the source is at
// its end.
fn read_piece<S: Source>(source: &mut S, bytes: &mut Vec<u8>, limit: u64) -> Result<usize, ReadEnd>
    requires within { length bytes.old.items ≤ limit }
    requires fits { limit < 2 ^ 63 }

    ensures gave { IfOk result (GaveOnto S.left S.came source.old source.new bytes.old.items bytes.new.items) }
    ensures still_within { OnOk result (length bytes.new.items ≤ limit) }
    ensures ended { IfOk result (λ count. count ≡ 0 → IsAtEnd (S.left source.old)) }
    ensures no_fault { OnOk result (S.faults source.new ≡ S.faults source.old) }

    ensures too_big { IfErr result (λ end. IfTooBig end (λ count. count ≡ limit + 1)) }
    ensures gave_more { IfErr result (λ end. IfTooBig end (λ _.
        GaveCount S.left S.came source.old source.new (limit + 1 - length bytes.old.items))) }
    ensures memory { IfErr result (λ end. IfNoMemory end
        (GaveUpTo S.left S.came source.old source.new (limit - length bytes.old.items))) }
    ensures cause { IfErr result (λ end. HasCause end (S.faults source.old) (S.faults source.new)) }
    ensures gave_some { GaveUpTo S.left S.came source.old source.new (limit + 1 - length bytes.old.items) }
    ensures never_falls { NeverFalls (S.faults source.old) (S.faults source.new) }
    ensures sink_kept { S.as_sink source.new ≡ S.as_sink source.old }
{
    let wanted = limit + 1 - bytes.len() as u64;
    let mut buffer = [0; ROOM];
    let room = &mut buffer[..wanted.min(ROOM as u64) as usize];
    let Ok(count) = source.read(room) else {
        return Err(ReadEnd::ReadFault);
    };
    if count as u64 == wanted {
        return Err(ReadEnd::TooBig { count: limit + 1 });
    }
    bytes.extend_from_slice(&room[..count])?;
    Ok(count)
}
