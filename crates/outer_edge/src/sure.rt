ghost use Rattle.std.specs.Prelude.{◌≡◌, ◌<◌, ◌≤◌, [], ◌++◌, length, take, drop, min, Some, None, IsOk, IfOk};
ghost use Rattle.outer_edge.specs.Sure.{after_giving};

use crate::{Failed, Sink, Source};
use std::marker::Model;

/// A source over bytes in memory, which never fails.
#[derive(Debug, Drop)]
pub struct SureSource {
    bytes: Vec<u8>,
    given: usize,
}

impl Model for SureSource {
    ghost use Rattle.std.specs.Prelude.{◌≤◌, length, take, drop};
    ghost use Rattle.outer_edge.specs.Sure.{SureBytes};

    ghost Value = { SureBytes };

    ghost view = { λ s. record { came = take s.given s.bytes.items; left = drop s.given s.bytes.items } };

    ghost invariant = { λ s. s.given ≤ length s.bytes.items };
}

impl SureSource {
    pub fn new(bytes: Vec<u8>) -> Self
        ensures none_came { result.came ≡ [] }
        ensures all_left { result.left ≡ bytes.items }
    {
        SureSource { bytes, given: 0 }
    }

    /// The bytes that it gave so far.
    pub fn came(&self) -> &[u8]
        ensures { result.now ≡ self.now.came }
    {
        &self.bytes[..self.given]
    }
}

impl Source for SureSource {
    ghost left = { λ s. Some s.left };

    ghost came = { λ s. Some s.came };

    ghost faults = { λ _. 0 };

    /// Gives as many bytes as there is room for.
    fn read(&mut self, room: &mut [u8]) -> Result<usize, Failed>
        ensures sure { IsOk result }
        ensures count { IfOk result (λ count. count ≡ min (length room.old) (length self.old.left)) }
        ensures bytes { IfOk result (λ count. take count room.new ≡ take count self.old.left) }
        ensures rest_of_room { IfOk result (λ count. drop count room.new ≡ drop count room.old) }
        ensures after { IfOk result (λ count. self.new ≡ after_giving count self.old) }
    {
        let rest = &self.bytes[self.given..];
        let count = room.len().min(rest.len());
        room[..count].copy_from_slice(&rest[..count]);
        self.given += count;
        Ok(count)
    }
}

/// A sink that drops what it takes, and never fails.
#[derive(Clone, Copy, Debug, Default, PartialEq, Eq)]
pub struct SureSink;

impl SureSink {
    pub fn new() -> Self {
        SureSink
    }
}

impl Sink for SureSink {
    ghost taken = { λ _. None };

    ghost faults = { λ _. 0 };

    /// Takes all of the piece.
    fn write(&mut self, piece: &[u8]) -> Result<usize, Failed>
        ensures sure { IsOk result }
        ensures count { IfOk result (λ count. count ≡ length piece.now) }
    {
        Ok(piece.len())
    }
}
