//! Reading the bytes of a message that come in pieces.
ghost use Rattle.std.specs.Prelude.{◌≡◌, [], None, Some, Err, MatchResult};
ghost use Rattle.wire_format.specs.declared.fault.WireFault.{WireFault as Fault};
ghost use Rattle.wire_format.specs.Fields.{AreFields};
ghost use Rattle.wire_format.specs.Faults.{IsFault};
ghost use Rattle.wire_fields.specs.Feeding.{IsFed};
ghost use Rattle.wire_fields.specs.declared.pieces.PieceFault.TheVariants.{Wire};

use crate::Octets;
use std::alloc::{AllocError, Global};
use std::error::Error;
use std::fmt;
use std::marker::Model;
use wire_format::{Walk, WireFault};

/// Why a piece was not taken.
#[derive(Clone, Copy, Debug, PartialEq, Eq, Drop)]
pub enum PieceFault {
    /// The bytes so far are no list of fields, whatever bytes follow.
    Wire(WireFault),
    /// Memory was wanting. The bytes so far are as they were.
    NoMemory,
}

impl fmt::Display for PieceFault {
    fn fmt<W: fmt::Write>(&self, f: &mut fmt::Formatter<W>) -> fmt::Result {
        match self {
            PieceFault::Wire(fault) => write!(f, "{fault}"),
            PieceFault::NoMemory => f.write_str("no memory"),
        }
    }
}

impl Error for PieceFault {}

impl From<AllocError> for PieceFault {
    ghost use Rattle.std.specs.Prelude.{◌≡◌};
    ghost use Rattle.wire_fields.specs.declared.pieces.PieceFault.TheVariants.{NoMemory};

    ghost from_gives = { λ _ fault. fault ≡ NoMemory };

    fn from(_error: AllocError) -> PieceFault {
        PieceFault::NoMemory
    }
}

impl From<WireFault> for PieceFault {
    ghost use Rattle.std.specs.Prelude.{◌≡◌};
    ghost use Rattle.wire_fields.specs.declared.pieces.PieceFault.TheVariants.{Wire};

    ghost from_gives = { λ fault piece_fault. piece_fault ≡ Wire fault };

    fn from(fault: WireFault) -> PieceFault {
        PieceFault::Wire(fault)
    }
}

/// Reads the bytes of a message that come in pieces, and looks at each token once.
///
/// Contracts see the bytes that were fed, and the fault that was told.
#[derive(Debug, Drop)]
pub struct Pieces {
    bytes: Vec<u8>,
    walk: Walk,
    fault: Option<WireFault>,
}

impl Model for Pieces {
    ghost use Rattle.std.specs.Prelude.{MatchOption};
    ghost use Rattle.wire_format.specs.Faults.{IsFault};
    ghost use Rattle.wire_format.specs.Walks.{IsWalkedOut};
    ghost use Rattle.wire_fields.specs.Feeding.{Fed};

    ghost Value = { Fed };

    ghost view = { λ pieces. record { bytes = pieces.bytes.items; fault = pieces.fault } };

    ghost invariant = { λ pieces. MatchOption pieces.fault
        (IsWalkedOut pieces.walk pieces.bytes.items)
        (λ fault. IsFault pieces.bytes.items fault.reason fault.at) };
}

impl Pieces {
    /// No bytes. It takes no memory.
    pub fn new(alloc: Global) -> Pieces
        ensures { result ≡ record { bytes = []; fault = None } }
    {
        Pieces {
            bytes: Vec::new(alloc),
            walk: Walk::new(),
            fault: None,
        }
    }

    /// Takes more bytes, in time linear in their number over many calls.
    ///
    /// It refuses bytes that no others could make a list of fields, and answers the same from then on: what is fed
    /// then is dropped.
    pub fn feed(&mut self, piece: &[u8]) -> Result<(), PieceFault>
        ensures first { self.old.fault ≡ None → IsFed self.old piece.now result self.new }
        ensures again { (fault : Fault) → self.old.fault ≡ Some fault →
            (result ≡ Err (Wire fault)) × (self.new ≡ self.old) }
    {
        if let Some(fault) = self.fault {
            return Err(PieceFault::Wire(fault));
        }
        self.bytes.extend_from_slice(piece)?;
        match self.walk.advance(&self.bytes) {
            Ok(()) => Ok(()),
            Err(fault) => {
                self.fault = Some(fault);
                Err(PieceFault::Wire(fault))
            }
        }
    }

    /// All bytes that were fed, without a copy, or the fault that a reader of fields finds in them. It takes constant
    /// time.
    pub fn finish(self) -> Result<Octets, WireFault>
        ensures whole { MatchResult result
            (λ octets. (octets ≡ self.bytes) × AreFields self.bytes)
            (λ fault. IsFault self.bytes fault.reason fault.at) }
        ensures kept { (fault : Fault) → self.fault ≡ Some fault → result ≡ Err fault }
    {
        if let Some(fault) = self.fault {
            return Err(fault);
        }
        self.walk.end(&self.bytes)?;
        Ok(Octets::from_vec(self.bytes))
    }
}
