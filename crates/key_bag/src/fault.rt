//! Why a bag does not seal or unseal.
use nigori::UnsealFault;
use std::error::Error;
use std::fmt;
use wire_fields::{NoMemory, Octets};

/// Why a text was not sealed or unsealed under a key of a given name.
#[derive(Debug, PartialEq, Eq, Drop)]
pub enum AnyFault {
    /// The bag has no key of this name.
    NoKey { name: Octets },
    /// The key does not unseal the text. Want of memory is told as `NoMemory`.
    Unseal(UnsealFault),
    NoMemory,
}

impl fmt::Display for AnyFault {
    fn fmt<W: fmt::Write>(&self, f: &mut fmt::Formatter<W>) -> fmt::Result {
        match self {
            AnyFault::NoKey { .. } => f.write_str("no key of this name"),
            AnyFault::Unseal(fault) => write!(f, "{fault}"),
            AnyFault::NoMemory => f.write_str("no memory"),
        }
    }
}

impl Error for AnyFault {}

impl From<NoMemory> for AnyFault {
    ghost use Rattle.std.specs.Prelude.{◌≡◌};
    ghost use Rattle.key_bag.specs.declared.fault.AnyFault.TheVariants.{NoMemory};

    ghost from_gives = { λ _ fault. fault ≡ NoMemory };

    fn from(_error: NoMemory) -> AnyFault {
        AnyFault::NoMemory
    }
}

/// Why a text was not sealed under the default key.
#[derive(Clone, Copy, Debug, PartialEq, Eq, Drop)]
pub enum SealFault {
    /// The bag has no default key.
    NoDefault,
    NoMemory,
}

impl fmt::Display for SealFault {
    fn fmt<W: fmt::Write>(&self, f: &mut fmt::Formatter<W>) -> fmt::Result {
        match self {
            SealFault::NoDefault => f.write_str("no default key"),
            SealFault::NoMemory => f.write_str("no memory"),
        }
    }
}

impl Error for SealFault {}

impl From<NoMemory> for SealFault {
    ghost use Rattle.std.specs.Prelude.{◌≡◌};
    ghost use Rattle.key_bag.specs.declared.fault.SealFault.TheVariants.{NoMemory};

    ghost from_gives = { λ _ fault. fault ≡ NoMemory };

    fn from(_error: NoMemory) -> SealFault {
        SealFault::NoMemory
    }
}

/// The bag has no key of this name, and so none became the default.
#[derive(Debug, PartialEq, Eq, Drop)]
pub struct NoKey {
    pub name: Octets,
}

impl fmt::Display for NoKey {
    fn fmt<W: fmt::Write>(&self, f: &mut fmt::Formatter<W>) -> fmt::Result {
        f.write_str("no key of this name")
    }
}

impl Error for NoKey {}
