use crate::NoMemory;
use std::error::Error;
use std::fmt;

/// Why a cipher text was not decrypted.
#[derive(Clone, Copy, Debug, PartialEq, Eq, Drop)]
pub enum CbcFault {
    /// The length, in bytes, is 0 or no multiple of 16.
    Length { len: u64 },
    /// The padded text does not end with p bytes of value p, for a p from 1 to 16.
    Padding,
    NoMemory,
}

impl fmt::Display for CbcFault {
    fn fmt<W: fmt::Write>(&self, f: &mut fmt::Formatter<W>) -> fmt::Result {
        match self {
            CbcFault::Length { len } => write!(f, "{len} bytes are no whole blocks"),
            CbcFault::Padding => f.write_str("wrong padding"),
            CbcFault::NoMemory => f.write_str("no memory"),
        }
    }
}

impl Error for CbcFault {}

impl From<NoMemory> for CbcFault {
    ghost use Rattle.std.specs.Prelude.{◌≡◌};
    ghost use Rattle.aes_cbc.specs.declared.fault.CbcFault.TheVariants.{NoMemory};

    ghost from_gives = { λ _ fault. fault ≡ NoMemory };

    fn from(_no_memory: NoMemory) -> CbcFault {
        CbcFault::NoMemory
    }
}
