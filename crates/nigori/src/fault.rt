use std::error::Error;
use std::fmt;

/// Why a blob was not unsealed.
#[derive(Clone, Copy, Debug, PartialEq, Eq, Drop)]
pub enum UnsealFault {
    /// The blob is no base64 with the padding that the standard asks for, or has bits set past its last byte.
    NotBase64,
    /// So many bytes were decoded: fewer than 64, or with a cipher text that is no whole blocks.
    BadLength { len: u64 },
    /// The tag in the blob is not the one that the key gives to its cipher text.
    BadTag { found: [u8; 32], computed: [u8; 32] },
    /// The decrypted text does not end with p bytes of value p, for a p from 1 to 16.
    BadPadding,
    NoMemory,
}

impl fmt::Display for UnsealFault {
    fn fmt<W: fmt::Write>(&self, f: &mut fmt::Formatter<W>) -> fmt::Result {
        match self {
            UnsealFault::NotBase64 => f.write_str("no base64"),
            UnsealFault::BadLength { len } => write!(f, "{len} bytes are no sealed text"),
            UnsealFault::BadTag { .. } => f.write_str("wrong tag"),
            UnsealFault::BadPadding => f.write_str("wrong padding"),
            UnsealFault::NoMemory => f.write_str("no memory"),
        }
    }
}

impl Error for UnsealFault {}
