use std::error::Error;
use std::fmt;

/// A token that is neither empty nor eight bytes long. The length is in bytes.
#[derive(Clone, Copy, Debug, PartialEq, Eq, PartialOrd, Ord, Hash)]
pub struct BadToken {
    pub len: u64,
}

impl fmt::Display for BadToken {
    fn fmt<W: fmt::Write>(&self, f: &mut fmt::Formatter<W>) -> fmt::Result {
        let len = self.len;
        write!(f, "a progress token has 0 or 8 bytes, not {len}")
    }
}

impl Error for BadToken {}
