//! Why a message was not read or not written.
ghost use Rattle.std.specs.Prelude.{◌≡◌};
ghost use Rattle.http_edge.specs.Faults.{reply_code};

use std::alloc::{AllocError, AllocFailed};
use thiserror::Error;

/// Why a message was not read or not written.
#[derive(Clone, Copy, Debug, PartialEq, Eq, Drop, Error)]
pub enum EdgeFault {
    /// A call of the link failed. Its count of faults says so too.
    #[error("the link failed")]
    LinkFault,
    /// The link ended too early: after `have` bytes of a body of `want`, or, where `want` is 0, of a head.
    #[error("the link ended after {have} bytes of {want}")]
    Ended { have: u64, want: u64 },
    /// No head ends within 16,384 bytes, or what ends there is none, or it has more than 64 header fields.
    #[error("bad head")]
    BadHead,
    /// The method is not POST.
    #[error("bad method")]
    BadMethod,
    /// The target is not the path `/command/`, with or without a query.
    #[error("bad path")]
    BadPath,
    /// The body has a transfer coding, or a content coding.
    #[error("the body is encoded")]
    Encoded,
    /// No length is stated, or two different ones are, or one is no number of one to ten digits.
    #[error("no length is stated")]
    NoLength,
    /// A body of `length` bytes is stated, which is more than 16,777,216.
    #[error("a body of {length} bytes is too long")]
    TooBig { length: u64 },
    /// The reply has another status code than 200.
    #[error("the reply has the status code {code}")]
    Status { code: u16 },
    #[error("memory ran out")]
    NoMemory,
}

impl EdgeFault {
    /// The status code of the reply to a request with this fault. None is due where the link failed or ended, and where
    /// memory ran out; a fault of a reply has none either.
    pub fn reply_code(&self) -> Option<u16>
        ensures { result ≡ reply_code self.now }
    {
        match self {
            EdgeFault::BadHead => Some(400),
            EdgeFault::BadMethod => Some(405),
            EdgeFault::BadPath => Some(404),
            EdgeFault::Encoded => Some(415),
            EdgeFault::NoLength => Some(411),
            EdgeFault::TooBig { .. } => Some(413),
            EdgeFault::LinkFault
            | EdgeFault::Ended { .. }
            | EdgeFault::Status { .. }
            | EdgeFault::NoMemory => None,
        }
    }
}

impl From<AllocError> for EdgeFault {
    ghost use Rattle.http_edge.specs.declared.fault.EdgeFault.TheVariants.{NoMemory};

    ghost from_gives = { λ _ fault. fault ≡ NoMemory };

    fn from(_: AllocError) -> Self {
        EdgeFault::NoMemory
    }
}

impl<T: Drop> From<AllocFailed<T>> for EdgeFault {
    ghost use Rattle.http_edge.specs.declared.fault.EdgeFault.TheVariants.{NoMemory};

    ghost from_gives = { λ _ fault. fault ≡ NoMemory };

    fn from(_: AllocFailed<T>) -> Self {
        EdgeFault::NoMemory
    }
}
