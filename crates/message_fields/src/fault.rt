ghost use Rattle.std.specs.Prelude.{◌≡◌};
ghost use Rattle.message_fields.specs.Faults.{class_of, comes_before, first_of, first_fault, no_memory};

use std::error::Error;
use std::fmt;
use wire_fields::NoMemory;
use wire_format::WireReason;

/// Why bytes are no message.
#[derive(Debug, Clone, Copy, PartialEq, Eq)]
pub enum MessageReason {
    /// They are no list of fields.
    Wire(WireReason),
    /// A field is not there that has to be.
    Missing { field: u32 },
    /// A field has another wire kind than the message's table gives it.
    WrongKind { field: u32 },
    /// The value of a field is none that the message may have.
    Range { field: u32 },
    /// A progress token has a length other than 0 and 8.
    BadToken { len: u64 },
    /// Memory was wanting, which says nothing about the bytes.
    NoMemory,
}

/// The first fault of some bytes, at a place that counts from 0 in the outermost input.
#[derive(Debug, Clone, Copy, PartialEq, Eq)]
pub struct MessageFault {
    pub at: u64,
    pub reason: MessageReason,
}

impl MessageFault {
    // The classes of faults, in the order in which they are told.
    fn class(&self) -> u8
        ensures { result ≡ class_of self.now.reason }
    {
        match self.reason {
            MessageReason::Wire(_) => 0,
            MessageReason::WrongKind { .. }
            | MessageReason::Range { .. }
            | MessageReason::BadToken { .. } => 1,
            MessageReason::Missing { .. } => 2,
            MessageReason::NoMemory => 3,
        }
    }

    fn comes_before(&self, other: &MessageFault) -> bool
        ensures { result ≡ comes_before self.now other.now }
    {
        self.class() < other.class() || (self.class() == other.class() && self.at < other.at)
    }
}

/// The one of two faults that is told: by its class, then by its place, then the first.
pub fn first_of(fault: Option<MessageFault>, other: Option<MessageFault>) -> Option<MessageFault>
    ensures { result ≡ first_of fault other }
{
    let (Some(first), Some(second)) = (fault, other) else {
        return fault.or(other);
    };
    if second.comes_before(&first) {
        other
    } else {
        fault
    }
}

/// The one of these faults that is told, in time linear in their number.
pub fn first_fault(faults: &[Option<MessageFault>]) -> Option<MessageFault>
    ensures { result ≡ first_fault faults.now }
{
    let mut told = None;
    for fault in faults {
        told = first_of(told, *fault);
    }
    told
}

impl From<NoMemory> for MessageFault {
    ghost from_gives = { λ _ fault. fault ≡ no_memory };

    fn from(_error: NoMemory) -> MessageFault {
        MessageFault {
            at: 0,
            reason: MessageReason::NoMemory,
        }
    }
}

impl fmt::Display for MessageReason {
    fn fmt<W: fmt::Write>(&self, f: &mut fmt::Formatter<W>) -> fmt::Result {
        match self {
            MessageReason::Wire(reason) => write!(f, "{reason}"),
            MessageReason::Missing { field } => write!(f, "missing {field}"),
            MessageReason::WrongKind { field } => write!(f, "wrong kind {field}"),
            MessageReason::Range { field } => write!(f, "range {field}"),
            MessageReason::BadToken { len } => write!(f, "bad token {len}"),
            MessageReason::NoMemory => f.write_str("no memory"),
        }
    }
}

impl fmt::Display for MessageFault {
    fn fmt<W: fmt::Write>(&self, f: &mut fmt::Formatter<W>) -> fmt::Result {
        write!(f, "at {}: {}", self.at, self.reason)
    }
}

impl Error for MessageFault {}
