use std::error::Error;
use std::fmt;

/// Why bytes are no list of fields.
#[derive(Debug, Clone, Copy, PartialEq, Eq, Drop)]
pub enum WireReason {
    /// The bytes end inside a header, a varint, a fixed value or length-delimited content.
    Cut,
    /// The tenth byte of a varint is above 1.
    LongVarint,
    /// The kind of a header is 6 or 7.
    BadKind,
    /// The number of a header is 0.
    ZeroNumber,
    /// The number of a header is above 536,870,911.
    BigNumber,
    /// The bytes end between fields inside a group.
    OpenGroup,
    /// The end of a group whose start is not the innermost open one.
    StrayEnd,
    /// A group starts inside 32 open groups.
    TooDeep,
}

/// The first fault of some bytes, at a place that counts from 0.
#[derive(Debug, Clone, Copy, PartialEq, Eq, Drop)]
pub struct WireFault {
    pub at: u64,
    pub reason: WireReason,
}

impl fmt::Display for WireReason {
    fn fmt<W: fmt::Write>(&self, f: &mut fmt::Formatter<W>) -> fmt::Result {
        f.write_str(match self {
            WireReason::Cut => "cut",
            WireReason::LongVarint => "long varint",
            WireReason::BadKind => "bad kind",
            WireReason::ZeroNumber => "zero number",
            WireReason::BigNumber => "big number",
            WireReason::OpenGroup => "open group",
            WireReason::StrayEnd => "stray end",
            WireReason::TooDeep => "too deep",
        })
    }
}

impl fmt::Display for WireFault {
    fn fmt<W: fmt::Write>(&self, f: &mut fmt::Formatter<W>) -> fmt::Result {
        write!(f, "at {}: {}", self.at, self.reason)
    }
}

impl Error for WireFault {}
