ghost use Rattle.std.specs.Prelude.{◌≡◌};
ghost use Rattle.schedule_text.specs.declared.fault.ParseFault.TheVariants.{NoMemory as WantsMemory};

use std::alloc::{AllocError, AllocFailed};
use std::error::Error;
use std::fmt;
use wire_fields::NoMemory;

/// Why a line cannot stand in its place. Where several fit, the first of them is told, and of several
/// faulty words the leftmost.
#[derive(Clone, Copy, Debug, PartialEq, Eq)]
pub enum LineReason {
    /// It has no line end.
    End,
    /// Its fixed words, or the number of its words, fit no line that may stand here.
    Form,
    /// A word spells no decimal number where one must stand.
    Number,
    /// A number is too small or too great.
    Range,
    /// A word is not the one spelling of a text, or spells no canonical unknown fields where these must stand.
    Word,
    /// There are already as many lines of this sort as there may be.
    Many,
    /// This stage of the engine does not know the line yet.
    Later,
}

/// Why a text is no schedule.
#[derive(Clone, Copy, Debug, PartialEq, Eq)]
pub enum ParseFault {
    /// The first line that cannot stand in its place, counted from 1.
    BadLine { line: u64, reason: LineReason },
    NoMemory,
}

/// Why a line was not read.
#[derive(Clone, Copy)]
pub(crate) enum LineFault {
    /// It cannot stand.
    Bad(LineReason),
    NoMemory,
}

impl fmt::Display for LineReason {
    fn fmt<W: fmt::Write>(&self, f: &mut fmt::Formatter<W>) -> fmt::Result {
        match self {
            LineReason::End => f.write_str("it has no line end"),
            LineReason::Form => f.write_str("no line of this form may stand here"),
            LineReason::Number => f.write_str("a word is no number"),
            LineReason::Range => f.write_str("a number is out of range"),
            LineReason::Word => f.write_str("a word is no text"),
            LineReason::Many => f.write_str("there are too many lines of this sort"),
            LineReason::Later => f.write_str("this line is not known yet"),
        }
    }
}

impl fmt::Display for ParseFault {
    fn fmt<W: fmt::Write>(&self, f: &mut fmt::Formatter<W>) -> fmt::Result {
        match self {
            ParseFault::BadLine { line, reason } => write!(f, "line {line}: {reason}"),
            ParseFault::NoMemory => f.write_str("no memory"),
        }
    }
}

impl Error for ParseFault {}

impl From<AllocError> for ParseFault {
    ghost from_gives = { λ _ fault. fault ≡ WantsMemory };

    fn from(_error: AllocError) -> ParseFault {
        ParseFault::NoMemory
    }
}

impl<T: Drop> From<AllocFailed<T>> for ParseFault {
    ghost from_gives = { λ _ fault. fault ≡ WantsMemory };

    fn from(_error: AllocFailed<T>) -> ParseFault {
        ParseFault::NoMemory
    }
}

impl From<NoMemory> for ParseFault {
    ghost from_gives = { λ _ fault. fault ≡ WantsMemory };

    fn from(_error: NoMemory) -> ParseFault {
        ParseFault::NoMemory
    }
}

impl From<NoMemory> for LineFault {
    ghost use Rattle.schedule_text.specs.declared.fault.LineFault.TheVariants.{NoMemory as LineMemory};

    ghost from_gives = { λ _ fault. fault ≡ LineMemory };

    fn from(_error: NoMemory) -> LineFault {
        LineFault::NoMemory
    }
}
