//! What both gives bytes and takes them.
ghost use Rattle.std.specs.Prelude.{◌≡◌};

use crate::{Sink, Source};

/// What both gives bytes and takes them, as a connection does. Each side knows of the other: so a call of the one leaves
/// what the other tells, and its count of faults, as they were.
pub trait Link: Source + Sink {
    /// As a sink it says what its source's side knows of it.
    ghost sink_is: { (link : Self) → Self.as_sink link ≡ record { taken = Self.taken link; faults = Self.Sink.faults link } };

    /// As a source it says what its sink's side knows of it.
    ghost source_is: { (link : Self) → Self.as_source link ≡ record { left = Self.left link; came = Self.came link; faults = Self.Source.faults link } };
}
