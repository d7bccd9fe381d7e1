ghost use Rattle.std.specs.Prelude.{◌≡◌, ◌≤◌, length};
ghost use Rattle.message_fields.specs.Fields.{IsPartOf, whole_of};

/// A part of some input: the bytes from one place up to another.
#[derive(Debug, Clone, Copy, PartialEq, Eq)]
pub struct Part {
    pub begin: usize,
    pub end: usize,
}

impl Part {
    /// All of the input.
    pub fn whole(input: &[u8]) -> Part
        ensures whole { result ≡ whole_of input.now }
        ensures within { IsPartOf input.now result }
    {
        Part {
            begin: 0,
            end: input.len(),
        }
    }
}

/// What a field of a message holds. Contents are told by where they stand in the input.
#[derive(Debug, Clone, Copy, PartialEq, Eq)]
pub enum Held {
    Varint(u64),
    Bytes(Part),
    Group(Part),
    /// Eight bytes, where they stand.
    Eight(Part),
    /// Four bytes, where they stand.
    Four(Part),
}

/// A field of a message: its number, the place of its header in the input, and what it holds.
#[derive(Debug, Clone, Copy, PartialEq, Eq)]
pub struct PlacedField {
    pub number: u32,
    pub at: usize,
    pub held: Held,
}

/// The wire kind that a field of a message has.
#[derive(Debug, Clone, Copy, PartialEq, Eq)]
pub enum WireKind {
    Varint,
    /// Length-delimited: bytes, or a message.
    Bytes,
    Group,
}

/// A field that a message's table has: its number, and its wire kind.
#[derive(Debug, Clone, Copy, PartialEq, Eq)]
pub struct Known(pub u32, pub WireKind);
