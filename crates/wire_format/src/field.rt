/// What a field holds, by its wire kind.
#[derive(Debug, Clone, Copy, Drop)]
pub enum Payload<'a> {
    /// A varint (kind 0).
    Varint(u64),
    /// Eight bytes, the lowest first (kind 1).
    Eight(u64),
    /// Length-delimited bytes (kind 2).
    Bytes(&'a [u8]),
    /// The fields between the start and the end of a group (kinds 3 and 4).
    Group(&'a [u8]),
    /// Four bytes, the lowest first (kind 5).
    Four(u32),
}

/// A field of a message: its number, the place of its header in what is read, and what it holds.
#[derive(Debug, Clone, Copy, Drop)]
pub struct Field<'a> {
    pub number: u32,
    pub at: usize,
    pub payload: Payload<'a>,
}
