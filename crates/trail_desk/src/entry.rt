//! A step as it stands in a trail, and how a desk began.

/// A step of a trail: which seat made it, as its how manieth from 1, under which ticket, by which act, and what the
/// act gave.
#[derive(Debug, Drop)]
pub struct Entry<A, G> {
    pub seat: u32,
    pub number: u64,
    pub ticket: u64,
    pub act: A,
    pub gave: G,
}

/// How a desk began: the state of its core, and the number of its seats.
#[derive(Debug, Drop)]
pub struct Opening<C> {
    pub core: C,
    pub seats: u32,
}
