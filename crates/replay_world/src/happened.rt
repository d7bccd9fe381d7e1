//! What came of an event.
use sync_model::{Content, Kind, Request};
use wire_fields::Octets;

/// What came of an event, with the bytes of its message where it made one.
#[derive(Drop)]
pub(crate) enum Happened {
    Void,
    Done,
    Edited {
        client: u32,
        kind: Kind,
        number: u64,
    },
    Requested {
        client: u32,
        request: Request<Content>,
        bytes: Octets,
    },
    /// The server answered the request of an event, when it had so many writes.
    Delivered {
        request: u32,
        before: u64,
        bytes: Octets,
    },
}
