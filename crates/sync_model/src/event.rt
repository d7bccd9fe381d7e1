use crate::message::{Content, Reply, Request};
use sync_values::{Edit, Kind};
use wire_fields::{List, Octets};

/// One step of a recorded run. Clients are numbered from 1, and so are the passphrases and the events of a
/// schedule, by which `Deliver` and `Answer` name them.
#[derive(Debug, Drop)]
pub enum Event {
    /// The user of a client changes an entity.
    Edit { client: u32, edit: Edit },
    /// A client stops within an edit, before its user is told: the change was kept, or it was not.
    Cut { client: u32, kept: bool, edit: Edit },
    /// A client's processor of a type applies the first task of its mailbox.
    Turn { client: u32, kind: Kind },
    /// A client takes what is to be sent of a type into its next commit.
    Gather { client: u32, kind: Kind },
    /// A client hands a type what the last reply says of it.
    Post { client: u32, kind: Kind },
    /// A client asks for what the server has that is new to it.
    Ask { client: u32 },
    /// A client makes a commit of all that it holds.
    Offer { client: u32 },
    /// A client gives up its request.
    Lose { client: u32 },
    /// A client stops, and starts again from what it kept.
    Crash { client: u32 },
    /// The server handles the request that an event made.
    Deliver { event: u32 },
    /// A client receives the reply that a delivery gave.
    Answer { event: u32 },
    /// The user of a client chooses the passphrase of this number.
    SetPass { client: u32, pass: u32 },
    /// The user of a client gives the passphrase of this number, for which the client asked.
    GivePass { client: u32, pass: u32 },
}

/// A recorded run: how many clients there are, the seed of their random numbers, the passphrases of their
/// users, and what happens, in order.
#[derive(Debug, Drop)]
pub struct Schedule {
    pub clients: u32,
    pub seed: u64,
    pub passes: List<Octets>,
    pub events: List<Event>,
}

/// What came of an event.
#[derive(Debug, Drop)]
pub enum EventOutcome {
    /// It could not happen, and changed nothing.
    Void,
    /// It happened, and made nothing that a later event names.
    Done,
    /// An edit was acknowledged to its user under this number, which counts a client's edits of one type
    /// from 1.
    Edited {
        client: u32,
        kind: Kind,
        number: u64,
    },
    /// A client made a request.
    Requested {
        client: u32,
        request: Request<Content>,
    },
    /// The server handled the request that an event made, with this reply.
    Delivered {
        request: u32,
        reply: Reply<Content>,
    },
}
