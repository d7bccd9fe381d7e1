//! The record of the messages of a run, of which its digest is kept.
ghost use Rattle.std.specs.Prelude.{◌≡◌, ℕ, List, [], ◌++◌};
ghost use Rattle.sha2.specs.Sha256.{sha256};
ghost use Rattle.replay_messages.specs.Records.{framed, REQUEST, REPLY};

use sha2::{Digest, Sha256};

/// The byte before a request.
const REQUEST_BYTE: u8 = b'Q';

/// The byte before a reply.
const REPLY_BYTE: u8 = b'A';

/// How many lengths four bytes can tell.
const LENGTHS: usize = 1 << 32;

/// The record of the requests and the replies of a run, which keeps no more of it than its digest needs.
///
/// Contracts see the bytes that it has recorded by the relation `HasRecorded`.
#[derive(Debug, Drop)]
pub struct Record {
    hasher: Sha256,
}

impl Record {
    ghost use Rattle.replay_messages.specs.Recorders.{HasRecorded};

    /// The record of no messages.
    pub fn new() -> Record
        ensures { HasRecorded result [] }
    {
        Record {
            hasher: Sha256::new(),
        }
    }

    /// Records the bytes of a request, in time linear in them.
    pub fn push_request(&mut self, bytes: &[u8])
        ensures { (so_far : List ℕ) → HasRecorded self.old so_far → HasRecorded self.new (so_far ++ framed REQUEST bytes.now) }
    {
        self.push(REQUEST_BYTE, bytes);
    }

    /// Records the bytes of a reply, in time linear in them.
    pub fn push_reply(&mut self, bytes: &[u8])
        ensures { (so_far : List ℕ) → HasRecorded self.old so_far → HasRecorded self.new (so_far ++ framed REPLY bytes.now) }
    {
        self.push(REPLY_BYTE, bytes);
    }

    // Records a message, after the byte that tells what it is and its length.
    #[tactic(auto, unfolding(crate::specs::Records::framed))]
    fn push(&mut self, sort: u8, message: &[u8])
        ensures { (so_far : List ℕ) → HasRecorded self.old so_far → HasRecorded self.new (so_far ++ framed sort message.now) }
    {
        let len = (message.len() % LENGTHS) as u32;
        self.hasher.update(&[sort]);
        self.hasher.update(&len.to_be_bytes());
        self.hasher.update(message);
    }

    /// The SHA-256 of what was recorded so far, in constant time.
    pub fn digest(&self) -> [u8; 32]
        ensures { (bytes : List ℕ) → HasRecorded self.now bytes → result ≡ sha256 bytes }
    {
        self.hasher.clone().unwrap().finalize()
    }
}
