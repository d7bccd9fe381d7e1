//! The messages between a client and a server, and their bytes.
#![tactic(auto)]

mod answer;
mod entity;
mod entity_len;
mod field_len;
mod laws;
mod marker;
mod message;
mod message_len;
mod reply;
mod request;
mod tables;
mod write_entity;
mod write_marker;
mod write_reply;
mod write_request;

pub use entity::decode_entity;
pub use laws::{bytes_say_one_message, said_extras_are_canonical, written_messages_are_read};
pub use message::{
    Commit, Entity, EntryAnswer, FromServer, GetUpdates, Marker, Outcome, Reply, Request, ToServer,
    Updates,
};
pub use message_len::{encoded_len_from, encoded_len_to};
pub use reply::decode_from;
pub use request::decode_to;
pub use sync_specifics::{MessageFault, MessageReason};
pub use write_entity::encode_entity;
pub use write_reply::encode_from;
pub use write_request::encode_to;

#[cfg(test)]
mod tests;
