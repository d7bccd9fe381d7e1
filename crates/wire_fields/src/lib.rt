//! Lists of bytes and lists of values, as contracts see them, and the fields of messages.
#![tactic(auto)]

mod field_writer;
mod list;
mod memory;
mod octets;
mod pieces;

pub use field_writer::FieldWriter;
pub use list::List;
pub use memory::NoMemory;
pub use octets::Octets;
pub use pieces::{PieceFault, Pieces};
pub use wire_format::{
    Field, FieldReader, Payload, Walk, WireFault, WireReason, bytes_are_one_list, bytes_field_len,
    bytes_have_one_fault, fields_have_no_fault, fields_join, group_field_len,
    least_varints_are_shortest, one_field_stands_at_a_front, spell_header, spell_varint,
    staying_faults_stay, varint_field_len, varint_len, written_fields_are_fields,
};

#[cfg(test)]
mod tests;
