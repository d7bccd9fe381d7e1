//! The wire format of Protocol Buffers: which bytes are a list of fields, reading them one by one or as they come in
//! pieces, and how they are written.
#![tactic(auto)]

mod fault;
mod field;
mod group;
mod laws;
mod open_groups;
mod reader;
mod spelling;
mod token;
mod varint;
mod walk;

pub use fault::{WireFault, WireReason};
pub use field::{Field, Payload};
pub use laws::{
    bytes_are_one_list, bytes_have_one_fault, fields_have_no_fault, fields_join,
    least_varints_are_shortest, one_field_stands_at_a_front, staying_faults_stay,
    written_fields_are_fields,
};
pub use reader::FieldReader;
pub use spelling::{
    bytes_field_len, group_field_len, spell_header, spell_varint, varint_field_len, varint_len,
};
pub use walk::Walk;

#[cfg(test)]
mod tests;
