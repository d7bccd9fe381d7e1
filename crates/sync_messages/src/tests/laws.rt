use crate::{bytes_say_one_message, written_messages_are_read};

#[test]
fn the_laws_are_there() {
    bytes_say_one_message();
    written_messages_are_read();
}
