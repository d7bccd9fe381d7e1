mod keys;
mod logins;
mod preferences;
mod specifics;
mod specifics_faults;

use crate::{bytes_say_one_thing, said_extras_are_canonical, written_values_are_read};

#[test]
fn has_laws() {
    bytes_say_one_thing();
    written_values_are_read();
    said_extras_are_canonical();
}
