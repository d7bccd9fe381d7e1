use super::*;

#[test]
fn has_a_law() {
    every_write_is_based();
}

#[test]
fn has_the_law_of_agreement() {
    every_caught_up_side_agrees();
}

#[test]
fn has_a_law_on_entries() {
    every_entry_writes_once();
}

#[test]
fn has_a_law_on_keys() {
    no_key_is_lost();
}

#[test]
fn has_the_law_of_fates() {
    every_fate_is_true();
}

#[test]
fn has_all_laws() {
    every_world_is_lawful();
}

#[test]
fn has_the_law_of_echoes() {
    every_own_echo_is_known();
}
