use crate::hashed_is_a_setting;

#[test]
fn the_laws_are_called() {
    hashed_is_a_setting();
}
