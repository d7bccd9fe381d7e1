// The vectors of the zero seed's stream 0 are the key stream of the zero key (RFC 8439, A.1, test vector 1).
use crate::*;

const FIRST: [u8; 16] = [
    0x76, 0xb8, 0xe0, 0xad, 0xa0, 0xf1, 0x3d, 0x90, 0x40, 0x5d, 0x6a, 0xe5, 0x53, 0x86, 0xbd, 0x28,
];

const SECOND: [u8; 16] = [
    0xbd, 0xd2, 0x19, 0xb8, 0xa0, 0x8d, 0xed, 0x1a, 0xa8, 0x36, 0xef, 0xcc, 0x8b, 0x77, 0x0d, 0xc7,
];

// What any source of vectors draws next.
fn drawn<D: Dice>(dice: &mut D) -> [u8; 16] {
    dice.iv()
}

#[test]
fn vectors_are_the_words_of_a_stream(rt: HostRuntime) {
    let mut dice = SeedDice::new([0; 32], 0);
    assert_eq!(rt; drawn(&mut dice), FIRST);
    assert_eq!(rt; drawn(&mut dice), SECOND);
}

#[test]
fn each_stream_and_seed_has_its_own(rt: HostRuntime) {
    let mut second_stream = SeedDice::new([0; 32], 1);
    assert!(rt; drawn(&mut second_stream) != FIRST);
    let mut second_seed = SeedDice::new([1; 32], 0);
    assert!(rt; drawn(&mut second_seed) != FIRST);
}
