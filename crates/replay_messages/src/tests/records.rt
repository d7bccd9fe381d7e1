// The digests are those of Python's hashlib over the frames of the messages in `tests`.
use super::{SET_A, STORED};
use crate::Record;

// Of no bytes.
const NOTHING: [u8; 32] =
    *b"\xe3\xb0\xc4\x42\x98\xfc\x1c\x14\x9a\xfb\xf4\xc8\x99\x6f\xb9\x24\x27\xae\x41\xe4\x64\x9b\x93\x4c\xa4\x95\x99\x1b\x78\x52\xb8\x55";

// Of `51 00 00 00 3c` and the 60 bytes of a request.
const ONE_REQUEST: [u8; 32] =
    *b"\x8e\xc7\x14\x9a\xd3\x36\x9c\x66\xb9\x24\xe9\x3b\xd7\xc7\x4f\xa7\x59\x0a\xf7\x71\x73\xbd\xb8\xef\x67\x16\xbb\x29\x1e\xaf\x27\x92";

// Of that and `41 00 00 00 08` and the 8 bytes of a reply.
const WITH_ITS_REPLY: [u8; 32] =
    *b"\x5f\x0d\x6d\x78\x7a\x2f\x92\xe0\xe3\x81\xa2\x66\x4b\x81\x24\x5f\xfd\x3c\x4d\x3c\x0f\xdf\x8c\xaa\x28\xbd\x02\x59\x6a\x4c\x36\x13";

#[test]
fn a_record_of_nothing(rt: HostRuntime) {
    assert_eq!(rt; Record::new().digest(), NOTHING);
}

#[test]
fn a_request_and_its_reply(rt: HostRuntime) {
    let mut record = Record::new();
    record.push_request(&SET_A);
    assert_eq!(rt; record.digest(), ONE_REQUEST);
    assert_eq!(rt; record.digest(), ONE_REQUEST);
    record.push_reply(&STORED);
    assert_eq!(rt; record.digest(), WITH_ITS_REPLY);
}
