// What links are answered with. The rows were found by hand from the standard's forms, or by an independent model.
use super::*;
use outer_edge::{MemoryLink, MemorySink, MemorySource};
use std::alloc::Global;
use std::test::Fail;
use wire_fields::Octets;

mod cuts;
mod replies;
mod requests;

// A request's head up to its header fields.
const START: &[u8] = b"POST /command/ HTTP/1.1\r\n";

fn is_answer(answer: Result<Octets, EdgeFault>, wanted: Result<&[u8], EdgeFault>) -> bool {
    match answer {
        Ok(body) => wanted == Ok(body.as_slice()),
        Err(fault) => wanted == Err(fault),
    }
}

// Whether a link with these bytes is answered so, where a request is read.
fn is_request(alloc: Global, bytes: Vec<u8>, wanted: Result<&[u8], EdgeFault>) -> bool {
    let mut source = MemorySource::new(bytes, Vec::new(alloc));
    is_answer(read_request(alloc, &mut source), wanted)
}

// Whether a link with these bytes is answered so, where a reply is read.
fn is_reply_of(
    alloc: Global,
    bytes: &[u8],
    wanted: Result<&[u8], EdgeFault>,
) -> Result<bool, Fail> {
    let bytes = bytes.to_vec(alloc)?;
    let mut link = MemoryLink::new(alloc, bytes, 200, Vec::new(alloc))?;
    Ok(is_answer(exchange(alloc, &mut link, b"abc"), wanted))
}

#[test]
fn the_laws_of_messages_hold() {
    requests_have_one_answer();
    replies_have_one_answer();
    written_requests_are_read();
    written_replies_are_read();
}

#[test]
fn shows_each_fault(rt: HostRuntime) -> Result<(), Fail> {
    let faults = [
        (EdgeFault::LinkFault, "the link failed", None),
        (
            EdgeFault::Ended { have: 3, want: 5 },
            "the link ended after 3 bytes of 5",
            None,
        ),
        (EdgeFault::BadHead, "bad head", Some(400)),
        (EdgeFault::BadMethod, "bad method", Some(405)),
        (EdgeFault::BadPath, "bad path", Some(404)),
        (EdgeFault::Encoded, "the body is encoded", Some(415)),
        (EdgeFault::NoLength, "no length is stated", Some(411)),
        (
            EdgeFault::TooBig { length: 9 },
            "a body of 9 bytes is too long",
            Some(413),
        ),
        (
            EdgeFault::Status { code: 404 },
            "the reply has the status code 404",
            None,
        ),
        (EdgeFault::NoMemory, "memory ran out", None),
    ];
    for (fault, wanted, code) in faults {
        let text = format!(in rt.alloc(); "{fault}")?;
        assert_eq!(rt; text.as_str(), wanted);
        assert!(rt; fault.reply_code() == code);
    }
    Ok(())
}
