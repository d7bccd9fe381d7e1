// Replies.
use super::*;

#[test]
fn replies_are_read_by_the_same_rules(rt: HostRuntime) -> Result<(), Fail> {
    let rows: [(&[u8], Result<&[u8], EdgeFault>); 10] = [
        (
            b"HTTP/1.1 200 OK\r\nContent-Length: 3\r\n\r\nabcd",
            Ok(b"abc"),
        ),
        (b"HTTP/1.0 200\nA:\ncontent-length: 3\n\nabc", Ok(b"abc")),
        (b"HTTP/1.1 200 \xff\r\nContent-Length: 0\r\n\r\n", Ok(b"")),
        (
            b"HTTP/1.1 200 OK\r\nContent-Length: 3\r\n\r\nab",
            Err(EdgeFault::Ended { have: 2, want: 3 }),
        ),
        (
            b"HTTP/1.1 2000\r\n",
            Err(EdgeFault::Ended { have: 15, want: 0 }),
        ),
        (b"HTTP/1.1  200 OK\r\n\r\n", Err(EdgeFault::BadHead)),
        (b"200 OK\r\n\r\n", Err(EdgeFault::BadHead)),
        (
            b"HTTP/1.1 404 Not Found\r\nTransfer-Encoding: x\r\n\r\n",
            Err(EdgeFault::Status { code: 404 }),
        ),
        (
            b"HTTP/1.1 200 OK\r\nTransfer-Encoding: chunked\r\n\r\n",
            Err(EdgeFault::Encoded),
        ),
        (b"HTTP/1.1 200 OK\r\n\r\nabc", Err(EdgeFault::NoLength)),
    ];
    for (bytes, wanted) in rows {
        assert!(rt; is_reply_of(rt.alloc(), bytes, wanted)?);
    }
    Ok(())
}

// A link that gives a reply with the body `de`, whose calls fail where it is told to.
fn link_of(alloc: Global, failing: &[u64]) -> Result<MemoryLink, Fail> {
    let bytes = b"HTTP/1.1 200 OK\r\nContent-Length: 2\r\n\r\nde".to_vec(alloc)?;
    Ok(MemoryLink::new(alloc, bytes, 200, failing.to_vec(alloc)?)?)
}

#[test]
fn a_request_is_written_and_can_be_read(rt: HostRuntime) -> Result<(), Fail> {
    let alloc = rt.alloc();
    let mut link = link_of(alloc, &[])?;
    let reply = exchange(alloc, &mut link, b"abc")?;
    assert_eq!(rt; reply.as_slice(), b"de".as_slice());
    let text =
        b"POST /command/ HTTP/1.1\r\nHost: localhost\r\nContent-Type: application/octet-stream\r\nContent-Length: 3\r\nConnection: close\r\n\r\nabc";
    assert_eq!(rt; link.taken(), text.as_slice());
    let bytes = link.taken().to_vec(alloc)?;
    assert!(rt; is_request(alloc, bytes, Ok(b"abc")));
    Ok(())
}

#[test]
fn a_call_that_fails_is_the_fault(rt: HostRuntime) -> Result<(), Fail> {
    let alloc = rt.alloc();
    // One call writes the request, 38 read the head, and one reads the body.
    for call in 1..=40 {
        let mut link = link_of(alloc, &[call])?;
        let fault = exchange(alloc, &mut link, b"abc").err();
        assert_eq!(rt; fault, Some(EdgeFault::LinkFault));
    }
    let mut link = link_of(alloc, &[41])?;
    assert!(rt; exchange(alloc, &mut link, b"abc").is_ok());
    Ok(())
}
