// Requests.
use super::*;

// Whether these header lines behind the request line, and then these bytes, are answered so.
fn is_request_with(
    alloc: Global,
    lines: &[u8],
    behind: &[u8],
    wanted: Result<&[u8], EdgeFault>,
) -> Result<bool, Fail> {
    let mut bytes = START.to_vec(alloc)?;
    bytes.extend_from_slice(lines)?;
    bytes.extend_from_slice(b"\r\n")?;
    bytes.extend_from_slice(behind)?;
    Ok(is_request(alloc, bytes, wanted))
}

#[test]
fn header_fields_say_what_the_body_is(rt: HostRuntime) -> Result<(), Fail> {
    let rows: [(&[u8], Result<&[u8], EdgeFault>); 15] = [
        (b"", Err(EdgeFault::NoLength)),
        (b"Content-Length: 3\r\n", Ok(b"abc")),
        (b"content-LENGTH:\t 3 \t\r\nX:\r\n", Ok(b"abc")),
        (b"Content-Length: 0\n", Ok(b"")),
        (b"Content-Length: 3\r\nContent-Length: 3\r\n", Ok(b"abc")),
        (
            b"Content-Length: 3\r\nContent-Length: 03\r\n",
            Err(EdgeFault::NoLength),
        ),
        (b"Content-Length: 0000000003\r\n", Ok(b"abc")),
        (b"Content-Length: 00000000003\r\n", Err(EdgeFault::NoLength)),
        (b"Content-Length: +3\r\n", Err(EdgeFault::NoLength)),
        (b"Content-Length:\r\n", Err(EdgeFault::NoLength)),
        (
            b"Content-Length: 16777217\r\n",
            Err(EdgeFault::TooBig { length: 16_777_217 }),
        ),
        (
            b"Content-Length: 5\r\n",
            Err(EdgeFault::Ended { have: 4, want: 5 }),
        ),
        (
            b"content-encoding: gzip\r\nContent-Length: x\r\n",
            Err(EdgeFault::Encoded),
        ),
        (
            b"Content-Encoding: identity\r\nContent-Length: 3\r\n",
            Ok(b"abc"),
        ),
        (
            b"Transfer-Encoding: chunked\r\nContent-Length: 3\r\n",
            Err(EdgeFault::Encoded),
        ),
    ];
    for (lines, wanted) in rows {
        assert!(rt; is_request_with(rt.alloc(), lines, b"abcd", wanted)?);
    }
    Ok(())
}

#[test]
fn heads_are_whole_or_bad(rt: HostRuntime) -> Result<(), Fail> {
    let alloc = rt.alloc();
    let rows: [(&[u8], EdgeFault); 12] = [
        (b"", EdgeFault::Ended { have: 0, want: 0 }),
        (
            b"POST /command/ HTTP/1.1\r\n",
            EdgeFault::Ended { have: 25, want: 0 },
        ),
        (
            b"\r\n\r\nPOST /command/ HTTP/1.1\r\n\r\n",
            EdgeFault::BadHead,
        ),
        (b"\n\n", EdgeFault::BadHead),
        (b"POST /command/ HTTP/2.0\r\n\r\n", EdgeFault::BadHead),
        (b"POST  /command/ HTTP/1.1\r\n\r\n", EdgeFault::BadHead),
        (
            b"POST /command/ HTTP/1.1\r\nA b: 1\r\n\r\n",
            EdgeFault::BadHead,
        ),
        (b"GET /command/ HTTP/1.1\r\n\r\n", EdgeFault::BadMethod),
        (b"post /x HTTP/1.1\n\n", EdgeFault::BadMethod),
        (b"POST /command HTTP/1.1\r\n\r\n", EdgeFault::BadPath),
        (b"POST /command/x HTTP/1.1\r\n\r\n", EdgeFault::BadPath),
        (b"\r\nPOST /command/?x HTTP/1.0\r\n\n", EdgeFault::NoLength),
    ];
    for (bytes, fault) in rows {
        assert!(rt; is_request(alloc, bytes.to_vec(alloc)?, Err(fault)));
    }
    Ok(())
}

// A head with so many header fields, which ask for a body of no bytes.
fn head_with_fields(alloc: Global, count: usize) -> Result<Vec<u8>, Fail> {
    let mut bytes = START.to_vec(alloc)?;
    for _ in 0..count {
        bytes.extend_from_slice(b"Content-Length: 0\r\n")?;
    }
    bytes.extend_from_slice(b"\r\n")?;
    Ok(bytes)
}

#[test]
fn a_head_has_64_fields_at_most(rt: HostRuntime) -> Result<(), Fail> {
    let alloc = rt.alloc();
    assert!(rt; is_request(alloc, head_with_fields(alloc, 64)?, Ok(b"")));
    let too_many = head_with_fields(alloc, 65)?;
    assert!(rt; is_request(alloc, too_many, Err(EdgeFault::BadHead)));
    Ok(())
}

// So many bytes of a head that does not end.
fn endless_head(alloc: Global, count: usize) -> Result<Vec<u8>, Fail> {
    let mut bytes = START.to_vec(alloc)?;
    for _ in bytes.len()..count {
        bytes.push(b'x')?;
    }
    Ok(bytes)
}

#[test]
fn a_head_ends_within_its_limit(rt: HostRuntime) -> Result<(), Fail> {
    let alloc = rt.alloc();
    let short = endless_head(alloc, 16_383)?;
    let ended = EdgeFault::Ended {
        have: 16_383,
        want: 0,
    };
    assert!(rt; is_request(alloc, short, Err(ended)));
    let mut long = endless_head(alloc, 16_384)?;
    long.extend_from_slice(b"\r\n\r\n")?;
    assert!(rt; is_request(alloc, long, Err(EdgeFault::BadHead)));
    Ok(())
}

#[test]
fn a_body_is_read_and_no_byte_past_it(rt: HostRuntime) -> Result<(), Fail> {
    // A message that asks for updates of preferences from a mark.
    let body = 0x1802_2a10_320e_08c6_a602_1208_0000_0000_u128.to_be_bytes();
    let mut bytes = START.to_vec(rt.alloc())?;
    bytes.extend_from_slice(b"Content-Length: 20\r\n\r\n")?;
    bytes.extend_from_slice(&body)?;
    bytes.extend_from_slice(b"\x00\x00\x00\x07")?;
    let len = bytes.len();
    bytes.extend_from_slice(b"more")?;
    let mut source = MemorySource::new(bytes, Vec::new(rt.alloc()));
    let read = read_request(rt.alloc(), &mut source)?;
    assert_eq!(rt; source.came().len(), len);
    assert_eq!(rt; read.len(), 20);
    assert_eq!(rt; &read.as_slice()[..16], body.as_slice());
    Ok(())
}

#[test]
fn a_reply_has_a_code_and_a_body(rt: HostRuntime) -> Result<(), Fail> {
    let alloc = rt.alloc();
    let mut sink = MemorySink::new(alloc, 200, Vec::new(alloc))?;
    assert!(rt; is_reply(200, b"abc"));
    write_reply(alloc, &mut sink, 200, b"abc")?;
    let text =
        b"HTTP/1.1 200 OK\r\nContent-Type: application/octet-stream\r\nContent-Length: 3\r\nConnection: close\r\n\r\nabc";
    assert_eq!(rt; sink.taken(), text.as_slice());
    assert!(rt; !is_reply(404, b"abc"));
    assert!(rt; !is_reply(302, b""));
    Ok(())
}

#[test]
fn a_refusal_has_an_empty_body(rt: HostRuntime) -> Result<(), Fail> {
    let alloc = rt.alloc();
    let codes: [(u16, &[u8]); 6] = [
        (400, b"HTTP/1.1 400 Bad Request\r\n"),
        (404, b"HTTP/1.1 404 Not Found\r\n"),
        (405, b"HTTP/1.1 405 Method Not Allowed\r\n"),
        (411, b"HTTP/1.1 411 Length Required\r\n"),
        (413, b"HTTP/1.1 413 Content Too Large\r\n"),
        (415, b"HTTP/1.1 415 Unsupported Media Type\r\n"),
    ];
    for (code, line) in codes {
        let mut sink = MemorySink::new(alloc, 200, Vec::new(alloc))?;
        assert!(rt; is_reply(code, b""));
        write_reply(alloc, &mut sink, code, b"")?;
        assert!(rt; sink.taken().starts_with(line));
    }
    Ok(())
}
