// Links that cut their bytes, and long bodies.
use super::*;
use outer_edge::{Failed, Source, SureSource};

// Gives the bytes before a place, and then, in another call at least, those behind it.
#[derive(Drop)]
struct CutSource {
    before: SureSource,
    behind: SureSource,
}

impl Source for CutSource {
    ghost use Rattle.std.specs.Prelude.{None};

    ghost left = { λ _. None };

    ghost came = { λ _. None };

    ghost faults = { λ _. 0 };

    fn read(&mut self, room: &mut [u8]) -> Result<usize, Failed> {
        match self.before.read(room) {
            Ok(0) => self.behind.read(room),
            answer => answer,
        }
    }
}

// What a link is answered with that cuts these bytes there.
fn read_cut(alloc: Global, bytes: &[u8], place: usize) -> Result<Result<Octets, EdgeFault>, Fail> {
    let (before, behind) = bytes.split_at(place.min(bytes.len()));
    let mut source = CutSource {
        before: SureSource::new(before.to_vec(alloc)?),
        behind: SureSource::new(behind.to_vec(alloc)?),
    };
    Ok(read_request(alloc, &mut source))
}

#[test]
fn where_a_link_cuts_its_bytes_does_not_matter(rt: HostRuntime) -> Result<(), Fail> {
    let rows: [(&[u8], Result<&[u8], EdgeFault>); 3] = [
        (
            b"POST /command/ HTTP/1.1\r\nContent-Length: 9\r\n\r\nabcdefghij",
            Ok(b"abcdefghi"),
        ),
        (
            b"\nPOST /command/ HTTP/1.1\nContent-Length: 5\n\nabc",
            Err(EdgeFault::Ended { have: 3, want: 5 }),
        ),
        (
            b"PUT /command/ HTTP/1.1\r\nContent-Length: 1\r\n\r\na",
            Err(EdgeFault::BadMethod),
        ),
    ];
    for (bytes, wanted) in rows {
        for place in 0..bytes.len() {
            assert!(rt; is_answer(read_cut(rt.alloc(), bytes, place)?, wanted));
        }
    }
    Ok(())
}

// A body of so many bytes.
fn long_body(alloc: Global, count: usize) -> Result<Vec<u8>, Fail> {
    let mut body = Vec::new(alloc);
    for place in 0..count {
        body.push((place % 251) as u8)?;
    }
    Ok(body)
}

#[test]
fn a_long_body_is_sent_and_read(rt: HostRuntime) -> Result<(), Fail> {
    let alloc = rt.alloc();
    let body = long_body(alloc, 20_000)?;
    let mut sink = MemorySink::new(alloc, 30_000, Vec::new(alloc))?;
    assert!(rt; is_reply(200, &body));
    write_reply(alloc, &mut sink, 200, &body)?;
    let mut link = MemoryLink::new(alloc, sink.taken().to_vec(alloc)?, 30_000, Vec::new(alloc))?;
    let reply = exchange(alloc, &mut link, &body)?;
    assert!(rt; reply.as_slice() == body.as_slice());
    assert!(rt; is_request(alloc, link.taken().to_vec(alloc)?, Ok(&body)));
    Ok(())
}
