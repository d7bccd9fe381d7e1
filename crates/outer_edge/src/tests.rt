// Each public call once with ample memory, and a fault in mid-stream.
use super::*;
use std::test::Fail;

mod loopback;
mod nets;
mod system_calls;

// A source of these many bytes, which count up.
fn source_of(rt: &HostRuntime, count: u8, failing: &[u64]) -> Result<MemorySource, Fail> {
    let alloc = rt.alloc();
    let bytes = (0..count).collect(alloc)?;
    Ok(MemorySource::new(bytes, failing.to_vec(alloc)?))
}

#[test]
fn all_the_bytes_are_read_within_the_limit(rt: HostRuntime) -> Result<(), Fail> {
    let mut source = source_of(&rt, 5, &[])?;
    let bytes = read_up_to(rt.alloc(), &mut source, 5)?;
    assert_eq!(rt; bytes.as_slice(), [0, 1, 2, 3, 4].as_slice());
    Ok(())
}

#[test]
fn one_byte_past_the_limit_is_too_many(rt: HostRuntime) -> Result<(), Fail> {
    let mut source = source_of(&rt, 9, &[])?;
    let end = read_up_to(rt.alloc(), &mut source, 5).err();
    assert_eq!(rt; end, Some(ReadEnd::TooBig { count: 6 }));
    assert_eq!(rt; source.came(), [0, 1, 2, 3, 4, 5].as_slice());
    Ok(())
}

#[test]
fn a_reading_stops_at_a_fault_in_mid_stream(rt: HostRuntime) -> Result<(), Fail> {
    let mut source = source_of(&rt, 9, &[2])?;
    let end = read_up_to(rt.alloc(), &mut source, 100).err();
    assert_eq!(rt; end, Some(ReadEnd::ReadFault));
    assert_eq!(rt; source.came().len(), 9);
    Ok(())
}

#[test]
fn a_sure_source_gives_its_bytes(rt: HostRuntime) -> Result<(), Fail> {
    let alloc = rt.alloc();
    let mut source = SureSource::new([7; 5000].to_vec(alloc)?);
    let bytes = read_up_to(alloc, &mut source, 5000)?;
    assert_eq!(rt; bytes.as_slice(), [7; 5000].as_slice());
    assert_eq!(rt; source.came().len(), 5000);
    Ok(())
}

#[test]
fn a_sink_takes_what_it_has_room_for(rt: HostRuntime) -> Result<(), Fail> {
    let alloc = rt.alloc();
    let mut sink = MemorySink::new(alloc, 4, Vec::new(alloc))?;
    assert_eq!(rt; write_whole(&mut sink, b"abc"), Ok(()));
    assert_eq!(rt;
        write_whole(&mut sink, b"def"),
        Err(WriteFault { written: 1 })
    );
    assert_eq!(rt; sink.taken(), b"abcd".as_slice());
    Ok(())
}

#[test]
fn a_sink_fails_at_its_second_call(rt: HostRuntime) -> Result<(), Fail> {
    let alloc = rt.alloc();
    let mut sink = MemorySink::new(alloc, 9, [2].to_vec(alloc)?)?;
    assert_eq!(rt; write_whole(&mut sink, b"abc"), Ok(()));
    assert_eq!(rt;
        write_whole(&mut sink, b"def"),
        Err(WriteFault { written: 0 })
    );
    assert_eq!(rt; write_whole(&mut sink, b"def"), Ok(()));
    assert_eq!(rt; sink.taken(), b"abcdef".as_slice());
    Ok(())
}

#[test]
fn a_sure_sink_takes_all(rt: HostRuntime) {
    let mut sink = SureSink::new();
    assert_eq!(rt; write_whole(&mut sink, b"abc"), Ok(()));
}

// Reads a link to its end, and answers with what it read.
fn answer<L: Link>(alloc: std::alloc::Global, link: &mut L) -> Result<usize, Fail> {
    let bytes = read_up_to(alloc, link, 100)?;
    write_whole(link, &bytes)?;
    Ok(bytes.len())
}

#[test]
fn a_link_gives_its_bytes_and_takes_others(rt: HostRuntime) -> Result<(), Fail> {
    let alloc = rt.alloc();
    let mut link = MemoryLink::new(alloc, b"abc".to_vec(alloc)?, 5, Vec::new(alloc))?;
    assert_eq!(rt; answer(alloc, &mut link)?, 3);
    assert_eq!(rt; link.came(), b"abc".as_slice());
    assert_eq!(rt; link.taken(), b"abc".as_slice());
    Ok(())
}

#[test]
fn the_calls_of_both_sides_of_a_link_are_numbered_together(rt: HostRuntime) -> Result<(), Fail> {
    let alloc = rt.alloc();
    let failing = [3].to_vec(alloc)?;
    let mut link = MemoryLink::new(alloc, b"abc".to_vec(alloc)?, 5, failing)?;
    let mut room = [0; 2];
    assert_eq!(rt; link.read(&mut room), Ok(2));
    assert_eq!(rt; link.write(b"de"), Ok(2));
    assert_eq!(rt; link.read(&mut room), Err(Failed));
    assert_eq!(rt; link.write(b"fghi"), Ok(3));
    assert_eq!(rt; link.read(&mut room), Ok(1));
    assert_eq!(rt; link.came(), b"abc".as_slice());
    assert_eq!(rt; link.taken(), b"defgh".as_slice());
    Ok(())
}

#[test]
fn words_stay_in_order(rt: HostRuntime) -> Result<(), Fail> {
    let mut words = Words::new(rt.alloc());
    assert!(rt; words.is_empty());
    words.push("replay")?;
    words.push("a.txt")?;
    assert_eq!(rt; words.len(), 2);
    assert!(rt; words.get(1) == Some("a.txt"));
    assert!(rt; words.get(2).is_none());
    Ok(())
}

#[test]
fn shows_each_fault(rt: HostRuntime) -> Result<(), Fail> {
    let alloc = rt.alloc();
    let ends = [
        (ReadEnd::ReadFault, "the source failed"),
        (
            ReadEnd::TooBig { count: 6 },
            "6 bytes came, which is too many",
        ),
        (ReadEnd::NoMemory, "memory ran out"),
    ];
    for (end, wanted) in ends {
        let text = format!(in alloc; "{end}")?;
        assert_eq!(rt; text.as_str(), wanted);
    }
    let fault = format!(in alloc; "{}", WriteFault { written: 7 })?;
    assert_eq!(rt; fault.as_str(), "the sink failed after 7 bytes");
    let failed = format!(in alloc; "{Failed}")?;
    assert_eq!(rt; failed.as_str(), "a call of the outside failed");
    let memory = format!(in alloc; "{NoMemory}")?;
    assert_eq!(rt; memory.as_str(), "memory ran out");
    Ok(())
}
