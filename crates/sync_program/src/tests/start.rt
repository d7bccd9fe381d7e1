// The start of a run, from words that the system hands over or cannot hand over.
use crate::start::start;
use crate::status::Status;
use outer_edge::{MemorySink, MemorySource};
use std::alloc::Global;
use std::env::Args;
use std::io;
use std::io::ErrorKind;
use std::test::Fail;

// The program's name, and these words.
fn args_of(alloc: Global, words: &[&str]) -> Result<Args, Fail> {
    let mut args = Vec::new(alloc);
    args.push(String::from_str(alloc, "sync_program")?)?;
    for word in words {
        args.push(String::from_str(alloc, word)?)?;
    }
    Ok(args.into_iter())
}

// How a run over a schedule without events ends, and the first line of what it prints.
fn started(alloc: Global, args: io::Result<Args>) -> Result<(Status, Vec<u8>), Fail> {
    let schedule = b"clients 1\n".to_vec(alloc)?;
    let mut input = MemorySource::new(schedule, Vec::new(alloc));
    let mut output = MemorySink::new(alloc, 4096, Vec::new(alloc))?;
    let status = start(alloc, args, &mut input, &mut output);
    let mut lines = output.taken().split(|byte| *byte == b'\n');
    let line = lines.next().unwrap_or(b"");
    Ok((status, line.to_vec(alloc)?))
}

#[test]
fn the_name_is_no_word(rt: HostRuntime) -> Result<(), Fail> {
    let args = args_of(rt.alloc(), &["replay"])?;
    let (status, line) = started(rt.alloc(), Ok(args))?;
    assert_eq!(rt; status, Status::Ok);
    assert_eq!(rt; line.as_slice(), b"events 0 void 0".as_slice());
    Ok(())
}

#[test]
fn words_of_no_command_are_unknown(rt: HostRuntime) -> Result<(), Fail> {
    let rows: [&[&str]; 4] = [
        &[],
        &["sync_program"],
        &["sync_program", "replay"],
        &["replay", "replay"],
    ];
    for words in rows {
        let args = args_of(rt.alloc(), words)?;
        let (status, line) = started(rt.alloc(), Ok(args))?;
        assert_eq!(rt; status, Status::Usage);
        assert_eq!(rt; line.as_slice(), b"unknown words".as_slice());
    }
    let none: Vec<String> = Vec::new(rt.alloc());
    let (status, line) = started(rt.alloc(), Ok(none.into_iter()))?;
    assert_eq!(rt; status, Status::Usage);
    assert_eq!(rt; line.as_slice(), b"unknown words".as_slice());
    Ok(())
}

#[test]
fn a_word_that_is_no_text_is_unknown(rt: HostRuntime) -> Result<(), Fail> {
    let error = io::Error::from(ErrorKind::InvalidData);
    let (status, line) = started(rt.alloc(), Err(error))?;
    assert_eq!(rt; status, Status::Usage);
    assert_eq!(rt; line.as_slice(), b"unknown words".as_slice());
    Ok(())
}

#[test]
fn want_of_memory_for_words_is_told(rt: HostRuntime) -> Result<(), Fail> {
    let error = io::Error::from(ErrorKind::OutOfMemory);
    let (status, line) = started(rt.alloc(), Err(error))?;
    assert_eq!(rt; status, Status::NoMemory);
    assert_eq!(rt; line.as_slice(), b"no memory".as_slice());
    Ok(())
}
