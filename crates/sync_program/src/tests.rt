// Whole runs over objects in memory, and what they print.
use crate::run::run;
use crate::status::Status;
use outer_edge::{MemorySink, MemorySource, Words};
use std::alloc::Global;
use std::test::Fail;

mod large;
mod replay;
mod start;
mod wire;

// How a run ended, and what its sink took.
#[derive(Drop)]
struct Outcome {
    status: Status,
    output: MemorySink,
}

// Runs the program over a source of these bytes and a sink, whose calls of these numbers fail.
fn run_over(
    alloc: Global,
    command_line: &str,
    bytes: Vec<u8>,
    failing_reads: &[u64],
    failing_writes: &[u64],
) -> Result<Outcome, Fail> {
    let mut words = Words::new(alloc);
    for word in command_line.split(' ') {
        words.push(word)?;
    }
    let mut input = MemorySource::new(bytes, failing_reads.to_vec(alloc)?);
    let mut output = MemorySink::new(alloc, 1_048_576, failing_writes.to_vec(alloc)?)?;
    let status = run(alloc, &words, &mut input, &mut output);
    Ok(Outcome { status, output })
}

#[test]
fn other_words_are_refused(rt: HostRuntime) -> Result<(), Fail> {
    let command_lines = [
        "replay now",
        "Replay",
        "",
        "wire",
        "wire check",
        "wire check up",
        "wire look to",
        "check to",
        "wires show to",
        "wire show to now",
        "wire to show",
    ];
    for command_line in command_lines {
        let bytes = b"clients 1\n".to_vec(rt.alloc())?;
        let outcome = run_over(rt.alloc(), command_line, bytes, &[], &[])?;
        assert_eq!(rt; outcome.status, Status::Usage);
        assert_eq!(rt; outcome.output.taken(), b"unknown words\n".as_slice());
    }
    Ok(())
}

#[test]
fn each_status_has_its_number(rt: HostRuntime) {
    assert_eq!(rt; Status::Ok.code(), 0);
    assert_eq!(rt; Status::TooBig.code(), 8);
    assert_eq!(rt; Status::BadMessage.code(), 12);
}
