// Standard input and output over calls that are interrupted, that fail, and that do a part of what they are asked for.
ghost use Rattle.std.specs.Prelude.{◌≡◌, IfOk};

use crate::*;
use std::cell::Cell;
use std::fmt::Display;
use std::io;
use std::io::{Error, ErrorKind, Read};
use std::test::Fail;

// What the fakes answer at a call, counted from 1: three interruptions, one thing done, and then the pipe is broken.
fn answer_at(call: u8, done: usize) -> io::Result<usize>
    ensures { IfOk result (λ count. count ≡ done) }
{
    match call {
        1 | 2 | 3 => Err(Error::from(ErrorKind::Interrupted)),
        4 => Ok(done),
        _ => Err(Error::from(ErrorKind::BrokenPipe)),
    }
}

// A reader that gives two bytes at its fourth call.
#[derive(Drop)]
struct Script {
    calls: u8,
}

impl Read for Script {
    fn read(&mut self, buf: &mut [u8]) -> io::Result<usize> {
        self.calls = self.calls.saturating_add(1);
        if buf.len() < 2 {
            return Ok(0);
        }
        buf[0] = 7;
        buf[1] = 8;
        answer_at(self.calls, 2)
    }
}

#[test]
fn standard_input_goes_on_after_three_interruptions(rt: HostRuntime) {
    let mut input = StandardInput::new(Script { calls: 0 });
    let mut room = [0; 3];
    assert_eq!(rt; input.read(&mut room), Ok(2));
    assert_eq!(rt; room, [7, 8, 0]);
    let end = read_up_to(rt.alloc(), &mut input, 9).err();
    assert_eq!(rt; end, Some(ReadEnd::ReadFault));
}

#[test]
fn standard_input_is_read_to_its_end(rt: HostRuntime) -> Result<(), Fail> {
    let mut input = StandardInput::new(b"abc".as_slice());
    let bytes = read_up_to(rt.alloc(), &mut input, 9)?;
    assert_eq!(rt; bytes.as_slice(), b"abc".as_slice());
    Ok(())
}

// A printer that takes half of a piece, at its fourth call.
#[derive(Drop)]
struct Half {
    calls: Cell<u8>,
}

impl Print for Half {
    fn print<D: Display + Drop>(&self, _: D) -> io::Result<()> {
        Ok(())
    }

    fn println<D: Display + Drop>(&self, _: D) -> io::Result<()> {
        Ok(())
    }

    fn write_all(&self, _: &[u8]) -> io::Result<()> {
        Ok(())
    }

    fn write_some(&self, bytes: &[u8]) -> io::Result<usize> {
        self.calls.set(self.calls.get().saturating_add(1));
        answer_at(self.calls.get(), bytes.len() / 2)
    }
}

#[test]
fn standard_output_tells_the_half_that_was_taken(rt: HostRuntime) {
    let printer = Half {
        calls: Cell::new(0),
    };
    let mut output = StandardOutput::new(&printer);
    assert_eq!(rt; output.write(b"abcdef"), Ok(3));
    assert_eq!(rt; printer.calls.get(), 4);
}

#[test]
fn a_broken_pipe_is_told_at_once(rt: HostRuntime) {
    let printer = Half {
        calls: Cell::new(0),
    };
    let mut output = StandardOutput::new(&printer);
    assert_eq!(rt;
        write_whole(&mut output, b"abcdef"),
        Err(WriteFault { written: 3 })
    );
    assert_eq!(rt; printer.calls.get(), 5);
}

#[test]
fn standard_output_that_takes_nothing_fails(rt: HostRuntime) {
    let printer = Half {
        calls: Cell::new(3),
    };
    let mut output = StandardOutput::new(&printer);
    assert_eq!(rt; write_whole(&mut output, b""), Ok(()));
    assert_eq!(rt; output.write(b"a"), Err(Failed));
    assert_eq!(rt; printer.calls.get(), 4);
    let mut output = StandardOutput::new(&rt);
    assert_eq!(rt; write_whole(&mut output, b"\n"), Ok(()));
}
