// Looking into messages, and what is printed of them.
use super::{Outcome, run_over};
use crate::status::Status;
use std::alloc::Global;
use std::test::Fail;

// Looks into bytes over objects that do not fail.
fn looked(alloc: Global, command_line: &str, bytes: &[u8]) -> Result<Outcome, Fail> {
    run_over(alloc, command_line, bytes.to_vec(alloc)?, &[], &[])
}

// One answer, of version 7, to a commit of one entry.
const ANSWER: &[u8] = b"\x0a\x06\x0b\x10\x01\x30\x07\x0c";

// The same, with its fields in another order, and one that is read over.
const OTHER_ANSWER: &[u8] = b"\x0a\x09\x0b\x30\x07\x98\x06\x05\x10\x01\x0c";

// What is newer of preferences than version 7?
const UPDATES: &[u8] = b"\x18\x02\x2a\x10\x32\x0e\x08\xc6\xa6\x02\x12\x08\0\0\0\0\0\0\0\x07";

#[test]
fn messages_are_checked(rt: HostRuntime) -> Result<(), Fail> {
    let outcome = looked(rt.alloc(), "wire check from", ANSWER)?;
    assert_eq!(rt; outcome.status, Status::Ok);
    assert_eq!(rt; outcome.output.taken(), b"ok canonical\n".as_slice());
    let outcome = looked(rt.alloc(), "wire check from", OTHER_ANSWER)?;
    assert_eq!(rt; outcome.status, Status::Ok);
    assert_eq!(rt; outcome.output.taken(), b"ok other\n".as_slice());
    let outcome = looked(rt.alloc(), "wire check to", UPDATES)?;
    assert_eq!(rt; outcome.status, Status::Ok);
    assert_eq!(rt; outcome.output.taken(), b"ok canonical\n".as_slice());
    Ok(())
}

#[test]
fn messages_are_shown(rt: HostRuntime) -> Result<(), Fail> {
    let outcome = looked(rt.alloc(), "wire show from", OTHER_ANSWER)?;
    assert_eq!(rt; outcome.status, Status::Ok);
    assert_eq!(rt;
        outcome.output.taken(),
        b"committed 1\nanswer 1 - 7\nno birthday\nother\n".as_slice()
    );
    let outcome = looked(rt.alloc(), "wire show to", UPDATES)?;
    assert_eq!(rt; outcome.status, Status::Ok);
    assert_eq!(rt;
        outcome.output.taken(),
        b"updates marks 1\nmark preference 7\nno birthday\ncanonical\n".as_slice()
    );
    Ok(())
}

#[test]
fn bytes_that_are_no_message_are_refused(rt: HostRuntime) -> Result<(), Fail> {
    for command_line in ["wire check to", "wire show to"] {
        let outcome = looked(rt.alloc(), command_line, b"")?;
        assert_eq!(rt; outcome.status, Status::BadMessage);
        assert_eq!(rt;
            outcome.output.taken(),
            b"bad message: at 0: missing 3\n".as_slice()
        );
    }
    let outcome = looked(rt.alloc(), "wire show from", b"\x0a\x03\x0b\x10\x01")?;
    assert_eq!(rt; outcome.status, Status::BadMessage);
    assert_eq!(rt;
        outcome.output.taken(),
        b"bad message: at 5: open group\n".as_slice()
    );
    Ok(())
}

#[test]
fn the_line_of_a_refusal_may_meet_a_failing_sink(rt: HostRuntime) -> Result<(), Fail> {
    let outcome = run_over(rt.alloc(), "wire check to", Vec::new(rt.alloc()), &[], &[1])?;
    assert_eq!(rt; outcome.status, Status::BadMessage);
    assert!(rt; outcome.output.taken().is_empty());
    Ok(())
}

#[test]
fn objects_that_fail_are_told(rt: HostRuntime) -> Result<(), Fail> {
    let bytes = ANSWER.to_vec(rt.alloc())?;
    let outcome = run_over(rt.alloc(), "wire check from", bytes, &[1], &[])?;
    assert_eq!(rt; outcome.status, Status::ReadFault);
    assert_eq!(rt; outcome.output.taken(), b"read fault\n".as_slice());
    let bytes = ANSWER.to_vec(rt.alloc())?;
    let outcome = run_over(rt.alloc(), "wire show from", bytes, &[], &[1])?;
    assert_eq!(rt; outcome.status, Status::WriteFault);
    assert!(rt; outcome.output.taken().is_empty());
    Ok(())
}

#[test]
fn one_byte_more_than_a_message_may_have_is_too_big(rt: HostRuntime) -> Result<(), Fail> {
    let alloc = rt.alloc();
    let bytes = vec![in alloc; 0; 16_777_217]?;
    let outcome = run_over(alloc, "wire check to", bytes, &[], &[])?;
    assert_eq!(rt; outcome.status, Status::TooBig);
    assert_eq!(rt; outcome.output.taken(), b"too big\n".as_slice());
    let bytes = vec![in alloc; 0; 16_777_216]?;
    let outcome = run_over(alloc, "wire check to", bytes, &[], &[])?;
    assert_eq!(rt; outcome.status, Status::BadMessage);
    assert_eq!(rt;
        outcome.output.taken(),
        b"bad message: at 0: zero number\n".as_slice()
    );
    Ok(())
}
