// Whole replays, and what they print.
use super::{Outcome, run_over};
use crate::status::Status;
use std::alloc::Global;
use std::test::Fail;

// Replays a text over objects that do not fail.
fn replayed(alloc: Global, text: &[u8]) -> Result<Outcome, Fail> {
    run_over(alloc, "replay", text.to_vec(alloc)?, &[], &[])
}

const NO_EVENTS: &[u8] = b"events 0 void 0
server version 0 keys 0
client 1 caught-up
side 1 nigori mark 0 due 0 reseal 0 pending 0 mailbox 0
side 1 preference mark 0 due 0 reseal 0 pending 0 mailbox 0
side 1 password mark 0 due 0 reseal 0 pending 0 mailbox 0
requests 0 deliveries 0
digest e3b0c44298fc1c149afbf4c8996fb92427ae41e4649b934ca495991b7852b855
";

const REPEATED_COMMIT: &[u8] = b"clients 1
edit 1 set preference a 1
gather 1 preference
offer 1
deliver 3
deliver 3
deliver 3
answer 4
post 1 preference
turn 1 preference
";

const REPEATED_COMMIT_REPORT: &[u8] = b"events 9 void 0
server version 1 keys 1
entity 1 preference Kx2jO7xVq8+3lJZeivRPONho7EY= plain a 1
client 1 behind
side 1 nigori mark 0 due 0 reseal 0 pending 0 mailbox 0
side 1 preference mark 0 due 0 reseal 0 pending 0 mailbox 0
side 1 password mark 0 due 0 reseal 0 pending 0 mailbox 0
value 1 preference Kx2jO7xVq8+3lJZeivRPONho7EY= known 1 a 1
fate 1 preference 1 committed 1
requests 1 deliveries 3
digest 6f6386acccad558cedbe5663a0f99b667cae34d0f7879b18365f99e58b9f352b
";

// Two clients change one preference; the second one hears that the server has the first one's value.
const TWO_CLIENTS: &[u8] = b"clients 2
edit 1 set preference a 1
edit 2 set preference a 2
gather 1 preference
offer 1
deliver 4
gather 2 preference
offer 2
deliver 7
answer 8
ask 2
deliver 10
answer 11
post 2 preference
turn 2 preference
";

const TWO_CLIENTS_REPORT: &[u8] = b"events 14 void 0
server version 1 keys 1
entity 1 preference Kx2jO7xVq8+3lJZeivRPONho7EY= plain a 1
client 1 behind
side 1 nigori mark 0 due 0 reseal 0 pending 0 mailbox 0
side 1 preference mark 0 due 1 reseal 0 pending 0 mailbox 0
side 1 password mark 0 due 0 reseal 0 pending 0 mailbox 0
value 1 preference Kx2jO7xVq8+3lJZeivRPONho7EY= known 0 a 1
fate 1 preference 1 stands
client 2 behind
side 2 nigori mark 0 due 0 reseal 0 pending 0 mailbox 0
side 2 preference mark 1 due 0 reseal 0 pending 0 mailbox 0
side 2 password mark 0 due 0 reseal 0 pending 0 mailbox 0
value 2 preference Kx2jO7xVq8+3lJZeivRPONho7EY= known 1 a 1
fate 2 preference 1 taken 1 C6
requests 3 deliveries 3
digest 256247f8b3bcfb87fcb6d95e160be213525ef8a6cc8867b28f5e5a2b40cb5498
";

#[test]
fn a_schedule_of_no_events_gives_its_report(rt: HostRuntime) -> Result<(), Fail> {
    let outcome = replayed(rt.alloc(), b"clients 1\n")?;
    assert_eq!(rt; outcome.status, Status::Ok);
    assert_eq!(rt; outcome.output.taken(), NO_EVENTS);
    Ok(())
}

#[test]
fn a_commit_that_is_delivered_again_is_reported(rt: HostRuntime) -> Result<(), Fail> {
    let outcome = replayed(rt.alloc(), REPEATED_COMMIT)?;
    assert_eq!(rt; outcome.status, Status::Ok);
    assert_eq!(rt; outcome.output.taken(), REPEATED_COMMIT_REPORT);
    Ok(())
}

#[test]
fn two_clients_with_one_key_are_reported(rt: HostRuntime) -> Result<(), Fail> {
    let outcome = replayed(rt.alloc(), TWO_CLIENTS)?;
    assert_eq!(rt; outcome.status, Status::Ok);
    assert_eq!(rt; outcome.output.taken(), TWO_CLIENTS_REPORT);
    Ok(())
}

// A text is refused, and this line says where and why.
fn is_refused(alloc: Global, text: &[u8], line: &[u8]) -> Result<bool, Fail> {
    let outcome = replayed(alloc, text)?;
    Ok(outcome.status == Status::BadSchedule && outcome.output.taken() == line)
}

#[test]
fn a_bad_line_is_named(rt: HostRuntime) -> Result<(), Fail> {
    assert!(rt; is_refused(rt.alloc(), b"clients 1", b"bad schedule: line 1: end\n")?);
    Ok(())
}

#[test]
fn no_bytes_are_no_schedule(rt: HostRuntime) -> Result<(), Fail> {
    assert!(rt; is_refused(rt.alloc(), b"", b"bad schedule: line 1: form\n")?);
    Ok(())
}

#[test]
fn a_number_that_is_none_is_named(rt: HostRuntime) -> Result<(), Fail> {
    assert!(rt;
        is_refused(
            rt.alloc(),
            b"clients 01\n",
            b"bad schedule: line 1: number\n"
        )?
    );
    Ok(())
}

#[test]
fn a_client_that_is_not_there_is_named(rt: HostRuntime) -> Result<(), Fail> {
    assert!(rt;
        is_refused(
            rt.alloc(),
            b"clients 1\nturn 2 password\n",
            b"bad schedule: line 2: range\n"
        )?
    );
    Ok(())
}

#[test]
fn a_word_that_spells_no_text_is_named(rt: HostRuntime) -> Result<(), Fail> {
    assert!(rt;
        is_refused(
            rt.alloc(),
            b"clients 1\nedit 1 set preference %41 1\n",
            b"bad schedule: line 2: word\n"
        )?
    );
    Ok(())
}

#[test]
fn a_line_that_is_not_built_is_named(rt: HostRuntime) -> Result<(), Fail> {
    assert!(rt;
        is_refused(
            rt.alloc(),
            b"clients 1\nlose 1\n",
            b"bad schedule: line 2: later\n"
        )?
    );
    Ok(())
}

#[test]
fn a_failing_source_is_a_read_fault(rt: HostRuntime) -> Result<(), Fail> {
    let bytes = b"clients 1\n".to_vec(rt.alloc())?;
    let outcome = run_over(rt.alloc(), "replay", bytes, &[1], &[])?;
    assert_eq!(rt; outcome.status, Status::ReadFault);
    assert_eq!(rt; outcome.output.taken(), b"read fault\n".as_slice());
    Ok(())
}

#[test]
fn a_failing_sink_is_a_write_fault(rt: HostRuntime) -> Result<(), Fail> {
    let bytes = b"clients 1\n".to_vec(rt.alloc())?;
    let outcome = run_over(rt.alloc(), "replay", bytes, &[], &[1])?;
    assert_eq!(rt; outcome.status, Status::WriteFault);
    assert!(rt; outcome.output.taken().is_empty());
    Ok(())
}

#[test]
fn one_byte_more_than_a_schedule_may_have_is_too_big(rt: HostRuntime) -> Result<(), Fail> {
    let alloc = rt.alloc();
    let outcome = run_over(
        rt.alloc(),
        "replay",
        vec![in alloc; b'a'; 1_048_577]?,
        &[],
        &[],
    )?;
    assert_eq!(rt; outcome.status, Status::TooBig);
    assert_eq!(rt; outcome.output.taken(), b"too big\n".as_slice());
    let outcome = run_over(
        rt.alloc(),
        "replay",
        vec![in alloc; b'a'; 1_048_576]?,
        &[],
        &[],
    )?;
    assert_eq!(rt; outcome.status, Status::BadSchedule);
    Ok(())
}
