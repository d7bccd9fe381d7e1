// A schedule of eight clients and 501 preferences: commits of 25, and a reply that is cut at 500 entries.
use super::{Outcome, run_over};
use crate::status::Status;
use std::alloc::{AllocError, Global};
use std::test::Fail;

const KEYS: u64 = 501;

// 20 commits of 25, and one of the last preference.
const COMMITS: u64 = 21;

fn add(text: &mut Vec<u8>, line: &[u8]) -> Result<(), AllocError> {
    text.extend_from_slice(line)
}

// Client 1 sets 501 preferences and commits them.
fn committed(alloc: Global) -> Result<Vec<u8>, Fail> {
    let mut text = b"clients 8\n".to_vec(alloc)?;
    for key in 0..KEYS {
        let line = format!(in alloc; "edit 1 set preference k{key} v\n")?;
        add(&mut text, line.as_bytes())?;
    }
    for commit in 0..COMMITS {
        let offer = KEYS + 6 * commit + 2;
        let deliver = offer + 1;
        let lines = format!(in alloc;
            "gather 1 preference\noffer 1\ndeliver {offer}\nanswer {deliver}\n"
        )?;
        add(&mut text, lines.as_bytes())?;
        add(&mut text, b"post 1 preference\nturn 1 preference\n")?;
    }
    Ok(text)
}

// Client 8 takes what is new to it, with an event of this number.
fn add_updates(alloc: Global, text: &mut Vec<u8>, ask: u64) -> Result<(), Fail> {
    let deliver = ask.saturating_add(1);
    let lines = format!(in alloc; "ask 8\ndeliver {ask}\nanswer {deliver}\n")?;
    add(text, lines.as_bytes())?;
    add(text, b"post 8 nigori\npost 8 preference\npost 8 password\n")?;
    add(text, b"turn 8 nigori\nturn 8 preference\nturn 8 password\n")?;
    Ok(())
}

fn has_line(outcome: &Outcome, line: &[u8]) -> bool {
    outcome
        .output
        .taken()
        .split(|byte| *byte == b'\n')
        .any(|other| other == line)
}

#[test]
fn a_reply_is_cut_at_500_entries(rt: HostRuntime) -> Result<(), Fail> {
    let alloc = rt.alloc();
    let mut text = committed(alloc)?;
    add_updates(alloc, &mut text, KEYS + 6 * COMMITS + 1)?;
    let outcome = run_over(alloc, "replay", text, &[], &[])?;
    assert_eq!(rt; outcome.status, Status::Ok);
    let lines: [&[u8]; 5] = [
        b"events 636 void 0",
        b"server version 501 keys 501",
        b"client 8 behind",
        b"side 8 preference mark 500 due 0 reseal 0 pending 0 mailbox 0",
        b"requests 22 deliveries 22",
    ];
    for line in lines {
        assert!(rt; has_line(&outcome, line));
    }
    Ok(())
}

#[test]
fn the_rest_comes_with_the_next_reply(rt: HostRuntime) -> Result<(), Fail> {
    let alloc = rt.alloc();
    let mut text = committed(alloc)?;
    let first = KEYS + 6 * COMMITS + 1;
    add_updates(alloc, &mut text, first)?;
    add_updates(alloc, &mut text, first + 9)?;
    let outcome = run_over(alloc, "replay", text, &[], &[])?;
    assert_eq!(rt; outcome.status, Status::Ok);
    let lines: [&[u8]; 5] = [
        b"events 645 void 0",
        b"server version 501 keys 501",
        b"client 8 caught-up",
        b"side 8 preference mark 501 due 0 reseal 0 pending 0 mailbox 0",
        b"requests 23 deliveries 23",
    ];
    for line in lines {
        assert!(rt; has_line(&outcome, line));
    }
    Ok(())
}
