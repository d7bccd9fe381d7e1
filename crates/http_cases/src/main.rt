//! Answers recorded links: a line of the input has all bytes that a link gives before its end, and the line of the
//! output that stands for it says what a server, or a client, makes of them.
//!
//! A line is `request` or `reply`, a space, and the bytes in hexadecimal digits. Its answer is `body` and the body, or
//! the fault with its numbers; behind the fault of a request stands the code that it is replied to with, or `none`.
#![tactic(auto)]

use http_edge::{EdgeFault, exchange, read_request};
use outer_edge::{MemoryLink, MemorySource};
use std::alloc::{AllocError, Global};
use std::io;

fn main(rt: HostRuntime) -> io::Result<()> {
    let alloc = rt.alloc();
    for line in rt.lines(alloc) {
        let line = line?;
        let answer = answer_of(alloc, line.as_str())?;
        println!(rt; "{answer}")?;
    }
    Ok(())
}

fn answer_of(alloc: Global, line: &str) -> Result<String, AllocError> {
    let Some((kind, digits)) = line.split_once(' ') else {
        return format!(in alloc; "no such line");
    };
    let Ok(bytes) = hex::decode(alloc, digits.as_bytes()) else {
        return format!(in alloc; "no bytes");
    };
    if kind == "request" {
        request_answer(alloc, bytes)
    } else {
        reply_answer(alloc, bytes)
    }
}

fn request_answer(alloc: Global, bytes: Vec<u8>) -> Result<String, AllocError> {
    let mut source = MemorySource::new(bytes, Vec::new(alloc));
    match read_request(alloc, &mut source) {
        Ok(body) => body_text(alloc, body.as_slice()),
        Err(fault) => {
            let text = fault_text(alloc, fault)?;
            match fault.reply_code() {
                Some(code) => format!(in alloc; "{text} {code}"),
                None => format!(in alloc; "{text} none"),
            }
        }
    }
}

fn reply_answer(alloc: Global, bytes: Vec<u8>) -> Result<String, AllocError> {
    // The request that is written has no body, and less than 200 bytes.
    let Ok(mut link) = MemoryLink::new(alloc, bytes, 200, Vec::new(alloc)) else {
        return format!(in alloc; "no memory");
    };
    match exchange(alloc, &mut link, b"") {
        Ok(body) => body_text(alloc, body.as_slice()),
        Err(fault) => fault_text(alloc, fault),
    }
}

fn body_text(alloc: Global, body: &[u8]) -> Result<String, AllocError> {
    if body.is_empty() {
        return format!(in alloc; "body -");
    }
    let digits = hex::encode(alloc, body)?;
    format!(in alloc; "body {digits}")
}

fn fault_text(alloc: Global, fault: EdgeFault) -> Result<String, AllocError> {
    match fault {
        EdgeFault::LinkFault => format!(in alloc; "LinkFault"),
        EdgeFault::Ended { have, want } => format!(in alloc; "Ended {have} {want}"),
        EdgeFault::BadHead => format!(in alloc; "BadHead"),
        EdgeFault::BadMethod => format!(in alloc; "BadMethod"),
        EdgeFault::BadPath => format!(in alloc; "BadPath"),
        EdgeFault::Encoded => format!(in alloc; "Encoded"),
        EdgeFault::NoLength => format!(in alloc; "NoLength"),
        EdgeFault::TooBig { length } => format!(in alloc; "TooBig {length}"),
        EdgeFault::Status { code } => format!(in alloc; "Status {code}"),
        EdgeFault::NoMemory => format!(in alloc; "NoMemory"),
    }
}
