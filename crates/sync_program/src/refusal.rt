//! Why the program refuses, and how it says so.

ghost use Rattle.std.specs.Prelude.{◌≡◌, MatchResult};
ghost use Rattle.outer_edge.specs.Faults.{NeverFalls};
ghost use Rattle.sync_program.specs.Outside.{writing, Printed};
ghost use Rattle.sync_program.specs.declared.refusal.Refusal.TheVariants.{NoMemory as MemoryWanting};
ghost use Rattle.sync_program.specs.Texts.{no_memory_line};
ghost use Rattle.sync_program.specs.Refusals.{IsAnswered, of_end, of_fault, of_message_fault};

use crate::status::Status;
use crate::texts;
use message_text::{MessageFault, MessageReason};
use outer_edge::{ReadEnd, Sink, write_whole};
use schedule_text::{LineReason, ParseFault};
use std::alloc::Global;
use wire_fields::NoMemory;

/// Why the program refuses, before it has printed the line that says so.
#[derive(Clone, Copy, Debug, PartialEq, Eq)]
pub enum Refusal {
    /// The words of the command line are none that the program knows.
    UnknownWords,
    /// The first line of the input that cannot stand in its place, counted from 1, and why.
    BadSchedule { line: u64, reason: LineReason },
    /// Where the input is no message, and why.
    BadMessage { fault: MessageFault },
    /// The source failed.
    ReadFault,
    /// Memory was wanting.
    NoMemory,
    /// The input is longer than it may be.
    TooBig,
}

impl From<ReadEnd> for Refusal {
    ghost from_gives = { λ end refusal. refusal ≡ of_end end };

    fn from(end: ReadEnd) -> Refusal {
        match end {
            ReadEnd::ReadFault => Refusal::ReadFault,
            ReadEnd::TooBig { count: _ } => Refusal::TooBig,
            ReadEnd::NoMemory => Refusal::NoMemory,
        }
    }
}

impl From<ParseFault> for Refusal {
    ghost from_gives = { λ fault refusal. refusal ≡ of_fault fault };

    fn from(fault: ParseFault) -> Refusal {
        match fault {
            ParseFault::BadLine { line, reason } => Refusal::BadSchedule { line, reason },
            ParseFault::NoMemory => Refusal::NoMemory,
        }
    }
}

impl From<MessageFault> for Refusal {
    ghost from_gives = { λ fault refusal. refusal ≡ of_message_fault fault };

    fn from(fault: MessageFault) -> Refusal {
        match fault.reason {
            MessageReason::NoMemory => Refusal::NoMemory,
            _ => Refusal::BadMessage { fault },
        }
    }
}

impl From<NoMemory> for Refusal {
    ghost from_gives = { λ _ refusal. refusal ≡ MemoryWanting };

    fn from(_: NoMemory) -> Refusal {
        Refusal::NoMemory
    }
}

impl From<outer_edge::NoMemory> for Refusal {
    ghost from_gives = { λ _ refusal. refusal ≡ MemoryWanting };

    fn from(_: outer_edge::NoMemory) -> Refusal {
        Refusal::NoMemory
    }
}

/// Prints the line of a refusal, and gives its status, which stays the same where the sink fails meanwhile.
///
/// Only the lines of a bad schedule and of a bad message take memory. Where that is wanting, the refusal becomes `NoMemory`.
pub fn refuse<O: Sink>(alloc: Global, output: &mut O, refusal: Refusal) -> Status
    ensures answered { IsAnswered refusal result (writing O.taken O.faults output.old output.new) }
    ensures never_falls { NeverFalls (O.faults output.old) (O.faults output.new) }
{
    match refusal {
        Refusal::UnknownWords => print(output, texts::unknown_words(), Status::Usage),
        Refusal::BadSchedule { line, reason } => {
            let text = texts::bad_schedule(alloc, line, reason);
            print_made(output, text, Status::BadSchedule)
        }
        Refusal::BadMessage { fault } => {
            let text = texts::bad_message(alloc, fault);
            print_made(output, text, Status::BadMessage)
        }
        Refusal::ReadFault => print(output, texts::read_fault(), Status::ReadFault),
        Refusal::NoMemory => print(output, texts::no_memory(), Status::NoMemory),
        Refusal::TooBig => print(output, texts::too_big(), Status::TooBig),
    }
}

// Prints a line for which memory was taken; where that was wanting, says so.
fn print_made<O: Sink>(output: &mut O, line: Result<Vec<u8>, NoMemory>, status: Status) -> Status
    ensures made { MatchResult line
        (λ text. (result ≡ status) × Printed (writing O.taken O.faults output.old output.new) text.items)
        (λ _. (result ≡ Status.NoMemory) × Printed (writing O.taken O.faults output.old output.new) no_memory_line) }
    ensures never_falls { NeverFalls (O.faults output.old) (O.faults output.new) }
{
    match line {
        Ok(text) => print(output, &text, status),
        Err(NoMemory) => print(output, texts::no_memory(), Status::NoMemory),
    }
}

// Prints a refusal's line, as far as the sink takes it, and gives the status.
fn print<O: Sink>(output: &mut O, line: &[u8], status: Status) -> Status
    ensures status { result ≡ status }
    ensures printed { Printed (writing O.taken O.faults output.old output.new) line.now }
    ensures never_falls { NeverFalls (O.faults output.old) (O.faults output.new) }
{
    let _ = write_whole(output, line);
    status
}
