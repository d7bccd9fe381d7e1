//! Looking into a message: whether the bytes are one, whether they are canonical, and what is in it.
ghost use Rattle.std.specs.Prelude.{◌≡◌, ◌+◌, ℕ, List, IfOk, MatchResult};
ghost use Rattle.outer_edge.specs.Faults.{NeverFalls};
ghost use Rattle.outer_edge.specs.Source.{GaveUpTo};
ghost use Rattle.sync_program.specs.Outside.{reading, writing, SourceFailed, SinkFailed, GaveInput, TellsInput, TellsTooMuch};
ghost use Rattle.sync_program.specs.Refusals.{IsRefusalOf};
ghost use Rattle.sync_program.specs.Work.{HasCause, GivesOutput, GivesRefusal, RefusesLength, IsOkOrNoMemory};
ghost use Rattle.sync_program.specs.Wire.{MAX_MESSAGE, IsLookedInto, IsNoMessage, look_text, looking};
ghost use Rattle.sync_program.specs.declared.status.Status.TheVariants.{BadMessage};

use crate::command::{Look, WireCommand};
use crate::output::write_output;
use crate::refusal::{Refusal, refuse};
use crate::status::Status;
use message_text::{WireMessage, bytes_say_one_message, checked_text, shown_text};
use outer_edge::{Sink, Source, read_up_to};
use std::alloc::Global;
use wire_fields::NoMemory;

/// How many bytes a message may have.
const MESSAGE_LIMIT: u64 = 16_777_216;

/// Reads a message to its end, and writes what the command asks of it.
///
/// A refusal prints one line in place of that. It takes time and memory linear in the number of the bytes and in that
/// of the output. It asks the source for at most one byte more than a message may have.
pub fn run_wire<S: Source, O: Sink>(
    alloc: Global,
    command: WireCommand,
    input: &mut S,
    output: &mut O,
) -> Status
    // A message gives just what the command prints of it.
    ensures gives { (text : List ℕ) → TellsInput (S.left input.old) MAX_MESSAGE (λ bytes. IsLookedInto command bytes text)
        → GivesOutput text result (reading S.left S.came S.faults input.old input.new)
        (writing O.taken O.faults output.old output.new) }
    // Each status has its cause.
    ensures cause { HasCause (looking command) result
        (reading S.left S.came S.faults input.old input.new)
        (writing O.taken O.faults output.old output.new) }
    // Bytes that are no message, or too many, give the status that says so.
    ensures refuses { (line : List ℕ) → TellsInput (S.left input.old) MAX_MESSAGE (λ bytes. IsNoMessage command bytes line)
        → GivesRefusal BadMessage line result (reading S.left S.came S.faults input.old input.new)
        (writing O.taken O.faults output.old output.new) }
    ensures refuses_length { TellsTooMuch (S.left input.old) MAX_MESSAGE
        → RefusesLength result (reading S.left S.came S.faults input.old input.new) }
    // Where nothing outside failed, a message gives status 0, or memory was wanting.
    ensures completes { (text : List ℕ) → TellsInput (S.left input.old) MAX_MESSAGE (λ bytes. IsLookedInto command bytes text)
        → (SourceFailed (reading S.left S.came S.faults input.old input.new) → ⊥)
        → (SinkFailed (writing O.taken O.faults output.old output.new) → ⊥)
        → IsOkOrNoMemory result }
    // In every case.
    ensures gave_some { GaveUpTo S.left S.came input.old input.new (MAX_MESSAGE + 1) }
    ensures reads_never_fall { NeverFalls (S.faults input.old) (S.faults input.new) }
    ensures writes_never_fall { NeverFalls (O.faults output.old) (O.faults output.new) }
{
    // The law of messages, which this call brings in as a fact; it does nothing when it runs.
    bytes_say_one_message();
    look(alloc, command, input, output)
}

// Looks into what the source gives.
fn look<S: Source, O: Sink>(
    alloc: Global,
    command: WireCommand,
    input: &mut S,
    output: &mut O,
) -> Status
    ensures cause { HasCause (looking command) result
        (reading S.left S.came S.faults input.old input.new)
        (writing O.taken O.faults output.old output.new) }
    ensures gave_some { GaveUpTo S.left S.came input.old input.new (MAX_MESSAGE + 1) }
    ensures reads_never_fall { NeverFalls (S.faults input.old) (S.faults input.new) }
    ensures writes_never_fall { NeverFalls (O.faults output.old) (O.faults output.new) }
{
    match looked_into(alloc, command, input) {
        Ok(text) => write_output(output, &text),
        Err(refusal) => refuse(alloc, output, refusal),
    }
}

// What the command prints of the message that the source gives.
fn looked_into<S: Source>(
    alloc: Global,
    command: WireCommand,
    input: &mut S,
) -> Result<Vec<u8>, Refusal>
    ensures looked { MatchResult result
        (λ text. GaveInput (reading S.left S.came S.faults input.old input.new) MAX_MESSAGE
        (λ bytes. IsLookedInto command bytes text.items))
        (λ refusal. IsRefusalOf (looking command) refusal (reading S.left S.came S.faults input.old input.new)) }
    ensures gave_some { GaveUpTo S.left S.came input.old input.new (MAX_MESSAGE + 1) }
    ensures never_falls { NeverFalls (S.faults input.old) (S.faults input.new) }
{
    let bytes = read_up_to(alloc, input, MESSAGE_LIMIT)?;
    let message = WireMessage::read(alloc, command.direction, &bytes)?;
    let canonical = message.is_spelled(alloc, &bytes)?;
    Ok(text_of(alloc, command.look, &message, canonical)?)
}

// What is printed of a message.
fn text_of(
    alloc: Global,
    look: Look,
    message: &WireMessage,
    canonical: bool,
) -> Result<Vec<u8>, NoMemory>
    ensures { IfOk result (λ text. text.items ≡ look_text look message.now canonical) }
{
    match look {
        Look::Check => Ok(Vec::from_slice(alloc, checked_text(canonical))?),
        Look::Show => shown_text(alloc, message, canonical),
    }
}
