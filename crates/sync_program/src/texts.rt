//! The lines that the program prints where it refuses. Only those of a bad schedule and of a bad message take memory.

ghost use Rattle.std.specs.Prelude.{◌≡◌, IfOk};
ghost use Rattle.sync_program.specs.Texts.{unknown_words_line, read_fault_line, no_memory_line, too_big_line, reason_end, bad_schedule_line, bad_message_line};

use itoa::Buffer;
use message_text::{MessageFault, write_fault};
use schedule_text::LineReason;
use std::alloc::Global;
use wire_fields::NoMemory;

#[tactic(auto, unfolding(crate::specs::Texts::unknown_words_line))]
pub fn unknown_words() -> &'static [u8]
    ensures { result.now ≡ unknown_words_line }
{
    b"unknown words\n"
}

#[tactic(auto, unfolding(crate::specs::Texts::read_fault_line))]
pub fn read_fault() -> &'static [u8]
    ensures { result.now ≡ read_fault_line }
{
    b"read fault\n"
}

#[tactic(auto, unfolding(crate::specs::Texts::no_memory_line))]
pub fn no_memory() -> &'static [u8]
    ensures { result.now ≡ no_memory_line }
{
    b"no memory\n"
}

#[tactic(auto, unfolding(crate::specs::Texts::too_big_line))]
pub fn too_big() -> &'static [u8]
    ensures { result.now ≡ too_big_line }
{
    b"too big\n"
}

// Why a line cannot stand in its place, up to the end of the text.
#[tactic(auto, unfolding(crate::specs::Texts::reason_end))]
fn reason_text(reason: LineReason) -> &'static [u8]
    ensures { result.now ≡ reason_end reason }
{
    match reason {
        LineReason::End => b": end\n",
        LineReason::Form => b": form\n",
        LineReason::Number => b": number\n",
        LineReason::Range => b": range\n",
        LineReason::Word => b": word\n",
        LineReason::Many => b": many\n",
        LineReason::Later => b": later\n",
    }
}

/// Says which line of a text is the first that cannot stand in its place, and why.
#[tactic(auto, unfolding(crate::specs::Texts::bad_schedule_line))]
pub fn bad_schedule(alloc: Global, line: u64, reason: LineReason) -> Result<Vec<u8>, NoMemory>
    ensures { IfOk result (λ text. text.items ≡ bad_schedule_line line reason) }
{
    let mut buffer = Buffer::new();
    let mut text = Vec::from_slice(alloc, b"bad schedule: line ")?;
    text.extend_from_slice(buffer.format(line).as_bytes())?;
    text.extend_from_slice(reason_text(reason))?;
    Ok(text)
}

/// Says where the bytes are no message, and why.
#[tactic(auto, unfolding(crate::specs::Texts::bad_message_line))]
pub fn bad_message(alloc: Global, fault: MessageFault) -> Result<Vec<u8>, NoMemory>
    ensures { IfOk result (λ text. text.items ≡ bad_message_line fault) }
{
    let mut text = Vec::from_slice(alloc, b"bad message: ")?;
    write_fault(&mut text, fault)?;
    text.push(b'\n')?;
    Ok(text)
}
