//! What is wrong with bytes that are no message.
ghost use Rattle.std.specs.Prelude.{◌≡◌, ◌++◌, OnOk, OnErr};
ghost use Rattle.std.specs.Fmt.{decimal};
ghost use Rattle.message_text.specs.Faults.{wire_reason_text, reason_text, fault_text};
ghost use Rattle.text_lines.specs.Continued.{Continues};

use sync_messages::{MessageFault, MessageReason};
use text_lines::{Piece, write_pieces, write_text};
use wire_fields::NoMemory;
use wire_format::WireReason;

/// Where bytes are no message, and why, at the end of a text. After want of memory the text still begins with what it
/// was; a part of what was to be written may follow.
#[tactic(auto, using(text_lines::proofs::Continuing::continues_after), unfolding(crate::specs::Faults::fault_text))]
pub fn write_fault(out: &mut Vec<u8>, fault: MessageFault) -> Result<(), NoMemory>
    ensures ok { OnOk result (out.new.items ≡ out.old.items ++ fault_text fault) }
    ensures err { OnErr result (Continues out.old.items out.new.items) }
{
    write_pieces(
        out,
        &[
            Piece::Text(b"at "),
            Piece::Number(fault.at),
            Piece::Text(b": "),
        ],
    )?;
    write_reason(out, fault.reason)
}

#[tactic(auto, unfolding(crate::specs::Faults::reason_text))]
fn write_reason(out: &mut Vec<u8>, reason: MessageReason) -> Result<(), NoMemory>
    ensures ok { OnOk result (out.new.items ≡ out.old.items ++ reason_text reason) }
    ensures err { OnErr result (Continues out.old.items out.new.items) }
{
    match reason {
        MessageReason::Wire(reason) => write_text(out, wire_reason(reason)),
        MessageReason::Missing { field } => write_numbered(out, b"missing ", u64::from(field)),
        MessageReason::WrongKind { field } => write_numbered(out, b"wrong kind ", u64::from(field)),
        MessageReason::Range { field } => write_numbered(out, b"range ", u64::from(field)),
        MessageReason::BadToken { len } => write_numbered(out, b"bad token ", len),
        MessageReason::NoMemory => write_text(out, b"no memory"),
    }
}

fn write_numbered(out: &mut Vec<u8>, words: &[u8], number: u64) -> Result<(), NoMemory>
    ensures ok { OnOk result (out.new.items ≡ out.old.items ++ words.now ++ decimal number) }
    ensures err { OnErr result (Continues out.old.items out.new.items) }
{
    write_pieces(out, &[Piece::Text(words), Piece::Number(number)])
}

#[tactic(auto, unfolding(crate::specs::Faults::wire_reason_text))]
fn wire_reason(reason: WireReason) -> &'static [u8]
    ensures { result.now ≡ wire_reason_text reason }
{
    match reason {
        WireReason::Cut => b"cut",
        WireReason::LongVarint => b"long varint",
        WireReason::BadKind => b"bad kind",
        WireReason::ZeroNumber => b"zero number",
        WireReason::BigNumber => b"big number",
        WireReason::OpenGroup => b"open group",
        WireReason::StrayEnd => b"stray end",
        WireReason::TooDeep => b"too deep",
    }
}
