//! The lines with which commands end that keep rows or use a network. Only that of a bad store takes memory.
ghost use Rattle.std.specs.Prelude.{◌≡◌, IfOk};
ghost use Rattle.command_words.specs.Endings.{keeper_fault_line, net_fault_line, bad_reply_line, place_fault_line, reason_end, bad_store_line};

use client_keeper::StoreReason;
use itoa::Buffer;
use std::alloc::Global;
use wire_fields::NoMemory;

#[tactic(auto, unfolding(crate::specs::Endings::keeper_fault_line))]
pub fn keeper_fault() -> &'static [u8]
    ensures { result.now ≡ keeper_fault_line }
{
    b"keeper fault\n"
}

#[tactic(auto, unfolding(crate::specs::Endings::net_fault_line))]
pub fn net_fault() -> &'static [u8]
    ensures { result.now ≡ net_fault_line }
{
    b"net fault\n"
}

#[tactic(auto, unfolding(crate::specs::Endings::bad_reply_line))]
pub fn bad_reply() -> &'static [u8]
    ensures { result.now ≡ bad_reply_line }
{
    b"bad reply\n"
}

#[tactic(auto, unfolding(crate::specs::Endings::place_fault_line))]
pub fn place_fault() -> &'static [u8]
    ensures { result.now ≡ place_fault_line }
{
    b"place fault\n"
}

// Why a row cannot stand in its store, up to the end of the text.
#[tactic(auto, unfolding(crate::specs::Endings::reason_end))]
fn reason_text(reason: StoreReason) -> &'static [u8]
    ensures { result.now ≡ reason_end reason }
{
    match reason {
        StoreReason::Format => b" format\n",
        StoreReason::Table => b" table\n",
        StoreReason::Key => b" key\n",
        StoreReason::Value => b" value\n",
        StoreReason::Numbers => b" numbers\n",
        StoreReason::Place => b" place\n",
        StoreReason::Version => b" version\n",
    }
}

/// Says which row is the first that cannot stand in its store, by its table and key, and why.
#[tactic(auto, unfolding(crate::specs::Endings::bad_store_line))]
pub fn bad_store(
    alloc: Global,
    table: u8,
    key: &[u8],
    reason: StoreReason,
) -> Result<Vec<u8>, NoMemory>
    ensures { IfOk result (λ text. text.items ≡ bad_store_line table key.now reason) }
{
    let mut buffer = Buffer::new();
    let mut text = Vec::from_slice(alloc, b"bad store: ")?;
    text.extend_from_slice(buffer.format(table).as_bytes())?;
    text.push(b' ')?;
    text.extend_from_slice(hex::encode(alloc, key)?.as_bytes())?;
    text.extend_from_slice(reason_text(reason))?;
    Ok(text)
}
