//! Writing progress markers.
ghost use Rattle.std.specs.Prelude.{◌≡◌, ◌++◌, IfOk, OnOk};
ghost use Rattle.wire_format.specs.Faults.{IsNumber};
ghost use Rattle.sync_messages.specs.Spellings.{marker_bytes, markers_bytes};

use crate::message::Marker;
use std::alloc::Global;
use wire_fields::{FieldWriter, NoMemory, Octets};

// Writes the fields of some markers.
pub(crate) fn write_markers(
    writer: &mut FieldWriter,
    alloc: Global,
    number: u32,
    markers: &[Marker],
) -> Result<(), NoMemory>
    requires { IsNumber number }
    ensures { OnOk result (writer.new ≡ writer.old ++ markers_bytes number markers.now) }
{
    for marker in markers {
        writer.bytes(number, marker_bytes(alloc, marker)?.as_slice())?;
    }
    Ok(())
}

fn marker_bytes(alloc: Global, marker: &Marker) -> Result<Octets, NoMemory>
    ensures { IfOk result (λ bytes. bytes ≡ marker_bytes marker.now) }
{
    let mut writer = FieldWriter::new(alloc);
    writer.varint(1, u64::from(marker.kind.number()))?;
    writer.bytes(2, &marker.mark.token())?;
    Ok(writer.finish())
}
