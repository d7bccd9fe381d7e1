//! The lines of a report that tell of the server.
ghost use Rattle.std.specs.Prelude.{◌≡◌, ◌≤◌, ◌<◌, ◌-◌, ◌==◌, ◌||◌, ℕ, ◌++◌, [], false, count_by, length, reverse, slice_index_or, IfOk, OnOk};
ghost use Rattle.sync_model.specs.History.{IsBased};
ghost use Rattle.sync_model.specs.Report.{pass_number, server_line, entity_lines};
ghost use Rattle.run_setting.specs.Hashed.{hashed};
ghost use Rattle.replay_world.specs.Reports.{HasBases, line_unless, is_first};

use crate::run_server::RunServer;
use report_lines::{write_entity_line, write_server_line};
use std::alloc::Global;
use sync_model::{Content, Entry};
use wire_fields::NoMemory;

fn is_first(write: &Entry<Content>) -> bool
    ensures { result ≡ is_first write.now }
{
    write.version == 0
}

// How many keys have a write: each has one that is based on none.
fn count_keys(writes: &[Entry<Content>]) -> usize
    ensures { result ≡ count_by is_first writes.now }
{
    writes.iter().filter(|write| is_first(*write)).count()
}

/// The server's version, and how many keys it has.
pub(crate) fn write_server(out: &mut Vec<u8>, server: &RunServer) -> Result<(), NoMemory>
    ensures { OnOk result (out.new.items ≡ out.old.items ++ server_line server.now) }
{
    write_server_line(out, server.version(), count_keys(server.writes()) as u64)
}

// Marks a version on which a write is based, if it is one.
fn mark(bases: &mut [bool], version: u64)
    requires { version ≤ length bases.old }
    ensures long { length bases.new ≡ length bases.old }
    ensures marks { (other : ℕ) → 0 < other
        → slice_index_or bases.new (other - 1) false ≡ (version == other || slice_index_or bases.old (other - 1) false) }
{
    if version > 0 {
        bases[version as usize - 1] = true;
    }
}

// Which versions have a later write of their key: those on which a write is based.
fn bases_of(alloc: Global, writes: &[Entry<Content>]) -> Result<Vec<bool>, NoMemory>
    requires { IsBased (reverse writes.now) }
    ensures bases { IfOk result (λ bases. HasBases bases.items (reverse writes.now)) }
    ensures long { IfOk result (λ bases. length bases.items ≡ length writes.now) }
{
    let mut bases = vec![in alloc; false; writes.len()]?;
    for write in writes {
        mark(&mut bases, write.version);
    }
    Ok(bases)
}

fn write_unless(
    out: &mut Vec<u8>,
    is_based: bool,
    version: u64,
    write: &Entry<Content>,
) -> Result<(), NoMemory>
    ensures { OnOk result (out.new.items ≡ out.old.items ++ line_unless is_based version write.now) }
{
    if is_based {
        return Ok(());
    }
    write_entity_line(
        out,
        version,
        write.key.kind,
        &write.key.hash,
        &write.content,
    )
}

// A write is based on the version after this place.
fn is_base(bases: &[bool], place: usize) -> bool
    requires { place < length bases.now }
    ensures { result ≡ slice_index_or bases.now place false }
{
    bases[place]
}

// The last writes of their keys, by ascending version.
fn write_last(out: &mut Vec<u8>, writes: &[Entry<Content>], bases: &[bool]) -> Result<(), NoMemory>
    requires based { IsBased (reverse writes.now) }
    requires bases { HasBases bases.now (reverse writes.now) }
    requires long { length bases.now ≡ length writes.now }
    ensures { OnOk result (out.new.items ≡ out.old.items ++ entity_lines hashed (pass_number hashed []) (reverse writes.now) (reverse writes.now)) }
{
    for (place, write) in writes.iter().enumerate() {
        write_unless(out, is_base(bases, place), place as u64 + 1, write)?;
    }
    Ok(())
}

/// The last writes of their keys, by ascending version, in time linear in the number of writes and in the text.
pub(crate) fn write_entities(
    out: &mut Vec<u8>,
    alloc: Global,
    server: &RunServer,
) -> Result<(), NoMemory>
    ensures { OnOk result (out.new.items ≡ out.old.items ++ entity_lines hashed (pass_number hashed []) server.now server.now) }
{
    let writes = server.writes();
    let bases = bases_of(alloc, writes)?;
    write_last(out, writes, &bases)
}
