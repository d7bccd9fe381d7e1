//! Writing what a command gives.
ghost use Rattle.outer_edge.specs.Faults.{NeverFalls};
ghost use Rattle.sync_program.specs.Outside.{writing};
ghost use Rattle.sync_program.specs.Work.{IsWritten};

use crate::status::Status;
use outer_edge::{Sink, write_whole};

/// Writes an output, and says whether the sink took all of it.
pub fn write_output<O: Sink>(output: &mut O, text: &[u8]) -> Status
    ensures written { IsWritten result (writing O.taken O.faults output.old output.new) text.now }
    ensures never_falls { NeverFalls (O.faults output.old) (O.faults output.new) }
{
    match write_whole(output, text) {
        Ok(()) => Status::Ok,
        Err(_) => Status::WriteFault,
    }
}
