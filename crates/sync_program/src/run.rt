//! The command line.
ghost use Rattle.outer_edge.specs.Faults.{NeverFalls};
ghost use Rattle.sync_program.specs.Outside.{reading, writing};
ghost use Rattle.sync_program.specs.Starting.{IsRun};

use crate::command::{Command, command_of};
use crate::refusal::{Refusal, refuse};
use crate::replay::run_replay;
use crate::status::Status;
use crate::wire::run_wire;
use outer_edge::{Sink, Source, Words};
use std::alloc::Global;

/// Does what the words of the command line say: `replay` replays the schedule that the source gives, and `wire`
/// looks into the message that it gives.
///
/// All other words are refused, and the source is left alone then.
pub fn run<S: Source, O: Sink>(
    alloc: Global,
    words: &Words,
    input: &mut S,
    output: &mut O,
) -> Status
    ensures run { IsRun words.now result
        (reading S.left S.came S.faults input.old input.new)
        (writing O.taken O.faults output.old output.new) }
    // In every case.
    ensures reads_never_fall { NeverFalls (S.faults input.old) (S.faults input.new) }
    ensures writes_never_fall { NeverFalls (O.faults output.old) (O.faults output.new) }
{
    match command_of(words) {
        Some(Command::Replay) => run_replay(alloc, input, output),
        Some(Command::Wire(command)) => run_wire(alloc, command, input, output),
        None => refuse(alloc, output, Refusal::UnknownWords),
    }
}
