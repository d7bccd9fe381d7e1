//! Replaying a schedule: read it, step its world, and write the world's report.

ghost use Rattle.std.specs.Prelude.{◌≡◌, ◌+◌, ℕ, IfOk, OnOk, MatchResult};
ghost use Rattle.outer_edge.specs.Faults.{NeverFalls};
ghost use Rattle.outer_edge.specs.Source.{GaveUpTo};
ghost use Rattle.sync_model.specs.declared.event.Schedule.{Schedule as Plan};
ghost use Rattle.run_setting.specs.Hashed.{hashed};
ghost use Rattle.sync_model.specs.History.{IsBased};
ghost use Rattle.sync_model.specs.Lawful.{IsLawful};
ghost use Rattle.sync_model.specs.Worlds.{world_of};
ghost use Rattle.schedule_text.specs.declared.fault.LineReason.{LineReason as Reason};
ghost use Rattle.schedule_text.specs.Spelling.{IsSchedule, IsBuiltSchedule, Spells};
ghost use Rattle.schedule_text.specs.Refusals.{IsRefused};
ghost use Rattle.sync_program.specs.declared.status.Status.TheVariants.{BadSchedule};
ghost use Rattle.sync_program.specs.Texts.{bad_schedule_line};
ghost use Rattle.sync_program.specs.Outside.{reading, writing, SourceFailed, SinkFailed, GaveInput, TellsInput, TellsTooMuch};
ghost use Rattle.sync_program.specs.Refusals.{IsRefusalOf};
ghost use Rattle.sync_program.specs.Work.{HasCause, GivesOutput, GivesRefusal, RefusesLength, IsOkOrNoMemory};
ghost use Rattle.sync_program.specs.Replay.{MAX_TEXT, TellsSchedule, report_of, replaying};

use crate::output::write_output;
use crate::refusal::{Refusal, refuse};
use crate::status::Status;
use outer_edge::{Sink, Source, read_up_to};
use replay_world::World;
use schedule_text::{
    Schedule, parse_schedule, refuses_no_schedule, refuses_one_line, spells_one_schedule,
};
use std::alloc::Global;
use sync_model::every_write_is_based;
use wire_fields::{NoMemory, Octets};

/// How many bytes a schedule may have.
const TEXT_LIMIT: u64 = 1_048_576;

/// Reads a schedule to its end, steps the world through its events, and writes the world's report.
///
/// A refusal prints one line in place of the report. It takes time linear in the length of the text, and that of the
/// world's steps and its report. It asks the source for at most one byte more than a schedule may have.
pub fn run_replay<S: Source, O: Sink>(alloc: Global, input: &mut S, output: &mut O) -> Status
    // A schedule gives just its report.
    ensures replays { (schedule : Plan) → TellsSchedule (S.left input.old) schedule → GivesOutput (report_of schedule) result
        (reading S.left S.came S.faults input.old input.new)
        (writing O.taken O.faults output.old output.new) }
    // Each status has its cause.
    ensures cause { HasCause replaying result
        (reading S.left S.came S.faults input.old input.new)
        (writing O.taken O.faults output.old output.new) }
    // A text that is refused, or too long, gives the status that says so.
    ensures refuses { (line : ℕ) (reason : Reason) → TellsInput (S.left input.old) MAX_TEXT (λ text. IsRefused text line reason)
        → GivesRefusal BadSchedule (bad_schedule_line line reason) result
        (reading S.left S.came S.faults input.old input.new)
        (writing O.taken O.faults output.old output.new) }
    ensures refuses_length { TellsTooMuch (S.left input.old) MAX_TEXT → RefusesLength result
        (reading S.left S.came S.faults input.old input.new) }
    // Where nothing outside failed, a schedule gives status 0, or memory was wanting.
    ensures completes { (schedule : Plan) → TellsSchedule (S.left input.old) schedule
        → (SourceFailed (reading S.left S.came S.faults input.old input.new) → ⊥)
        → (SinkFailed (writing O.taken O.faults output.old output.new) → ⊥)
        → IsOkOrNoMemory result }
    // In every case.
    ensures gave_some { GaveUpTo S.left S.came input.old input.new (MAX_TEXT + 1) }
    ensures reads_never_fall { NeverFalls (S.faults input.old) (S.faults input.new) }
    ensures writes_never_fall { NeverFalls (O.faults output.old) (O.faults output.new) }
    // Whatever the schedule lists, each write of the server is based on the last one of its key.
    ensures versions { (schedule : Plan) → IsBased (world_of hashed schedule).history }
{
    // The laws of texts and of the model, which these calls bring in as facts; they do nothing when they run.
    spells_one_schedule();
    refuses_one_line();
    refuses_no_schedule();
    every_write_is_based();
    replay(alloc, input, output)
}

// Replays what the source gives.
fn replay<S: Source, O: Sink>(alloc: Global, input: &mut S, output: &mut O) -> Status
    ensures cause { HasCause replaying result
        (reading S.left S.came S.faults input.old input.new)
        (writing O.taken O.faults output.old output.new) }
    ensures gave_some { GaveUpTo S.left S.came input.old input.new (MAX_TEXT + 1) }
    ensures reads_never_fall { NeverFalls (S.faults input.old) (S.faults input.new) }
    ensures writes_never_fall { NeverFalls (O.faults output.old) (O.faults output.new) }
{
    let schedule = match read_schedule(alloc, input) {
        Ok(schedule) => schedule,
        Err(refusal) => return refuse(alloc, output, refusal),
    };
    match report(alloc, &schedule) {
        Ok(text) => write_output(output, text.as_slice()),
        Err(NoMemory) => refuse(alloc, output, Refusal::NoMemory),
    }
}

// The schedule that the source gives, of at most as many bytes as one may have.
fn read_schedule<S: Source>(alloc: Global, input: &mut S) -> Result<Schedule, Refusal>
    ensures read { MatchResult result
        (λ schedule. GaveInput (reading S.left S.came S.faults input.old input.new) MAX_TEXT (λ text. Spells text schedule))
        (λ refusal. IsRefusalOf replaying refusal (reading S.left S.came S.faults input.old input.new)) }
    ensures gave_some { GaveUpTo S.left S.came input.old input.new (MAX_TEXT + 1) }
    ensures never_falls { NeverFalls (S.faults input.old) (S.faults input.new) }
{
    let text = read_up_to(alloc, input, TEXT_LIMIT)?;
    Ok(parse_schedule(alloc, &text)?)
}

// The report of the world that a schedule makes.
#[tactic(auto, unfolding(crate::specs::Replay::report_of), using(crate::proofs::LawfulRuns::runs_are_lawful))]
fn report(alloc: Global, schedule: &Schedule) -> Result<Octets, NoMemory>
    requires schedule { IsSchedule schedule.now }
    requires built { IsBuiltSchedule schedule.now }
    ensures report { IfOk result (λ text. text ≡ report_of schedule.now) }
    ensures lawful { OnOk result (IsLawful hashed schedule.now) }
{
    world(alloc, schedule)?.report()
}

// The world after all events of a schedule.
#[tactic(auto, using(crate::proofs::Stepping::can_step_at))]
fn world(alloc: Global, schedule: &Schedule) -> Result<World, NoMemory>
    requires schedule { IsSchedule schedule.now }
    requires built { IsBuiltSchedule schedule.now }
    ensures { IfOk result (λ world. world ≡ world_of hashed schedule.now) }
{
    let mut world = World::new(alloc, schedule)?;
    for event in schedule.events.as_slice() {
        world.step(event)?;
    }
    Ok(world)
}
