//! The tasks that wait for a turn.
ghost use Rattle.std.specs.Prelude.{◌≡◌, ◌++◌, None, option_to_list, OnOk, OnErr, IfSome};
ghost use Rattle.type_processor.specs.Fits.{IsTaskOf};
ghost use Rattle.type_processor.specs.Mail.{next_size};

use crate::processor::Processor;
use conflict_rules::TypeRules;
use sync_model::Task;
use wire_fields::NoMemory;

impl<R: TypeRules> Processor<R> {
    /// How many entries the first task that waits has, 0 where none waits. A turn settles no more edits than that.
    pub fn next_size(&self) -> usize
        ensures { result ≡ next_size self.now.mailbox }
    {
        match self.mailbox.front() {
            Some(Task::Batch(batch)) => batch.updates.len(),
            Some(Task::Acks(acks)) => acks.len(),
            None => 0,
        }
    }

    /// Puts a task, if there is one, to the end of those that wait for a turn. Where memory is wanting it stays in its
    /// place.
    pub fn post_letter(&mut self, letter: &mut Option<Task>) -> Result<(), NoMemory>
        requires { IfSome letter.old (IsTaskOf self.old.kind) }
        ensures ok { OnOk result (self.new ≡ record self.old { mailbox = self.old.mailbox ++ option_to_list letter.old }) }
        ensures taken { OnOk result (letter.new ≡ None) }
        ensures err { OnErr result (self.new ≡ self.old) }
        ensures kept { OnErr result (letter.new ≡ letter.old) }
    {
        self.mailbox.reserve(1)?;
        let Some(task) = letter.take() else {
            return Ok(());
        };
        self.mailbox.push_back_reserved(task);
        Ok(())
    }
}
