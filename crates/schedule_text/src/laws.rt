//! What holds of texts, whoever reads them.

ghost use Rattle.schedule_text.specs.Laws.{SpellsOneSchedule, RefusesOneLine, RefusesNoSchedule, IsReadBack, SpellsCanonicalEdits};

/// A text spells at most one schedule.
pub fn spells_one_schedule()
    ensures { SpellsOneSchedule }
{}

/// A text is refused at most at one line, for one reason.
pub fn refuses_one_line()
    ensures { RefusesOneLine }
{}

/// A text that spells a schedule is not refused.
pub fn refuses_no_schedule()
    ensures { RefusesNoSchedule }
{}

/// The text of a schedule that this stage knows spells it, and no other schedule.
pub fn texts_are_read_back()
    ensures { IsReadBack }
{}

/// Each edit of a schedule that a text spells is canonical: a set one names no unknown fields, and those of a newer one
/// are canonical.
pub fn spells_canonical_edits()
    ensures { SpellsCanonicalEdits }
{}
