//! What holds of the texts of scripts, whoever reads them.

ghost use Rattle.schedule_text.specs.ScriptLaws.{SpellsOneScript, RefusesOneScriptLine, RefusesNoScript, IsScriptReadBack, ScriptsAreCanonical};

/// A text spells at most one script.
pub fn spells_one_script()
    ensures { SpellsOneScript }
{}

/// A text is refused as a script at most at one line, for one reason.
pub fn refuses_one_script_line()
    ensures { RefusesOneScriptLine }
{}

/// A text that spells a script is not refused as one.
pub fn refuses_no_script()
    ensures { RefusesNoScript }
{}

/// The text of a script spells it, and no other script.
pub fn scripts_are_read_back()
    ensures { IsScriptReadBack }
{}

/// Each edit of a script that a text spells is canonical: a set one names no unknown fields, and those of a newer one
/// are canonical.
pub fn spells_canonical_scripts()
    ensures { ScriptsAreCanonical }
{}
