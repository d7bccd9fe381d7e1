//! That the laws of the model hold of the program's runs.
ghost use Rattle.sync_model.specs.Settings.{IsSetting};
ghost use Rattle.run_setting.specs.Hashed.{hashed};

/// The laws of the model are said of every setting, and this is one.
pub fn hashed_is_a_setting()
    ensures { IsSetting hashed }
{}
