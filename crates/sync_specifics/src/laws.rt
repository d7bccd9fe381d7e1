//! What holds of all messages here, by the definitions alone.
ghost use Rattle.sync_specifics.specs.Preferences.{SaysPreference};
ghost use Rattle.sync_specifics.specs.Logins.{SaysLogin};
ghost use Rattle.sync_specifics.specs.Keys.{SaysKey, SaysKeys};
ghost use Rattle.sync_specifics.specs.Specifics.{SaysSpecifics};
ghost use Rattle.sync_specifics.specs.Laws.{SayOneThing, PreferencesAreRead, LoginsAreRead, KeysAreRead, BagsAreRead, SpecificsAreRead, SaidPreferencesAreCanonical, SaidLoginsAreCanonical, SaidSpecificsAreCanonical};

/// Bytes say one thing at most, so that a decoder's answer is what they say.
pub fn bytes_say_one_thing()
    ensures preferences { SayOneThing SaysPreference }
    ensures logins { SayOneThing SaysLogin }
    ensures keys { SayOneThing SaysKey }
    ensures bags { SayOneThing SaysKeys }
    ensures specifics { SayOneThing SaysSpecifics }
{}

/// What an encoder writes says the value that it was given, where its extra is canonical, so that the decoder gives it
/// back.
pub fn written_values_are_read()
    ensures preferences { PreferencesAreRead }
    ensures logins { LoginsAreRead }
    ensures keys { KeysAreRead }
    ensures bags { BagsAreRead }
    ensures specifics { SpecificsAreRead }
{}

/// Each extra that bytes say is canonical, so that what a decoder gives may be written and read again.
pub fn said_extras_are_canonical()
    ensures preferences { SaidPreferencesAreCanonical }
    ensures logins { SaidLoginsAreCanonical }
    ensures specifics { SaidSpecificsAreCanonical }
{}
