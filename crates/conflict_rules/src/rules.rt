//! What a type's rule decides, and the rules of the three types.
ghost use Rattle.std.specs.Prelude.{◌≡◌, Bool, true, false, IsTrue, IfOk, OnErr};
ghost use Rattle.client_tags.specs.declared.Kind.TheVariants.{Nigori as nigori, Preference as preference, Password as password};
ghost use Rattle.sync_values.specs.declared.value.Value.{Value};
ghost use Rattle.sync_model.specs.declared.conflict.Decision.{Decision};
ghost use Rattle.sync_model.specs.Settings.{decided_by, names};
ghost use Rattle.sync_model.specs.Values.{same_value, is_absent};
ghost use Rattle.conflict_rules.specs.Rules.{KeepsEachType};
ghost use Rattle.conflict_rules.specs.Decisions.{preferences_keep_type, logins_keep_type, keys_keep_type};

use sync_model::Decision;
use sync_values::Value;
use wire_fields::NoMemory;

/// How a type settles two changes of one entity.
pub trait TypeRules {
    /// What the rule makes of two values that differ, the client's before the server's.
    ghost decided: { Self → Value → Value → Decision };

    /// The rule may want memory to decide.
    ghost wants_memory: { Self → Bool };

    /// Settles two changes of one entity that differ and are no deletions.
    fn decide(&self, local: &Value, remote: &Value) -> Result<Decision, NoMemory>
        requires local_is_present { is_absent local.now ≡ false }
        requires remote_is_present { is_absent remote.now ≡ false }
        requires differ { same_value local.now remote.now ≡ false }
        ensures decided { IfOk result (λ decision. decision ≡ decided self.now local.now remote.now) }
        ensures refused { OnErr result (IsTrue (wants_memory self.now)) };

    /// What is merged of two values of a type is a value of that type.
    ghost keeps_type: { (rules : Self) → KeepsEachType (decided rules) };
}

/// The rule of preferences: the server's wins.
#[derive(Clone, Copy, Debug)]
pub struct Preferences;

/// The rule of logins: the one that was made later wins, and the server's where both were made at once.
#[derive(Clone, Copy, Debug)]
pub struct Passwords;

/// The rule of a profile's keys: the server's win.
#[derive(Clone, Copy, Debug)]
pub struct NigoriRules;

impl TypeRules for Preferences {
    ghost decided = { λ _. decided_by names preference };

    ghost wants_memory = { λ _. false };

    ghost keeps_type = { λ _. preferences_keep_type };

    /// The server's value.
    #[tactic(auto, unfolding(sync_model::specs::Settings::names))]
    fn decide(&self, local: &Value, remote: &Value) -> Result<Decision, NoMemory>
        ensures { result ≡ Ok (decided_by names preference local.now remote.now) }
    {
        Ok(Decision::Remote)
    }
}

impl TypeRules for Passwords {
    ghost decided = { λ _. decided_by names password };

    ghost wants_memory = { λ _. false };

    ghost keeps_type = { λ _. logins_keep_type };

    /// The login that was made later.
    fn decide(&self, local: &Value, remote: &Value) -> Result<Decision, NoMemory>
        ensures { result ≡ Ok (decided_by names password local.now remote.now) }
    {
        match (local, remote) {
            (Value::Password(local), Value::Password(remote)) if local.created > remote.created =>
                Ok(Decision::Local),
            _ => Ok(Decision::Remote),
        }
    }
}

impl TypeRules for NigoriRules {
    ghost decided = { λ _. decided_by names nigori };

    ghost wants_memory = { λ _. false };

    ghost keeps_type = { λ _. keys_keep_type };

    /// The server's value.
    fn decide(&self, local: &Value, remote: &Value) -> Result<Decision, NoMemory>
        ensures { result ≡ Ok (decided_by names nigori local.now remote.now) }
    {
        Ok(Decision::Remote)
    }
}
