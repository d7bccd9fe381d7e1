ghost use Rattle.std.specs.Prelude.{◌≡◌, IfOk};
ghost use Rattle.sync_values.specs.PassKinds.{pass_kind_number, pass_kind_of_number};

use key_derivation::NigoriKey;
use wire_fields::{List, NoMemory, Octets};

/// Which passphrase locks a profile, as a nigori entity says it.
#[derive(Clone, Copy, Debug, PartialEq, Eq, Hash)]
pub enum PassKind {
    Implicit,
    Keystore,
    Frozen,
    Custom,
    Vault,
}

/// A setting of the browser: its name, which is its client tag, and its value as bytes.
#[derive(Debug, Drop)]
pub struct Preference {
    pub name: Octets,
    pub value: Octets,
    /// The fields of its message that a newer client wrote and this one does not know, as their bytes.
    pub extra: Octets,
}

/// A saved login: where it is filled in, for whom, and the secret.
#[derive(Debug, Drop)]
pub struct Password {
    pub origin: Octets,
    pub user_element: Octets,
    pub user_value: Octets,
    pub pass_element: Octets,
    pub realm: Octets,
    pub secret: Octets,
    /// When it was made, as a number that grows.
    pub created: i64,
    /// The fields of its message that a newer client wrote and this one does not know, as their bytes.
    pub extra: Octets,
}

/// The keys of a profile: the name of the one that locks them, all of them, and the passphrase's kind.
#[derive(Debug, Drop)]
pub struct NigoriValue {
    pub lock: Octets,
    pub keys: List<NigoriKey>,
    pub pass_kind: PassKind,
}

/// What a client or the server has of an entity.
#[derive(Debug, Drop)]
pub enum Value {
    /// There is none, or it was deleted.
    Absent,
    Preference(Preference),
    Password(Password),
    Nigori(NigoriValue),
}

impl PassKind {
    /// The number by which messages name the kind.
    pub fn number(self) -> u32
        ensures { result ≡ pass_kind_number self }
    {
        match self {
            PassKind::Implicit => 1,
            PassKind::Keystore => 2,
            PassKind::Frozen => 3,
            PassKind::Custom => 4,
            PassKind::Vault => 5,
        }
    }

    /// The kind of a number, if it is that of one.
    pub fn from_number(number: u64) -> Option<PassKind>
        ensures { result ≡ pass_kind_of_number number }
    {
        match number {
            1 => Some(PassKind::Implicit),
            2 => Some(PassKind::Keystore),
            3 => Some(PassKind::Frozen),
            4 => Some(PassKind::Custom),
            5 => Some(PassKind::Vault),
            _ => None,
        }
    }
}

impl Preference {
    /// A second owner of the same texts, in time linear in their length.
    pub fn copy(&self) -> Result<Preference, NoMemory>
        ensures { IfOk result (λ copy. copy ≡ self.now) }
    {
        Ok(Preference {
            name: self.name.copy()?,
            value: self.value.copy()?,
            extra: self.extra.copy()?,
        })
    }
}

impl Password {
    /// A second owner of the same texts, in time linear in their length.
    pub fn copy(&self) -> Result<Password, NoMemory>
        ensures { IfOk result (λ copy. copy ≡ self.now) }
    {
        Ok(Password {
            origin: self.origin.copy()?,
            user_element: self.user_element.copy()?,
            user_value: self.user_value.copy()?,
            pass_element: self.pass_element.copy()?,
            realm: self.realm.copy()?,
            secret: self.secret.copy()?,
            created: self.created,
            extra: self.extra.copy()?,
        })
    }
}

impl NigoriValue {
    /// A second owner of the same keys, in time linear in their number.
    pub fn copy(&self) -> Result<NigoriValue, NoMemory>
        ensures { IfOk result (λ copy. copy ≡ self.now) }
    {
        Ok(NigoriValue {
            lock: self.lock.copy()?,
            keys: self.keys.copy()?,
            pass_kind: self.pass_kind,
        })
    }
}

impl Value {
    /// A second owner of the same value, in time linear in its size.
    pub fn copy(&self) -> Result<Value, NoMemory>
        ensures { IfOk result (λ copy. copy ≡ self.now) }
    {
        match self {
            Value::Absent => Ok(Value::Absent),
            Value::Preference(preference) => Ok(Value::Preference(preference.copy()?)),
            Value::Password(password) => Ok(Value::Password(password.copy()?)),
            Value::Nigori(nigori) => Ok(Value::Nigori(nigori.copy()?)),
        }
    }
}
