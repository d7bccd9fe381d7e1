//! The types of entities, and the tags and hashes by which two devices know that they speak of the same one.
#![tactic(auto)]

ghost use Rattle.std.specs.Prelude.{◌≡◌, ◌↔◌, ◌≢◌, ◌<◌, Some, IfNone, IsTrue};
ghost use Rattle.client_tags.specs.declared.Kind.{Kind};
ghost use Rattle.client_tags.specs.Kinds.{kind_number, kind_of_number, kind_place};

mod hash;
mod login;
mod memory;
mod tag;

pub use hash::{TagHash, tag_hash};
pub use login::login_hash;
pub use memory::NoMemory;
pub use tag::{nigori_tag, password_tag, tags_tell_logins};

#[cfg(test)]
mod tests;

/// What an entity is: the types that the engine keeps alike, in the order in which it takes them.
#[derive(Clone, Copy, Debug, PartialEq, Eq, PartialOrd, Ord, Hash)]
pub enum Kind {
    /// The keys that lock the other types.
    Nigori,
    Preference,
    Password,
}

impl Kind {
    /// The number by which messages name the type: that of its field in an entity's specifics.
    pub fn number(&self) -> u32
        ensures { result ≡ kind_number self.now }
    {
        match self {
            Kind::Nigori => 47745,
            Kind::Preference => 37702,
            Kind::Password => 45873,
        }
    }

    /// The type of a number, if it is that of one of these.
    pub fn from_number(number: u64) -> Option<Kind>
        ensures is_kind { result ≡ kind_of_number number }
        ensures found { (kind : Kind) → (result ≡ Some kind) ↔ (number ≡ kind_number kind) }
        ensures none { IfNone result ((kind : Kind) → number ≢ kind_number kind) }
    {
        match number {
            47745 => Some(Kind::Nigori),
            37702 => Some(Kind::Preference),
            45873 => Some(Kind::Password),
            _ => None,
        }
    }
    /// Whether the engine takes this type before another.
    pub fn is_before(&self, other: &Kind) -> bool
        ensures { IsTrue result ↔ (kind_place self.now < kind_place other.now) }
    {
        self < other
    }
}
