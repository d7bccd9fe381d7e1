ghost use Rattle.std.specs.Prelude.{◌≡◌, ℕ, ◌∷◌, ◌++◌, List};
ghost use Rattle.sha1.specs.Sha1.{Holds};
ghost use Rattle.client_tags.specs.Tags.{escaped, password_tag};
ghost use Rattle.client_tags.specs.Hashes.{tag_hash};
ghost use Rattle.client_tags.specs.declared.Kind.TheVariants.{Password as password_kind};

use crate::hash::specifics_prefix;
use crate::tag::{is_unreserved, percent_escape};
use crate::{Kind, TagHash};
use sha1::Sha1;

/// The hash of a login's tag, in time linear in the lengths of its texts and without memory for the tag.
pub fn login_hash(
    origin: &[u8],
    user_element: &[u8],
    user_value: &[u8],
    pass_element: &[u8],
    realm: &[u8],
) -> TagHash
    ensures { result
        ≡ tag_hash password_kind (password_tag origin.now user_element.now user_value.now pass_element.now realm.now) }
{
    let mut hasher = Sha1::new();
    hasher.update(&specifics_prefix(Kind::Password));
    hash_escaped(&mut hasher, origin);
    hash_part(&mut hasher, user_element);
    hash_part(&mut hasher, user_value);
    hash_part(&mut hasher, pass_element);
    hash_part(&mut hasher, realm);
    TagHash::from_bytes(hasher.finalize())
}

// A further text of a tag, behind the sign that parts it from the one before.
fn hash_part(hasher: &mut Sha1, text: &[u8])
    ensures { (before : List ℕ) → Holds hasher.old before → Holds hasher.new (before ++ (124 ∷ escaped text.now)) }
{
    hasher.update(b"|");
    hash_escaped(hasher, text);
}

fn hash_escaped(hasher: &mut Sha1, text: &[u8])
    ensures { (before : List ℕ) → Holds hasher.old before → Holds hasher.new (before ++ escaped text.now) }
{
    for byte in text {
        if is_unreserved(*byte) {
            hasher.update(&[*byte]);
        } else {
            hasher.update(&percent_escape(*byte));
        }
    }
}
