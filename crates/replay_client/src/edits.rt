//! What a user's edit makes of a client.
ghost use Rattle.std.specs.Prelude.{◌≡◌, ◌<◌, ◌++◌, map, vec_len, vec_capacity, IsSome, IfOk, OnErr};
ghost use Rattle.client_tags.specs.declared.Kind.TheVariants.{Preference as preference_kind};
ghost use Rattle.run_setting.specs.Hashed.{hashed};
ghost use Rattle.sync_specifics.specs.Extras.{IsCanonicalEdit};
ghost use Rattle.sync_model.specs.Changes.{change_effect, follows};
ghost use Rattle.sync_model.specs.Edits.{edit_kind};
ghost use Rattle.sync_model.specs.Worlds.{settlement_of};
ghost use Rattle.replay_client.specs.Happenings.{Happens, IsPlainOutcome};

use crate::client::Client;
use client_tags::Kind;
use sync_model::{Edit, EventOutcome, Fate, Settlement};
use wire_fields::NoMemory;

fn copied_edit(edit: &Edit) -> Result<Edit, NoMemory>
    requires { edit_kind edit.now ≡ preference_kind }
    ensures { IfOk result (λ copy. copy ≡ edit.now) }
{
    match edit {
        Edit::SetPreference(preference) => Ok(Edit::SetPreference(preference.copy()?)),
        Edit::NewerPreference(preference) => Ok(Edit::NewerPreference(preference.copy()?)),
        Edit::DeletePreference(name) => Ok(Edit::DeletePreference(name.copy()?)),
        _ => unreachable!(),
    }
}

// An edit of this number settles the one that it follows.
fn settle_followed(
    settlements: &mut Vec<Settlement>,
    client: u32,
    followed: Option<u64>,
    number: u64,
)
    requires { vec_len settlements.old < vec_capacity settlements.old }
    ensures { settlements.new.items
        ≡ settlements.old.items ++ map (settlement_of client preference_kind) (follows followed number) }
{
    if let Some(due) = followed {
        settlements.push_reserved(Settlement {
            client,
            kind: Kind::Preference,
            number: due,
            fate: Fate::Followed(number),
        });
    }
}

impl Client {
    /// The user edits a preference. It is void where the texts are too long or there is no room. It takes time in
    /// the length of the texts and the logarithm of the number of preferences.
    pub fn edit(
        &mut self,
        number: u32,
        edit: &Edit,
        settlements: &mut Vec<Settlement>,
    ) -> Result<EventOutcome, NoMemory>
        requires preference { edit_kind edit.now ≡ preference_kind }
        requires canonical { IsCanonicalEdit edit.now }
        ensures happens { IfOk result (λ outcome. Happens number (change_effect hashed number edit.now self.old) outcome
            self.old self.new settlements.old.items settlements.new.items) }
        ensures plain { IfOk result IsPlainOutcome }
        ensures err { OnErr result (self.new ≡ self.old) }
        ensures memory { OnErr result (IsSome (change_effect hashed number edit.now self.old)) }
        ensures unsettled { OnErr result (settlements.new.items ≡ settlements.old.items) }
    {
        if self.preference.processor.may_edit(edit).is_err() {
            return Ok(EventOutcome::Void);
        }
        let copy = copied_edit(edit)?;
        settlements.reserve(1)?;
        // The edit may be taken, so memory is all that can be wanting.
        let Ok(edited) = self.preference.processor.edit(copy) else {
            return Err(NoMemory);
        };
        settle_followed(settlements, number, edited.followed, edited.number);
        Ok(EventOutcome::Edited {
            client: number,
            kind: Kind::Preference,
            number: edited.number,
        })
    }
}
