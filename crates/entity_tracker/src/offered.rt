//! The values that were offered of a key under its known version.
ghost use Rattle.std.specs.Prelude.{◌≡◌, ◌+◌, ◌-◌, ◌≤◌, ◌∷◌, ◌++◌, [], length, drop, IfOk, OnOk, OnErr};
ghost use Rattle.sync_model.specs.KeyStates.{is_offered, is_earlier_offer};

use conflict_rules::same_values;
use std::alloc::Global;
use sync_model::Offered;
use sync_values::Value;
use wire_fields::NoMemory;

/// How many offered values of a key are kept.
const KEPT: usize = 8;

/// A value was offered by the edit of this number.
pub(crate) fn is_offered(offered: &[Offered], number: u64) -> bool
    ensures { result ≡ is_offered offered.now number }
{
    for pair in offered {
        if pair.number == number {
            return true;
        }
    }
    false
}

/// A value is one that was offered by an edit before this one.
pub(crate) fn is_earlier_offer(offered: &[Offered], due: u64, value: &Value) -> bool
    ensures { result ≡ is_earlier_offer offered.now due value.now }
{
    for pair in offered {
        if pair.number < due && same_values(&pair.value, value) {
            return true;
        }
    }
    false
}

/// Adds an offered value. Where eight stand there, that of the least number goes.
pub(crate) fn add_offered(offered: &mut Vec<Offered>, pair: Offered) -> Result<(), NoMemory>
    requires { length offered.old.items ≤ 8 }
    ensures ok { OnOk result (offered.new.items
        ≡ drop (length offered.old.items + 1 - 8) (offered.old.items ++ pair ∷ [])) }
    ensures err { OnErr result (offered.new.items ≡ offered.old.items) }
{
    offered.push(pair)?;
    if offered.len() > KEPT {
        let _least = offered.remove(0);
    }
    Ok(())
}

/// A second owner of the same offered values, in time linear in their length.
pub(crate) fn copied_offered(alloc: Global, offered: &[Offered]) -> Result<Vec<Offered>, NoMemory>
    ensures { IfOk result (λ copy. copy.items ≡ offered.now) }
{
    let mut copy = Vec::new(alloc);
    for pair in offered {
        copy.push(Offered {
            number: pair.number,
            value: pair.value.copy()?,
        })?;
    }
    Ok(copy)
}
