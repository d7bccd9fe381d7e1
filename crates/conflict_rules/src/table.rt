//! The conflict table, row by row.
ghost use Rattle.std.specs.Prelude.{◌≡◌, false, IsTrue, IfOk, OnErr};
ghost use Rattle.sync_model.specs.declared.conflict.Row.TheVariants.{C6};
ghost use Rattle.sync_model.specs.Conflicts.{row_of, choice_of, choice_by, resolved};
ghost use Rattle.sync_model.specs.Values.{same_value, is_absent};

use crate::rules::TypeRules;
use crate::same::{is_absent, same_values};
use sync_model::{Choice, Decision, Resolution, Row};
use sync_values::Value;
use wire_fields::NoMemory;

// The first row that fits.
#[tactic(auto, unfolding(sync_model::specs::Conflicts::row_of))]
fn fitting_row(echo: bool, base: &Value, local: &Value, remote: &Value) -> Row
    ensures { result ≡ row_of echo base.now local.now remote.now }
{
    if same_values(local, remote) {
        Row::C1
    } else if echo {
        Row::C0
    } else if is_absent(local) && !is_absent(remote) {
        Row::C2
    } else if same_values(local, base) {
        Row::C3
    } else if same_values(remote, base) {
        Row::C4
    } else if is_absent(remote) {
        Row::C5
    } else {
        Row::C6
    }
}

fn choice_by(decision: Decision) -> Choice
    ensures { result ≡ choice_by decision }
{
    match decision {
        Decision::Remote => Choice::Remote,
        Decision::Local => Choice::Local,
        Decision::Merged(value) => Choice::Merged(value),
    }
}

fn choose<R: TypeRules>(
    rules: &R,
    row: Row,
    local: &Value,
    remote: &Value,
) -> Result<Choice, NoMemory>
    requires local_is_present { row ≡ C6 → is_absent local.now ≡ false }
    requires remote_is_present { row ≡ C6 → is_absent remote.now ≡ false }
    requires differ { row ≡ C6 → same_value local.now remote.now ≡ false }
    ensures choice { IfOk result (λ choice. choice ≡ choice_of row (R.decided rules.now local.now remote.now)) }
    ensures refused { OnErr result (IsTrue (R.wants_memory rules.now)) }
    ensures asked { OnErr result (row ≡ C6) }
{
    match row {
        Row::C1 => Ok(Choice::Same),
        Row::C2 | Row::C3 => Ok(Choice::Remote),
        Row::C0 | Row::C4 | Row::C5 => Ok(Choice::Local),
        Row::C6 => Ok(choice_by(rules.decide(local, remote)?)),
    }
}

/// Settles an own value that the server lacks, where another value of its key comes: by the first row of the
/// conflict table that fits what was known before, the own value and the server's. The caller tells whether the
/// server's is an earlier own value that this client offered.
///
/// Memory is wanting only where the rule wants it to decide, which it does at row C6 alone.
pub fn resolve<R: TypeRules>(
    rules: &R,
    echo: bool,
    base: &Value,
    local: &Value,
    remote: &Value,
) -> Result<Resolution, NoMemory>
    ensures resolved { IfOk result (λ resolution. resolution
        ≡ resolved (R.decided rules.now) echo base.now local.now remote.now) }
    ensures refused { OnErr result (IsTrue (R.wants_memory rules.now)) }
    ensures asked { OnErr result (row_of echo base.now local.now remote.now ≡ C6) }
{
    let row = fitting_row(echo, base, local, remote);
    let choice = choose(rules, row, local, remote)?;
    Ok(Resolution { row, choice })
}
